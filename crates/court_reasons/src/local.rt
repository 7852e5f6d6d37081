//! Days by the court's clock.
ghost use Rattle.std.specs.Prelude.{◌≡◌, ◌≤◌};
ghost use Rattle.std.specs.Int.{IsInRange};
ghost use Rattle.civil_time.specs.LocalTime.{local_day, seconds};
ghost use Rattle.court_days.specs.Court.{zone_of};
ghost use Rattle.court_days.specs.Hours.{IsNearEntered};
ghost use Rattle.court_days.specs.Limits.{last_local_day};

use court_days::{Court, Day};

/// The local day at an instant near the days that a court may enter.
pub(crate) fn local_day(court: &Court, at: i64) -> Day
    requires { IsNearEntered (seconds at) }
    ensures value { result ≡ local_day (zone_of court.now) (seconds at) }
    ensures near { result ≤ last_local_day }
    ensures nearer { IsInRange 915_000_000 4_134_100_000 (seconds at) → IsInRange 10_588 47_849 result }
{
    court.local(at).0
}
