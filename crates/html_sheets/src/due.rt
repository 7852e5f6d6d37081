//! The days about a day whose deadlines are listed.
ghost use Rattle.std.specs.Prelude.{◌≡◌, ◌-◌, ◌+◌, min, max};
ghost use Rattle.html_sheets.specs.Due.{day_of_clock, days_about};

use court_days::{Court, Day};
use docket_text::shown;

/// 1980-01-01, the first `Day`.
pub(crate) const FIRST_DAY: u32 = 3652;

/// 3999-12-31, the last `Day`.
pub(crate) const LAST_DAY: u32 = 741_441;

/// Which deadlines are listed, by the day on which they are asked for.
#[derive(Clone, Copy)]
pub enum Due {
    /// Those of that day.
    Today,
    /// Those of the seven days from it on.
    Week,
    /// Those of the days before it.
    Overdue,
}

/// The day of a clock in the zone of a court. The clock counts the seconds since 1970-01-01T00:00Z.
pub fn day_of_clock(court: &Court, clock: i64) -> Day
    ensures { result ≡ day_of_clock court.now clock }
{
    court.local(shown(clock)).0
}

/// The last of the seven days from a day on.
fn week_end(day: Day) -> Day
    ensures { result ≡ min 741_441 (day + 6) }
{
    let later = LAST_DAY - day.epoch_day();
    day.plus(later.min(6))
}

/// The days before a day, from the first to the last.
fn days_before(day: Day) -> (Day, Day)
    ensures first { result.0 ≡ 3652 }
    ensures last { result.1 ≡ max 3652 (day - 1) }
{
    let earlier = day.epoch_day() - FIRST_DAY;
    (day.minus(earlier), day.minus(earlier.min(1)))
}

impl Due {
    /// The first and the last of the days whose deadlines are listed.
    pub fn days(self, today: Day) -> (Day, Day)
        ensures { result ≡ days_about today self }
    {
        match self {
            Due::Today => (today, today),
            Due::Week => (today, week_end(today)),
            Due::Overdue => days_before(today),
        }
    }
}
