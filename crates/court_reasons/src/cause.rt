//! Why a day is passed over.
ghost use Rattle.std.specs.Prelude.{◌≡◌, ◌≤◌};
ghost use Rattle.std.specs.Int.{IsInRange};
ghost use Rattle.civil_time.specs.LocalTime.{seconds, IsMoment};
ghost use Rattle.court_days.specs.Court.{zone_of};
ghost use Rattle.court_reasons.specs.Causes.{is_forward, business_causes, day_causes, hour_causes};

use crate::statutory::{StatutoryHoliday, statutory_holiday};
use court_days::{Calendar, Court, Day, DayKind, Direction, same_time, was_accessible};

const SUNDAY: u32 = 0;

const SATURDAY: u32 = 6;

/// Why no period ends on a day: each cause that is true of the day.
#[derive(Clone, Copy)]
pub struct Causes {
    /// It is a Saturday (Fed. R. Civ. P. 6(a)(1)(C)).
    pub saturday: bool,
    /// It is a Sunday.
    pub sunday: bool,
    /// It is a holiday of statute (6(a)(6)(A)).
    pub statutory: Option<StatutoryHoliday>,
    /// The President or Congress declared it a holiday (6(a)(6)(B)).
    pub federal: bool,
    /// The state declared it a holiday, which counts for periods measured after an event
    /// (6(a)(6)(C)).
    pub state: bool,
    /// The clerk's office was inaccessible on the day, which counts where a day for filing is
    /// looked for (6(a)(3)(A)).
    pub closed: bool,
    /// The clerk's office was not accessible throughout the hour before the time at which a period
    /// of hours would end (6(a)(3)(B)).
    pub inaccessible: bool,
}

/// Why the day is no business day for periods of that direction.
pub(crate) fn business_causes(calendar: &Calendar, direction: Direction, day: Day) -> Causes
    ensures { result ≡ business_causes calendar.now direction day }
{
    let weekday = day.weekday();
    let federal = calendar.holds_day(DayKind::Federal, day);
    let state = calendar.holds_day(DayKind::State, day);
    Causes {
        saturday: weekday == SATURDAY,
        sunday: weekday == SUNDAY,
        statutory: statutory_holiday(day),
        federal,
        state: is_forward(direction) && state,
        closed: false,
        inaccessible: false,
    }
}

/// Whether the period is measured after an event.
fn is_forward(direction: Direction) -> bool
    ensures { result ≡ is_forward direction }
{
    matches!(direction, Direction::Forward)
}

/// Why no period of days of that direction ends on the day.
pub(crate) fn day_causes(calendar: &Calendar, direction: Direction, day: Day) -> Causes
    ensures { result ≡ day_causes calendar.now direction day }
{
    let causes = business_causes(calendar, direction, day);
    let closed = calendar.holds_day(DayKind::Closed, day);
    Causes { closed, ..causes }
}

/// Why no period of hours of that direction ends on the day at the time of the instant.
pub(crate) fn hour_causes(
    court: &Court,
    calendar: &Calendar,
    direction: Direction,
    at: i64,
    day: Day,
) -> Causes
    requires instant { IsMoment at }
    requires day { IsInRange 10_580 47_860 day }
    ensures { result ≡ hour_causes calendar.now (zone_of court.now) direction (seconds at) day }
{
    let causes = business_causes(calendar, direction, day);
    let inaccessible = !was_accessible(court, calendar, same_time(court, at, day));
    Causes {
        inaccessible,
        ..causes
    }
}
