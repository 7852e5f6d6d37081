//! Legal holidays and business days (Fed. R. Civ. P. 6(a)(6), 6(a)(1)(C)).
ghost use Rattle.std.specs.Prelude.{◌≡◌, ◌↔◌, IsTrue};
ghost use Rattle.court_days.specs.Calendar.{IsWithinLimits};
ghost use Rattle.court_days.specs.Legal.{IsLegalHoliday, is_legal_holiday, IsBusinessDay, is_business_day, IsOpenBusinessDay};

use crate::calendar::{Calendar, DayKind, Direction};
use crate::holiday::statutory;
use civil_time::Day;

const SUNDAY: u32 = 0;

const SATURDAY: u32 = 6;

/// Whether the day is a legal holiday for periods of that direction (Fed. R. Civ. P. 6(a)(6)): one of
/// statute, one that the President or Congress declared, or, counting forward, one of the state.
pub fn legal_holiday(calendar: &Calendar, direction: Direction, day: Day) -> bool
    ensures value { result ≡ is_legal_holiday calendar.now direction day }
    ensures means { IsTrue result ↔ IsLegalHoliday calendar.now direction day }
    ensures limits { IsWithinLimits calendar.now }
{
    let is_declared = calendar.holds_day(DayKind::Federal, day);
    statutory(day)
        || is_declared
        || (direction == Direction::Forward && calendar.holds_day(DayKind::State, day))
}

/// Whether the day is no Saturday, Sunday or legal holiday (Fed. R. Civ. P. 6(a)(1)(C)).
pub fn business(calendar: &Calendar, direction: Direction, day: Day) -> bool
    ensures value { result ≡ is_business_day calendar.now direction day }
    ensures means { IsTrue result ↔ IsBusinessDay calendar.now direction day }
    ensures limits { IsWithinLimits calendar.now }
{
    let is_holiday = legal_holiday(calendar, direction, day);
    let weekday = day.weekday();
    weekday != SUNDAY && weekday != SATURDAY && !is_holiday
}

/// Whether the day is a business day on which the clerk's office was open (Fed. R. Civ. P. 6(a)(3)).
pub(crate) fn is_open_business(calendar: &Calendar, direction: Direction, day: Day) -> bool
    ensures means { IsTrue result ↔ IsOpenBusinessDay calendar.now direction day }
    ensures limits { IsWithinLimits calendar.now }
{
    business(calendar, direction, day) && !calendar.holds_day(DayKind::Closed, day)
}
