//! The ends of periods (Fed. R. Civ. P. 6(a), 6(d)).
ghost use Rattle.std.specs.Prelude.{◌≡◌, ℕ, ◌+◌, ◌-◌, ◌*◌, ◌≤◌, max, min, IsTrue};
ghost use Rattle.civil_time.specs.Months.{IsMonthsAfter};
ghost use Rattle.court_days.specs.Calendar.{IsWithinLimits};
ghost use Rattle.court_days.specs.Legal.{IsBusinessDay, IsOpenBusinessDay};
ghost use Rattle.court_days.specs.Period.{IsFirstFrom, IsLastUpTo, IsEndFrom, IsEndOfDays, IsEndOfMonths, IsTrigger, IsInReach, days_away, shift};
ghost use Rattle.court_days.specs.Ends.{first_open, last_business, months_away, end_from, end_of_days, end_of_months, service_end};

use crate::calendar::{Calendar, DayKind, Direction};
use crate::legal::{business, is_open_business};
use civil_time::{Day, months_earlier, months_later};

/// How many days service adds to a period (Fed. R. Civ. P. 6(d)).
const SERVICE_DAYS: u32 = 3;

/// The first open business day from `start` on, a day up to 3941-04-23.
pub fn first_open(calendar: &Calendar, direction: Direction, start: Day) -> Day
    requires { start ≤ 720_000 }
    ensures value { result ≡ first_open calendar.now direction start }
    ensures first { IsFirstFrom (IsOpenBusinessDay calendar.now direction) start result }
    ensures limits { IsWithinLimits calendar.now }
{
    first_open_from(calendar, direction, start)
}

/// The first open business day from `start` on.
fn first_open_from(calendar: &Calendar, direction: Direction, start: Day) -> Day
    requires { start ≤ 720_000 }
    ensures first { IsFirstFrom (IsOpenBusinessDay calendar.now direction) start result }
    ensures limits { IsWithinLimits calendar.now }
{
    let mut day = start;
    while !is_open_business(calendar, direction, day) {
        day = day.plus(1);
    }
    day
}

/// The last business day up to `start`, for a period that is counted backward; `start` is a day from
/// 1989-03-02 on.
pub fn last_business(calendar: &Calendar, start: Day) -> Day
    requires { 7_000 ≤ start }
    ensures value { start ≤ 55_000 → result ≡ last_business calendar.now start }
    ensures last { IsLastUpTo (IsBusinessDay calendar.now Direction.Backward) start result }
    ensures near { min start 10_956 ≤ result + 7 }
    ensures limits { IsWithinLimits calendar.now }
{
    last_business_to(calendar, start)
}

/// The last business day up to `start`, for a period that is counted backward.
fn last_business_to(calendar: &Calendar, start: Day) -> Day
    requires { 7_000 ≤ start }
    ensures last { IsLastUpTo (IsBusinessDay calendar.now Direction.Backward) start result }
    ensures near { min start 10_956 ≤ result + 7 }
    ensures limits { IsWithinLimits calendar.now }
{
    let mut day = start;
    while !business(calendar, Direction::Backward, day) {
        day = day.minus(1);
    }
    day
}

/// The end of a period whose count runs to that day, or back to it.
fn roll(calendar: &Calendar, direction: Direction, from: Day) -> Day
    requires { IsInReach direction from }
    ensures means { IsEndFrom calendar.now direction from result }
    ensures limits { IsWithinLimits calendar.now }
{
    match direction {
        Direction::Forward => first_open(calendar, Direction::Forward, from),
        Direction::Backward => {
            let last = last_business(calendar, from);
            if calendar.holds_day(DayKind::Closed, last) {
                first_open(calendar, Direction::Backward, last.plus(1))
            } else {
                last
            }
        }
    }
}

/// The end of a period whose count runs to that day, or back to it.
fn end_from(calendar: &Calendar, direction: Direction, from: Day) -> Day
    requires { IsInReach direction from }
    ensures value { result ≡ end_from calendar.now direction from }
    ensures means { IsEndFrom calendar.now direction from result }
    ensures near { result ≤ max from 47_482 + 7 }
{
    roll(calendar, direction, from)
}

/// The day that many days later, or earlier.
fn days_away(direction: Direction, day: Day, count: u32) -> Day
    requires day { IsTrigger direction day }
    requires count { count ≤ 3650 }
    ensures { result ≡ days_away direction day count }
{
    match direction {
        Direction::Forward => day.plus(count),
        Direction::Backward => day.minus(count),
    }
}

/// The day that many months later, or earlier.
fn months_away(direction: Direction, day: Day, months: u32) -> Day
    requires day { IsTrigger direction day }
    requires months { months ≤ 120 }
    ensures value { result ≡ months_away direction day months }
    ensures means { IsMonthsAfter day (shift direction months) result }
    ensures reach { IsInReach direction result }
    ensures near { result ≤ day + 31 * months }
{
    match direction {
        Direction::Forward => months_later(day, months),
        Direction::Backward => months_earlier(day, months),
    }
}

/// The end of a period of `count` days (at most 3,650) from the trigger, the day of the event. The
/// trigger itself does not count. Where the last day is a Saturday, a Sunday or a legal holiday, the
/// period runs on to the next day that is none. It also runs on to a day on which the clerk's office
/// is open (Fed. R. Civ. P. 6(a)(1), 6(a)(3), 6(a)(5)).
///
/// Forward, the trigger is a day up to 3900-12-31; backward, one of 2000-01-01 to 2099-12-31. Where
/// the office was closed on the day found backward, the end is the first open business day after it.
pub fn count_days(calendar: &Calendar, direction: Direction, trigger: Day, count: u32) -> Day
    requires trigger { IsTrigger direction trigger }
    requires count { count ≤ 3650 }
    ensures value { result ≡ end_of_days calendar.now direction trigger count }
    ensures means { IsEndOfDays calendar.now direction trigger count result }
    ensures near { result ≤ max (trigger + count) 47_482 + 7 }
{
    end_from(calendar, direction, days_away(direction, trigger, count))
}

/// The end of a period of that many months (at most 120) from the trigger: from the same day of the
/// month, or the last of a shorter one, on to an open business day as in `count_days`, with its
/// triggers.
pub fn count_months(calendar: &Calendar, direction: Direction, trigger: Day, months: u32) -> Day
    requires trigger { IsTrigger direction trigger }
    requires months { months ≤ 120 }
    ensures value { result ≡ end_of_months calendar.now direction trigger months }
    ensures means { IsEndOfMonths calendar.now direction trigger months result }
    ensures near { result ≤ max (trigger + 31 * months) 47_482 + 7 }
{
    end_from(calendar, direction, months_away(direction, trigger, months))
}

/// The end of a period to which service adds three days: they are added after the period would
/// otherwise end, on the day `end`, up to 3900-12-31 (Fed. R. Civ. P. 6(d)).
pub fn add_three(calendar: &Calendar, end: Day) -> Day
    requires { end ≤ 705_282 }
    ensures value { result ≡ service_end calendar.now end }
    ensures means { IsEndOfDays calendar.now Direction.Forward end 3 result }
    ensures near { result ≤ max (end + 3) 47_482 + 7 }
{
    count_days(calendar, Direction::Forward, end, SERVICE_DAYS)
}
