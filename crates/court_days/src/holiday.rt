//! The holidays of statute (5 U.S.C. 6103(a), Fed. R. Civ. P. 6(a)(6)(A)).
ghost use Rattle.std.specs.Prelude.{◌≡◌, ℕ, ◌+◌, ◌-◌, ◌≤◌, ◌<◌, ◌↔◌, pos, IsTrue};
ghost use Rattle.civil_time.specs.Civil.{IsDayNumber};
ghost use Rattle.court_days.specs.Holiday.{is_fixed_date, is_monday_date, is_thursday_date, IsFixedHoliday, IsStatutory, is_statutory};

use civil_time::{Day, ymd_of};

const MONDAY: u32 = 1;

const THURSDAY: u32 = 4;

const FRIDAY: u32 = 5;

/// A date of New Year's Day, Juneteenth, Independence Day, Veterans Day or Christmas Day.
fn is_fixed_date(month: u32, day: u32) -> bool
    ensures { result ≡ is_fixed_date month day }
{
    matches!(
        (month, day),
        (1, 1) | (6, 19) | (7, 4) | (11, 11) | (12, 25)
    )
}

/// Whether the day with that number, which need not be a `Day`, is a holiday of a fixed date.
fn is_fixed_holiday(number: u32) -> bool
    requires { number ≤ 1_000_000 }
    ensures { IsTrue result ↔ IsFixedHoliday number }
{
    let (_, month, day) = ymd_of(number);
    is_fixed_date(month, day)
}

/// A date on which a Monday is a holiday: where the third Monday of January and of February, the last
/// of May, the first of September and the second of October fall.
fn is_monday_date(month: u32, day: u32) -> bool
    ensures { result ≡ is_monday_date month day }
{
    matches!(
        (month, day),
        (1 | 2, 15..=21) | (5, 25..=31) | (9, 1..=7) | (10, 8..=14)
    )
}

/// A date on which a Thursday is a holiday: where the fourth Thursday of November falls.
fn is_thursday_date(month: u32, day: u32) -> bool
    ensures { result ≡ is_thursday_date month day }
{
    matches!((month, day), (11, 22..=28))
}

/// Whether the day is a holiday of statute (5 U.S.C. 6103(a)). One of a fixed date that falls on a
/// Saturday is also one on the Friday before, and one that falls on a Sunday on the Monday after.
pub fn statutory(day: Day) -> bool
    ensures value { result ≡ is_statutory day }
    ensures means { IsTrue result ↔ IsStatutory day }
    ensures limits { IsDayNumber day }
{
    let number = day.epoch_day();
    let (_, month, day_of_month) = ymd_of(number);
    if is_fixed_date(month, day_of_month) {
        return true;
    }
    match day.weekday() {
        MONDAY => is_monday_date(month, day_of_month) || is_fixed_holiday(number - 1),
        THURSDAY => is_thursday_date(month, day_of_month),
        FRIDAY => is_fixed_holiday(number + 1),
        _ => false,
    }
}
