//! Which holiday of statute a day is (5 U.S.C. 6103(a), Fed. R. Civ. P. 6(a)(6)(A)).
ghost use Rattle.std.specs.Prelude.{◌≡◌, ◌↔◌, ◌≤◌, Some};
ghost use Rattle.civil_time.specs.Civil.{month_of, day_of_month};
ghost use Rattle.court_reasons.specs.Holidays.{IsStatutoryAs};
ghost use Rattle.court_reasons.specs.Statutory.{fixed_holiday, monday_holiday, thursday_holiday, fixed_on, own_day, observed_day, on_monday, other_holiday, fixed_or, statutory_holiday};

use civil_time::ymd_of;
use court_days::Day;

const MONDAY: u32 = 1;

const THURSDAY: u32 = 4;

const FRIDAY: u32 = 5;

/// A holiday of statute.
#[derive(Clone, Copy)]
pub enum Holiday {
    NewYear,
    King,
    Washington,
    Memorial,
    Juneteenth,
    Independence,
    Labor,
    Columbus,
    Veterans,
    Thanksgiving,
    Christmas,
}

/// A holiday of statute as a day has it: the holiday itself, or the day on which one of a fixed
/// date that falls on a Saturday or a Sunday is observed.
#[derive(Clone, Copy)]
pub struct StatutoryHoliday {
    pub holiday: Holiday,
    pub observed: bool,
}

/// The month and the day of the month of the day with that number, which need not be a `Day`.
fn date_of(number: u32) -> (u32, u32)
    requires { number ≤ 1_000_000 }
    ensures month { result.0 ≡ month_of number }
    ensures day { result.1 ≡ day_of_month number }
{
    let (_, month, day) = ymd_of(number);
    (month, day)
}

/// The holiday of that date.
fn fixed_holiday(month: u32, day: u32) -> Option<Holiday>
    ensures { result ≡ fixed_holiday month day }
{
    match (month, day) {
        (1, 1) => Some(Holiday::NewYear),
        (6, 19) => Some(Holiday::Juneteenth),
        (7, 4) => Some(Holiday::Independence),
        (11, 11) => Some(Holiday::Veterans),
        (12, 25) => Some(Holiday::Christmas),
        _ => None,
    }
}

/// The holiday on a Monday of that date.
fn monday_holiday(month: u32, day: u32) -> Option<Holiday>
    ensures { result ≡ monday_holiday month day }
{
    match (month, day) {
        (1, 15..=21) => Some(Holiday::King),
        (2, 15..=21) => Some(Holiday::Washington),
        (5, 25..=31) => Some(Holiday::Memorial),
        (9, 1..=7) => Some(Holiday::Labor),
        (10, 8..=14) => Some(Holiday::Columbus),
        _ => None,
    }
}

/// The holiday on a Thursday of that date.
fn thursday_holiday(month: u32, day: u32) -> Option<Holiday>
    ensures { result ≡ thursday_holiday month day }
{
    match (month, day) {
        (11, 22..=28) => Some(Holiday::Thanksgiving),
        _ => None,
    }
}

/// The holiday of a fixed date that falls on the day with that number.
fn fixed_on(number: u32) -> Option<Holiday>
    requires { number ≤ 1_000_000 }
    ensures { result ≡ fixed_on number }
{
    let (month, day) = date_of(number);
    fixed_holiday(month, day)
}

/// The holiday on its own day.
fn own_day(holiday: Option<Holiday>) -> Option<StatutoryHoliday>
    ensures { result ≡ own_day holiday }
{
    match holiday {
        Some(holiday) => Some(StatutoryHoliday {
            holiday,
            observed: false,
        }),
        None => None,
    }
}

/// The holiday on the day on which it is observed.
fn observed_day(holiday: Option<Holiday>) -> Option<StatutoryHoliday>
    ensures { result ≡ observed_day holiday }
{
    match holiday {
        Some(holiday) => Some(StatutoryHoliday {
            holiday,
            observed: true,
        }),
        None => None,
    }
}

/// The holiday of a Monday that is none of a fixed date: its own, or that of the Sunday before.
fn on_monday(own: Option<Holiday>, before: Option<Holiday>) -> Option<StatutoryHoliday>
    ensures { result ≡ on_monday own before }
{
    match own {
        Some(holiday) => own_day(Some(holiday)),
        None => observed_day(before),
    }
}

/// The holiday of a day that is none of a fixed date.
fn other_holiday(number: u32, weekday: u32) -> Option<StatutoryHoliday>
    requires low { 1 ≤ number }
    requires high { number ≤ 900_000 }
    ensures { result ≡ other_holiday number weekday }
{
    let (month, day) = date_of(number);
    match weekday {
        MONDAY => on_monday(monday_holiday(month, day), fixed_on(number - 1)),
        THURSDAY => own_day(thursday_holiday(month, day)),
        FRIDAY => observed_day(fixed_on(number + 1)),
        _ => None,
    }
}

/// The holiday of the day with that number and that weekday.
fn holiday_on(number: u32, weekday: u32) -> Option<StatutoryHoliday>
    requires low { 1 ≤ number }
    requires high { number ≤ 900_000 }
    ensures { result ≡ fixed_or (fixed_on number) (other_holiday number weekday) }
{
    match fixed_on(number) {
        Some(holiday) => own_day(Some(holiday)),
        None => other_holiday(number, weekday),
    }
}

/// Which holiday of statute the day is, if it is one (5 U.S.C. 6103(a), Fed. R. Civ. P.
/// 6(a)(6)(A)). A holiday of a fixed date that falls on a Saturday is observed on the Friday
/// before, one that falls on a Sunday on the Monday after. No day has two.
#[tactic(auto, unfolding(crate::specs::Statutory::statutory_holiday))]
pub fn statutory_holiday(day: Day) -> Option<StatutoryHoliday>
    ensures value { result ≡ statutory_holiday day }
    ensures means { (had : StatutoryHoliday) → (result ≡ Some had) ↔ IsStatutoryAs had day }
{
    holiday_on(day.epoch_day(), day.weekday())
}
