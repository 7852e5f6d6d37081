//! Days by their numbers, and their dates.
ghost use Rattle.std.specs.Prelude.{◌≡◌, ℕ, ◌+◌, ◌-◌, ◌≤◌, ◌<◌, ◌↔◌, pos, IsTrue, IsSome, IfSome, IfNone};
ghost use Rattle.civil_time.specs.Civil.{IsDayNumber, HasYmd, weekday};
ghost use Rattle.jiff.specs.Words.{epoch_day, IsBetween};

use jiff::ToSpan;
use jiff::civil::Date;
use std::marker::Model;

/// 1980-01-01, the first `Day`.
const FIRST_DAY: i32 = 3652;

/// 3999-12-31, the last `Day`.
const LAST_DAY: i32 = 741_441;

/// How many days lie between -9999-01-01, the first date of jiff, and 1970-01-01.
const DAYS_BEFORE_1970: i64 = 4_371_587;

/// A day from 1980-01-01 to 3999-12-31, seen as its number: the days since 1970-01-01.
#[derive(Clone, Copy, PartialEq, Eq, PartialOrd, Ord)]
pub struct Day {
    number: u32,
}

impl Model for Day {
    ghost Value = { ℕ };

    ghost view = { λ d. d.number };

    ghost invariant = { λ d. IsDayNumber d.number };

    ghost inverse = { λ n. record { number = n } };
}

/// The date of the day with that number, which need not be a `Day`.
fn date_of(number: u32) -> Date
    requires { number ≤ 1_000_000 }
    ensures { epoch_day result ≡ pos number }
{
    Date::constant(-9999, 1, 1) + (number as i64 + DAYS_BEFORE_1970).days()
}

/// The year, the month (1 to 12) and the day of the month (1 to 31) of the day with that number. It
/// may lie just beyond the limits of `Day`.
pub fn ymd_of(number: u32) -> (i32, u32, u32)
    requires { number ≤ 1_000_000 }
    ensures { HasYmd number result.0 result.1 result.2 }
{
    let date = date_of(number);
    (
        i32::from(date.year()),
        date.month() as u32,
        date.day() as u32,
    )
}

impl Day {
    /// The day with that number, the days since 1970-01-01. `None`: it does not lie from 1980-01-01
    /// (3652) to 3999-12-31 (741,441).
    pub fn new(number: i32) -> Option<Day>
        ensures valid { IsSome result ↔ IsBetween (pos 3652) (pos 741_441) number }
        ensures value { IfSome result (λ d. pos d ≡ number) }
    {
        if (FIRST_DAY..=LAST_DAY).contains(&number) {
            Some(Day {
                number: number as u32,
            })
        } else {
            None
        }
    }

    /// The days since 1970-01-01.
    pub fn number(self) -> i32
        ensures { result ≡ pos self }
    {
        self.number as i32
    }

    /// The days since 1970-01-01, without a sign: 3652 to 741,441.
    pub fn epoch_day(self) -> u32
        ensures value { result ≡ self }
        ensures limits { IsDayNumber self }
    {
        self.number
    }

    /// The day that many days later, which must be at most 3999-12-31.
    pub fn plus(self, days: u32) -> Day
        requires { self + days ≤ 741_441 }
        ensures { result ≡ self + days }
    {
        Day {
            number: self.number + days,
        }
    }

    /// The day that many days earlier, which must be at least 1980-01-01.
    pub fn minus(self, days: u32) -> Day
        requires { 3652 + days ≤ self }
        ensures { result ≡ self - days }
    {
        Day {
            number: self.number - days,
        }
    }

    /// The day of that date. `None`: there is no such date, or its day lies outside the limits.
    pub fn from_ymd(year: i32, month: u32, day: u32) -> Option<Day>
        ensures value { IfSome result (λ d. HasYmd d year month day) }
        ensures limits { IfSome result (λ d. IsDayNumber d) }
        ensures none { IfNone result ((d : ℕ) → IsDayNumber d → ¬ (HasYmd d year month day)) }
    {
        if year < -9999 || year > 9999 || month > 12 || day > 31 {
            return None;
        }
        match Date::new(year as i16, month as i8, day as i8) {
            Ok(date) => Day::new(date.to_plain().to_unix_epoch_day()),
            Err(_) => None,
        }
    }

    /// The year (1980 to 3999), the month (1 to 12) and the day of the month (1 to 31).
    pub fn ymd(self) -> (i32, u32, u32)
        ensures date { HasYmd self result.0 result.1 result.2 }
        ensures years { IsBetween (pos 1980) (pos 3999) result.0 }
    {
        ymd_of(self.number)
    }

    /// How many days after Sunday: 0 for a Sunday, 6 for a Saturday.
    pub fn weekday(self) -> u32
        ensures value { result ≡ weekday self }
        ensures limits { IsDayNumber self }
    {
        // 1970-01-01 was a Thursday.
        (self.number + 4) % 7
    }
}
