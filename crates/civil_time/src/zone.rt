//! Zones: how far their clocks are from Greenwich, and when they keep daylight saving time.
ghost use Rattle.std.specs.Prelude.{◌≡◌, ℕ, ◌≤◌, pos, unsigned_abs};
ghost use Rattle.jiff_core.specs.Calendar.{IsBetween};
ghost use Rattle.civil_time.specs.Civil.{year_of};

use crate::day::ymd_of;
use jiff_core::civil::{Date, Weekday};
use std::marker::Model;

/// A date of each year: a weekday of a month, by its number in the month.
#[derive(Clone, Copy)]
pub struct ChangeDate {
    /// 2, February, to 11, November.
    pub month: u8,
    /// 1 to 4, or 5 for the last.
    pub week: u8,
    /// 0, Sunday, to 6.
    pub weekday: u8,
}

/// Summer time (daylight saving time), one hour ahead of standard time: it begins at 02:00 standard
/// time on the first date of each year and ends at 02:00 summer time on the second.
#[derive(Clone, Copy)]
pub struct SummerTime {
    pub begins: ChangeDate,
    pub ends: ChangeDate,
}

/// A zone of up to 12 whole hours west or east of Greenwich, with or without summer time.
#[derive(Clone, Copy)]
pub struct Zone {
    pub(crate) hours_west: i8,
    pub(crate) summer: Option<SummerTime>,
}

impl Model for Zone {
    ghost use Rattle.civil_time.specs.Zone.{ZoneRules, IsZone};

    ghost Value = { ZoneRules };

    ghost view = { λ zone. record { hours_west = zone.hours_west; summer = zone.summer } };

    ghost invariant = { λ zone. IsZone (record { hours_west = zone.hours_west; summer = zone.summer }) };

    ghost inverse = { λ rules. record { hours_west = rules.hours_west; summer = rules.summer } };
}

/// The year of a day from 1970-01-01 to 3999-12-31.
pub(crate) fn year_of(day: u32) -> i16
    requires { day ≤ 741_441 }
    ensures value { result ≡ pos (year_of day) }
    ensures limits { IsBetween (pos 1970) (pos 3999) result }
{
    ymd_of(day).0 as i16
}

impl ChangeDate {
    ghost use Rattle.civil_time.specs.Zone.{IsChangeDate};
    ghost use Rattle.civil_time.specs.LocalTime.{change_day};

    /// The number of the day of this date in a year.
    pub(crate) fn day_in(self, year: i16) -> u32
        requires date { IsChangeDate self }
        requires year { IsBetween (pos 1970) (pos 3999) year }
        ensures value { result ≡ change_day self (unsigned_abs year) }
        ensures limit { result ≤ 2_932_896 }
    {
        let first = Date::constrain(year, self.month, 1);
        let weekday = Weekday::from_sunday_zero_offset(self.weekday as i8).unwrap();
        let nth = if self.week == 5 { -1 } else { self.week as i8 };
        let date = first.nth_weekday_of_month(nth, weekday).unwrap();
        date.to_unix_epoch_day() as u32
    }
}
