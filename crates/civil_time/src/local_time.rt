//! Local time: what the clocks of a zone show at an instant, and back.
ghost use Rattle.std.specs.Prelude.{◌≡◌, ℕ, ◌+◌, ◌-◌, ◌*◌, ◌/◌, ◌^◌, ◌≤◌, ◌<◌, Some, pos, negsuc, ◌+ℤ◌, ◌*ℤ◌};
ghost use Rattle.jiff_core.specs.Calendar.{IsBetween};
ghost use Rattle.civil_time.specs.LocalTime.{is_between};

use crate::day::Day;
use crate::zone::{SummerTime, Zone, year_of};

pub(crate) const SECONDS_PER_DAY: u64 = 86_400;

pub(crate) const SECONDS_PER_HOUR: u64 = 3600;

/// Whether the time lies in the part of its year that has one beginning and one end.
fn is_between(begins: u64, ends: u64, time: u64) -> bool
    ensures { result ≡ is_between begins ends time }
{
    if begins < ends {
        begins <= time && time < ends
    } else {
        !(ends <= time && time < begins)
    }
}

impl SummerTime {
    ghost use Rattle.civil_time.specs.Zone.{IsSummerTime};
    ghost use Rattle.civil_time.specs.LocalTime.{is_summer};

    /// Whether it is summer time when standard time is this.
    fn is_summer(&self, standard: u64) -> bool
        requires dates { IsSummerTime self.now }
        requires limit { standard < 64_060_588_800 }
        ensures { result ≡ is_summer (Some self.now) standard }
    {
        let year = year_of((standard / SECONDS_PER_DAY) as u32);
        let begins = u64::from(self.begins.day_in(year)) * SECONDS_PER_DAY + 2 * SECONDS_PER_HOUR;
        let ends = u64::from(self.ends.day_in(year)) * SECONDS_PER_DAY + SECONDS_PER_HOUR;
        is_between(begins, ends, standard)
    }
}

impl Zone {
    ghost use Rattle.civil_time.specs.Zone.{IsZone};
    ghost use Rattle.civil_time.specs.LocalTime.{is_summer, shown_at, standard_time, offset_in_force, local_time, local_day, local_minute, instant_by_standard, instant_of, IsInstantOf, IsInstant, IsLocalTime, IsMoment, seconds, IsFirstInFold};

    /// What the clock would show at the instant if it were never put forward.
    fn standard_time(&self, instant: u64) -> u64
        requires low { 43_200 ≤ instant }
        requires high { instant < 2 ^ 40 }
        ensures value { result ≡ standard_time self.now instant }
        ensures near { (result ≤ instant + 43_200) × (instant ≤ result + 43_200) }
    {
        (instant as i64 - 3600 * i64::from(self.hours_west)) as u64
    }

    /// Whether it is summer time when standard time is this.
    fn is_summer(&self, standard: u64) -> bool
        requires { standard < 64_060_588_800 }
        ensures value { result ≡ is_summer self.now.summer standard }
        ensures zone { IsZone self.now }
    {
        match &self.summer {
            Some(summer) => summer.is_summer(standard),
            None => false,
        }
    }

    /// What the clock shows when standard time is this.
    fn shown_at(&self, standard: u64) -> u64
        requires { standard < 64_060_588_800 }
        ensures value { result ≡ shown_at self.now standard }
        ensures near { (standard ≤ result) × (result ≤ standard + 3600) }
        ensures zone { IsZone self.now }
    {
        if self.is_summer(standard) {
            standard + SECONDS_PER_HOUR
        } else {
            standard
        }
    }

    /// The instant of a local time by standard time.
    fn instant_by_standard(&self, local: u64) -> u64
        requires low { 43_200 ≤ local }
        requires high { local < 2 ^ 40 }
        ensures value { result ≡ instant_by_standard self.now local }
        ensures near { (result ≤ local + 43_200) × (local ≤ result + 43_200) }
    {
        (local as i64 + 3600 * i64::from(self.hours_west)) as u64
    }

    /// By how many hours the clock is ahead of Greenwich at the instant: the offset in force.
    #[tactic(auto, unfolding(crate::specs::LocalTime::offset_in_force))]
    pub fn offset_in_force(&self, instant: u64) -> i64
        requires { IsInstant instant }
        ensures value { result ≡ offset_in_force self.now instant }
        ensures limits { IsBetween (negsuc 11) (pos 13) result }
        ensures zone { IsZone self.now }
    {
        let standard = self.standard_time(instant);
        i64::from(self.is_summer(standard)) - i64::from(self.hours_west)
    }

    /// What the clock shows at the instant, both in seconds since 1970-01-01T00:00.
    #[tactic(auto, unfolding(crate::specs::LocalTime::local_time))]
    pub fn local_time(&self, instant: u64) -> u64
        requires { IsInstant instant }
        ensures value { result ≡ local_time self.now instant }
        ensures near { (result ≤ instant + 46_800) × (instant ≤ result + 43_200) }
        ensures offset { pos result ≡ pos instant +ℤ pos 3600 *ℤ offset_in_force self.now instant }
        ensures zone { IsZone self.now }
    {
        (instant as i64 + 3600 * self.offset_in_force(instant)) as u64
    }

    /// The local day and the minute of that day, rounded down.
    pub fn local(&self, at: i64) -> (Day, u32)
        requires { IsMoment at }
        ensures day { result.0 ≡ local_day self.now (seconds at) }
        ensures minute { result.1 ≡ local_minute self.now (seconds at) }
        ensures limit { result.1 < 1440 }
        ensures zone { IsZone self.now }
    {
        let local = self.local_time(at as u64);
        let day = Day::new((local / SECONDS_PER_DAY) as i32).unwrap();
        (day, (local % SECONDS_PER_DAY / 60) as u32)
    }

    /// The instant of a local time, both in seconds since 1970-01-01T00:00: the earlier of two in a
    /// fold, and the one by standard time in a gap. So "the same time" of another day in Fed. R.
    /// Civ. P. 6(a)(2)(C) is the instant of the same local time on that day.
    pub fn instant_of(&self, local: u64) -> u64
        requires { IsLocalTime local }
        ensures value { result ≡ instant_of self.now local }
        ensures law { IsInstantOf self.now local result }
        ensures fold { (first : ℕ) → IsFirstInFold self.now local first → result ≡ first }
        ensures near { (result ≤ local + 43_200) × (local ≤ result + 46_800) }
        ensures zone { IsZone self.now }
    {
        let before = local - SECONDS_PER_HOUR;
        if self.shown_at(before) == local {
            self.instant_by_standard(before)
        } else {
            self.instant_by_standard(local)
        }
    }
}
