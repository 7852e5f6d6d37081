//! The ends of periods of hours (Fed. R. Civ. P. 6(a)(2), 6(a)(3)).
ghost use Rattle.std.specs.Prelude.{◌≡◌, ℕ, ◌+◌, ◌-◌, ◌*◌, ◌≤◌, ◌<◌, ◌↔◌, max, pos, IsTrue};
ghost use Rattle.std.specs.Int.{IsInRange};
ghost use Rattle.civil_time.specs.LocalTime.{local_day, seconds, IsInstant, IsMoment};
ghost use Rattle.civil_time.specs.Zone.{IsZone};
ghost use Rattle.court_days.specs.Calendar.{IsWithinLimits};
ghost use Rattle.court_days.specs.Civil.{IsEnteredDay};
ghost use Rattle.court_days.specs.Court.{zone_of};
ghost use Rattle.court_days.specs.HourEnds.{is_accessible, first_accessible, end_of_hours};
ghost use Rattle.court_days.specs.Hours.{IsAccessible, same_time_on, IsAccessibleDay, RunsForward, RunsBackward, IsEndOfHours, IsNearEntered};
ghost use Rattle.court_days.specs.Period.{IsFirstFrom};
ghost use Rattle.court_days.specs.Limits.{first_entered_instant, last_entered_instant};

use crate::calendar::{Calendar, DayKind, Direction};
use crate::court::Court;
use crate::legal::business;
use crate::period::last_business;
use civil_time::{Day, Zone};

const SECONDS_PER_DAY: u64 = 86_400;

const SECONDS_PER_HOUR: u64 = 3600;

/// The local day at the instant.
fn local_day(zone: &Zone, instant: u64) -> Day
    requires { IsInstant instant }
    ensures value { result ≡ local_day zone.now instant }
    ensures near { (86_400 * result ≤ instant + 46_800) × (instant ≤ 86_400 * result + 129_600) }
    ensures zone { IsZone zone.now }
{
    let day = zone.local_time(instant) / SECONDS_PER_DAY;
    Day::new(day as i32).unwrap()
}

/// Whether the office was accessible throughout the hour up to the instant.
fn is_accessible(calendar: &Calendar, zone: &Zone, end: u64) -> bool
    requires low { IsInstant (end - 3600) }
    requires high { IsInstant end }
    ensures means { IsTrue result ↔ IsAccessible calendar.now zone.now end }
    ensures limits { IsWithinLimits calendar.now }
    ensures zone { IsZone zone.now }
{
    let start = end - SECONDS_PER_HOUR;
    let is_met = calendar.is_closed_between(start, end);
    if calendar.holds_day(DayKind::Closed, local_day(zone, start)) {
        return false;
    }
    if calendar.holds_day(DayKind::Closed, local_day(zone, end - 1)) {
        return false;
    }
    !is_met
}

/// The same time on a day: the instant itself on its own day, and else the instant of the same local
/// time (Fed. R. Civ. P. 6(a)(2)(C)).
#[tactic(auto, unfolding(crate::specs::Hours::same_time_on))]
fn same_time_on(zone: &Zone, instant: u64, day: Day) -> u64
    requires instant { IsInstant instant }
    requires day { IsInRange 3660 741_000 day }
    ensures value { result ≡ same_time_on zone.now instant day }
    ensures near { (86_400 * day ≤ result + 46_800) × (result ≤ 86_400 * day + 129_600) }
{
    let local = zone.local_time(instant);
    let number = u64::from(day.epoch_day());
    if number == local / SECONDS_PER_DAY {
        return instant;
    }
    zone.instant_of(number * SECONDS_PER_DAY + local % SECONDS_PER_DAY)
}

/// Whether the day is a business day with the office accessible in the hour before that time.
fn is_accessible_day(
    calendar: &Calendar,
    zone: &Zone,
    direction: Direction,
    instant: u64,
    day: Day,
) -> bool
    requires instant { IsInstant instant }
    requires day { IsInRange 3660 741_000 day }
    ensures means { IsTrue result ↔ IsAccessibleDay calendar.now zone.now direction instant day }
    ensures limits { IsWithinLimits calendar.now }
    ensures zone { IsZone zone.now }
{
    let is_accessible = is_accessible(calendar, zone, same_time_on(zone, instant, day));
    business(calendar, direction, day) && is_accessible
}

/// The first such day from `start` on.
fn first_accessible_day(
    calendar: &Calendar,
    zone: &Zone,
    direction: Direction,
    instant: u64,
    start: Day,
) -> Day
    requires instant { IsInstant instant }
    requires start { IsInRange 3660 690_000 start }
    ensures first { IsFirstFrom (IsAccessibleDay calendar.now zone.now direction instant) start result }
    ensures near { result ≤ max start 47_484 + 7 }
    ensures limits { IsWithinLimits calendar.now }
    ensures zone { IsZone zone.now }
{
    let mut day = start;
    'days: while !is_accessible_day(calendar, zone, direction, instant, day) {
        day = day.plus(1);
    }
    day
}

/// The same time on the first accessible business day from `start` on.
fn forward_end(
    calendar: &Calendar,
    zone: &Zone,
    direction: Direction,
    instant: u64,
    start: Day,
) -> u64
    requires instant { IsInstant instant }
    requires start { IsInRange 3660 690_000 start }
    ensures means { RunsForward calendar.now zone.now direction instant start result }
    ensures limits { IsWithinLimits calendar.now }
    ensures zone { IsZone zone.now }
{
    let day = first_accessible_day(calendar, zone, direction, instant, start);
    same_time_on(zone, instant, day)
}

/// The same time on the last business day up to the instant; where the office was not accessible
/// then, on the first accessible business day after it.
fn backward_end(calendar: &Calendar, zone: &Zone, instant: u64) -> u64
    requires { IsInRange 900_000_000 4_150_000_000 instant }
    ensures means { RunsBackward calendar.now zone.now instant result }
    ensures limits { IsWithinLimits calendar.now }
    ensures zone { IsZone zone.now }
{
    let last = last_business(calendar, local_day(zone, instant));
    let end = same_time_on(zone, instant, last);
    if is_accessible(calendar, zone, end) {
        return end;
    }
    forward_end(calendar, zone, Direction::Backward, instant, last.plus(1))
}

/// The end of a period of hours.
fn end_of_hours(
    calendar: &Calendar,
    zone: &Zone,
    direction: Direction,
    start: u64,
    hours: u32,
) -> u64
    requires start { IsInRange first_entered_instant last_entered_instant start }
    requires hours { hours ≤ 8760 }
    ensures means { IsEndOfHours calendar.now zone.now direction start hours result }
    ensures limits { IsWithinLimits calendar.now }
    ensures zone { IsZone zone.now }
{
    let length = SECONDS_PER_HOUR * u64::from(hours);
    match direction {
        Direction::Forward => {
            let instant = start + length;
            let day = local_day(zone, instant);
            forward_end(calendar, zone, Direction::Forward, instant, day)
        }
        Direction::Backward => backward_end(calendar, zone, start - length),
    }
}

/// The end of a period of `hours` hours (at most 8,760) from the instant, both in seconds since
/// 1970-01-01T00:00Z. The period begins at once and counts every hour. It may not end on a Saturday,
/// a Sunday or a legal holiday, or where the clerk's office was not accessible throughout the last
/// hour. Where it would, it runs on to the same time on the next day that is none of these, with the
/// office accessible in the hour before (Fed. R. Civ. P. 6(a)(2), 6(a)(3)(B), 6(a)(5)).
///
/// The local day at the instant is one of 2000-01-01 to 2099-12-31. Where the office was not
/// accessible at the time found backward, the end is at the same time on the first such day after it.
pub fn count_hours(
    court: &Court,
    calendar: &Calendar,
    direction: Direction,
    at: i64,
    hours: u32,
) -> i64
    requires start { IsEnteredDay (local_day (zone_of court.now) (seconds at)) }
    requires hours { hours ≤ 8760 }
    ensures value { result ≡ pos (end_of_hours calendar.now (zone_of court.now) direction (seconds at) hours) }
    ensures means { IsEndOfHours calendar.now (zone_of court.now) direction (seconds at) hours (seconds result) }
    ensures near { IsNearEntered (seconds result) }
{
    end_of_hours(calendar, court.zone(), direction, at as u64, hours) as i64
}

/// Whether the clerk's office was accessible throughout the hour up to the instant (Fed. R. Civ. P.
/// 6(a)(3)(B)).
pub fn was_accessible(court: &Court, calendar: &Calendar, end: i64) -> bool
    requires { IsNearEntered (seconds end) }
    ensures value { result ≡ is_accessible calendar.now (zone_of court.now) (seconds end) }
    ensures means { IsTrue result ↔ IsAccessible calendar.now (zone_of court.now) (seconds end) }
{
    is_accessible(calendar, court.zone(), end as u64)
}

/// The same time on a day as that of the instant, by the court's clock (Fed. R. Civ. P. 6(a)(2)(C)).
pub fn same_time(court: &Court, at: i64, day: Day) -> i64
    requires instant { IsMoment at }
    requires day { IsInRange 10_000 50_000 day }
    ensures value { result ≡ pos (same_time_on (zone_of court.now) (seconds at) day) }
    ensures near { (86_400 * day ≤ seconds result + 46_800) × (seconds result ≤ 86_400 * day + 129_600) }
{
    same_time_on(court.zone(), at as u64, day) as i64
}

/// The first business day from `start` on with the office accessible in the hour before the time of the
/// instant.
pub fn first_accessible(
    court: &Court,
    calendar: &Calendar,
    direction: Direction,
    at: i64,
    start: Day,
) -> Day
    requires instant { IsMoment at }
    requires start { IsInRange 3660 690_000 start }
    ensures value { result ≡ first_accessible calendar.now (zone_of court.now) direction (seconds at) start }
    ensures reached { start ≤ result }
    ensures near { result ≤ max start 47_484 + 7 }
{
    first_accessible_day(calendar, court.zone(), direction, at as u64, start)
}
