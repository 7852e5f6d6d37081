//! When a filing is in time (Fed. R. Civ. P. 6(a)(4)).
ghost use Rattle.std.specs.Prelude.{◌≡◌, ◌↔◌, ◌<◌, ◌≤◌, ◌⊎◌, min, IsTrue};
ghost use Rattle.civil_time.specs.LocalTime.{IsMoment};
ghost use Rattle.court_days.specs.Timely.{closing, IsTimely, is_timely};

use crate::calendar::{Calendar, short_close};
use crate::court::Court;
use civil_time::Day;

/// When a period ends: with a day, or at an instant, in seconds since 1970-01-01T00:00Z.
#[derive(Clone, Copy)]
pub enum End {
    LastDay(Day),
    Moment(i64),
}

/// How a paper is filed: electronically, or at the clerk's office.
#[derive(Clone, Copy, PartialEq, Eq)]
pub enum Way {
    Electronic,
    Office,
}

/// Whether a day and a minute, compared in this order, are at most the last day and the closing minute.
fn is_by(at: (Day, u32), last: Day, close_minute: u32) -> bool
    ensures { IsTrue result ↔ ((at.0 < last) ⊎ ((at.0 ≡ last) × (at.1 ≤ close_minute))) }
{
    let (day, minute) = (at.0.epoch_day(), at.1);
    day < last.epoch_day() || (day == last.epoch_day() && minute <= close_minute)
}

/// The lesser of two numbers.
fn lesser(one: u32, other: u32) -> u32
    ensures { result ≡ min one other }
{
    if one < other { one } else { other }
}

/// The minute of the day, after 00:00, at which the clerk's office is scheduled to close on the day: the
/// court's, or an earlier one on a short day.
pub fn closing(court: &Court, calendar: &Calendar, day: Day) -> u32
    ensures value { result ≡ closing court.now calendar.now day }
    ensures limit { result < 1440 }
    ensures no_later { result ≤ court.now.close_minute }
{
    let close_minute = court.close_minute();
    match short_close(calendar, day) {
        Some(minute) => lesser(close_minute, minute),
        None => close_minute,
    }
}

/// Whether a filing at the instant is in time on the last day.
fn is_by_end_of(court: &Court, calendar: &Calendar, last: Day, at: i64, way: Way) -> bool
    requires { IsMoment at }
    ensures { IsTrue result ↔ IsTimely court.now calendar.now (End.LastDay last) at way }
{
    let (day, minute) = court.local(at);
    match way {
        Way::Electronic => day.epoch_day() <= last.epoch_day(),
        Way::Office => is_by((day, minute), last, closing(court, calendar, last)),
    }
}

/// Whether a filing at the instant is in time. For electronic filing a last day ends at midnight in
/// the court's zone. For other filing it ends at the minute at which the clerk's office is scheduled
/// to close on that day, which is still in time (Fed. R. Civ. P. 6(a)(4)). The instant is one from
/// 1980-01-03T00:00Z to 3999-12-29T00:00Z.
pub fn timely(court: &Court, calendar: &Calendar, end: End, at: i64, way: Way) -> bool
    requires { IsMoment at }
    ensures value { result ≡ is_timely court.now calendar.now end at way }
    ensures means { IsTrue result ↔ IsTimely court.now calendar.now end at way }
{
    match end {
        End::LastDay(last) => is_by_end_of(court, calendar, last, at, way),
        End::Moment(moment) => at <= moment,
    }
}
