//! The steps of periods of hours.
ghost use Rattle.std.specs.Prelude.{◌≡◌, ◌+◌, ◌*◌, ◌≤◌, ◌++◌, ◌∷◌, OnOk, pos};
ghost use Rattle.std.specs.Int.{IsInRange};
ghost use Rattle.civil_time.specs.LocalTime.{seconds};
ghost use Rattle.court_days.specs.Court.{zone_of};
ghost use Rattle.court_days.specs.Hours.{same_time_on};
ghost use Rattle.court_reasons.specs.Causes.{hour_causes};
ghost use Rattle.court_reasons.specs.Steps.{passed, hours_on, from_last_hour, hours_back, hours_from, hours_away, steps_of_hours};
ghost use Rattle.court_days.specs.Limits.{first_entered_instant, last_entered_instant};

use crate::cause::hour_causes;
use crate::days::push_passed_back;
use crate::local::local_day;
use crate::step::{Reasons, Step};
use court_days::{
    Calendar, Court, Day, Direction, End, first_accessible, last_business, same_time,
    was_accessible,
};
use court_rules::HourPeriod;
use std::alloc::AllocError;

const SECONDS_PER_HOUR: i64 = 3600;

/// Adds the days from one up to another, by the time of the instant.
fn push_hours_passed(
    steps: &mut Reasons,
    court: &Court,
    calendar: &Calendar,
    direction: Direction,
    at: i64,
    from: Day,
    end: Day,
) -> Result<(), AllocError>
    requires at { IsInRange 915_000_000 4_134_100_000 (seconds at) }
    requires from { IsInRange 10_580 47_859 from }
    requires end { end ≤ 47_860 }
    ensures { OnOk result (steps.new ≡ steps.old
        ++ passed (hour_causes calendar.now (zone_of court.now) direction (seconds at)) from end) }
{
    let days = end.epoch_day().saturating_sub(from.epoch_day());
    for n in 0..days {
        let day = from.plus(n);
        steps.push(Step::Passed(day, hour_causes(court, calendar, direction, at, day)))?;
    }
    Ok(())
}

/// Adds the way from a day on to the same time on the first accessible business day.
fn push_hours_on(
    steps: &mut Reasons,
    court: &Court,
    calendar: &Calendar,
    direction: Direction,
    at: i64,
    from: Day,
) -> Result<(), AllocError>
    requires at { IsInRange 915_000_000 4_134_100_000 (seconds at) }
    requires from { IsInRange 10_580 47_850 from }
    ensures { OnOk result (steps.new ≡ steps.old
        ++ hours_on calendar.now (zone_of court.now) direction (seconds at) from) }
{
    let day = first_accessible(court, calendar, direction, at, from);
    push_hours_passed(steps, court, calendar, direction, at, from, day)?;
    steps.push(Step::Ends(End::Moment(same_time(court, at, day))))?;
    Ok(())
}

/// Adds the time found backward, at which the office was inaccessible, and the way on from there.
fn push_hours_moved(
    steps: &mut Reasons,
    court: &Court,
    calendar: &Calendar,
    at: i64,
    last: Day,
) -> Result<(), AllocError>
    requires at { IsInRange 915_000_000 4_134_100_000 (seconds at) }
    requires last { IsInRange 10_580 47_849 last }
    ensures { OnOk result (steps.new ≡ steps.old
        ++ Step.Moved (End.Moment (pos (same_time_on (zone_of court.now) (seconds at) last)))
        ∷ hours_on calendar.now (zone_of court.now) Direction.Backward (seconds at) (last + 1)) }
{
    steps.push(Step::Moved(End::Moment(same_time(court, at, last))))?;
    push_hours_on(
        steps,
        court,
        calendar,
        Direction::Backward,
        at,
        last.plus(1),
    )
}

/// Adds the end on the last business day, or the way on from there where the office was
/// inaccessible.
fn push_from_last_hour(
    steps: &mut Reasons,
    court: &Court,
    calendar: &Calendar,
    at: i64,
    last: Day,
) -> Result<(), AllocError>
    requires at { IsInRange 915_000_000 4_134_100_000 (seconds at) }
    requires last { IsInRange 10_580 47_849 last }
    ensures { OnOk result (steps.new ≡ steps.old
        ++ from_last_hour calendar.now (zone_of court.now) (seconds at) last) }
{
    let end = same_time(court, at, last);
    if was_accessible(court, calendar, end) {
        steps.push(Step::Ends(End::Moment(end)))?;
        return Ok(());
    }
    push_hours_moved(steps, court, calendar, at, last)
}

/// Adds the way back from a day to the last business day, and from there.
fn push_hours_back(
    steps: &mut Reasons,
    court: &Court,
    calendar: &Calendar,
    at: i64,
    from: Day,
) -> Result<(), AllocError>
    requires at { IsInRange 915_000_000 4_134_100_000 (seconds at) }
    requires from { IsInRange 10_588 47_849 from }
    ensures { OnOk result (steps.new ≡ steps.old
        ++ hours_back calendar.now (zone_of court.now) (seconds at) from) }
{
    let last = last_business(calendar, from);
    push_passed_back(steps, calendar, from, last)?;
    push_from_last_hour(steps, court, calendar, at, last)
}

/// Adds the way from the moment to which hours are counted.
fn push_hours_from(
    steps: &mut Reasons,
    court: &Court,
    calendar: &Calendar,
    direction: Direction,
    at: i64,
) -> Result<(), AllocError>
    requires { IsInRange 915_000_000 4_134_100_000 (seconds at) }
    ensures { OnOk result (steps.new ≡ steps.old
        ++ hours_from calendar.now (zone_of court.now) direction (seconds at)) }
{
    let from = local_day(court, at);
    match direction {
        Direction::Forward => push_hours_on(steps, court, calendar, Direction::Forward, at, from),
        Direction::Backward => push_hours_back(steps, court, calendar, at, from),
    }
}

/// The moment to which hours are counted.
fn hours_away(direction: Direction, at: i64, hours: u32) -> i64
    requires at { IsInRange first_entered_instant last_entered_instant (seconds at) }
    requires hours { hours ≤ 8760 }
    ensures value { result ≡ pos (hours_away direction (seconds at) hours) }
    ensures near { IsInRange 915_000_000 4_134_100_000 (seconds result) }
{
    let length = SECONDS_PER_HOUR * i64::from(hours);
    match direction {
        Direction::Forward => at + length,
        Direction::Backward => at - length,
    }
}

/// Adds the steps of a period of hours.
pub(crate) fn push_hours(
    steps: &mut Reasons,
    court: &Court,
    calendar: &Calendar,
    hours: &HourPeriod,
) -> Result<(), AllocError>
    requires at { IsInRange first_entered_instant last_entered_instant (seconds hours.now.at) }
    requires count { hours.now.hours ≤ 8760 }
    ensures { OnOk result (steps.new ≡ steps.old ++ steps_of_hours calendar.now (zone_of court.now) hours.now) }
{
    let at = hours_away(hours.direction, hours.at, hours.hours);
    steps.push(Step::Hours(*hours))?;
    steps.push(Step::Counted(End::Moment(at)))?;
    push_hours_from(steps, court, calendar, hours.direction, at)
}
