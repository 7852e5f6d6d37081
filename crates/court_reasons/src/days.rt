//! The steps of periods of days and of months.
ghost use Rattle.std.specs.Prelude.{◌≡◌, ◌+◌, ◌≤◌, ◌++◌, ◌∷◌, OnOk};
ghost use Rattle.std.specs.Int.{IsInRange};
ghost use Rattle.court_days.specs.Civil.{IsEnteredDay};
ghost use Rattle.court_rules.specs.Rules.{IsPeriod};
ghost use Rattle.court_days.specs.Ends.{months_away};
ghost use Rattle.court_days.specs.Legal.{is_open};
ghost use Rattle.court_days.specs.Period.{days_away, IsInReach};
ghost use Rattle.court_rules.specs.Ends.{end_of_period};
ghost use Rattle.court_reasons.specs.Causes.{business_causes, day_causes};
ghost use Rattle.court_reasons.specs.Steps.{passed, passed_back, way_on, from_last, way_from, counted_to, way, three_more, steps_of_days};

use crate::cause::{business_causes, day_causes};
use crate::step::{Reasons, Step};
use civil_time::{months_earlier, months_later};
use court_days::{
    Calendar, Day, DayKind, Direction, End, count_days, count_months, first_open, last_business,
};
use court_rules::{DayPeriod, Period};
use std::alloc::AllocError;

/// How many days service adds to a period (Fed. R. Civ. P. 6(d)).
const SERVICE_DAYS: u32 = 3;

/// Adds the days from one up to another.
fn push_passed(
    steps: &mut Reasons,
    calendar: &Calendar,
    direction: Direction,
    from: Day,
    end: Day,
) -> Result<(), AllocError>
    ensures { OnOk result (steps.new
        ≡ steps.old ++ passed (day_causes calendar.now direction) from end) }
{
    let days = end.epoch_day().saturating_sub(from.epoch_day());
    for n in 0..days {
        let day = from.plus(n);
        steps.push(Step::Passed(day, day_causes(calendar, direction, day)))?;
    }
    Ok(())
}

/// Adds the days from one back to, but not with, another.
pub(crate) fn push_passed_back(
    steps: &mut Reasons,
    calendar: &Calendar,
    from: Day,
    last: Day,
) -> Result<(), AllocError>
    ensures { OnOk result (steps.new
        ≡ steps.old ++ passed_back (business_causes calendar.now Direction.Backward) from last) }
{
    let days = from.epoch_day().saturating_sub(last.epoch_day());
    for n in 0..days {
        let day = from.minus(n);
        steps.push(Step::Passed(day, business_causes(calendar, Direction::Backward, day)))?;
    }
    Ok(())
}

/// Adds the way from a day on to the first open business day.
pub(crate) fn push_way_on(
    steps: &mut Reasons,
    calendar: &Calendar,
    direction: Direction,
    from: Day,
) -> Result<(), AllocError>
    requires { from ≤ 720_000 }
    ensures { OnOk result (steps.new ≡ steps.old ++ way_on calendar.now direction from) }
{
    let end = first_open(calendar, direction, from);
    push_passed(steps, calendar, direction, from, end)?;
    steps.push(Step::Ends(End::LastDay(end)))?;
    Ok(())
}

/// Whether the clerk's office was open on the day.
#[tactic(auto, unfolding(court_days::specs::Legal::is_open))]
fn is_open(calendar: &Calendar, day: Day) -> bool
    ensures { result ≡ is_open calendar.now day }
{
    !calendar.holds_day(DayKind::Closed, day)
}

/// Adds the last business day, on which the office was closed, and the way on from there.
fn push_moved(steps: &mut Reasons, calendar: &Calendar, last: Day) -> Result<(), AllocError>
    requires { last ≤ 55_000 }
    ensures { OnOk result (steps.new ≡ steps.old
        ++ Step.Moved (End.LastDay last) ∷ way_on calendar.now Direction.Backward (last + 1)) }
{
    steps.push(Step::Moved(End::LastDay(last)))?;
    push_way_on(steps, calendar, Direction::Backward, last.plus(1))
}

/// Adds the end on the last business day, or the way on from there where the office was closed.
fn push_from_last(steps: &mut Reasons, calendar: &Calendar, last: Day) -> Result<(), AllocError>
    requires { last ≤ 55_000 }
    ensures { OnOk result (steps.new ≡ steps.old ++ from_last calendar.now last) }
{
    if is_open(calendar, last) {
        steps.push(Step::Ends(End::LastDay(last)))?;
        return Ok(());
    }
    push_moved(steps, calendar, last)
}

/// Adds the way from the day to which a period is counted.
fn push_way_from(
    steps: &mut Reasons,
    calendar: &Calendar,
    direction: Direction,
    from: Day,
) -> Result<(), AllocError>
    requires { IsInReach direction from }
    ensures { OnOk result (steps.new ≡ steps.old ++ way_from calendar.now direction from) }
{
    match direction {
        Direction::Forward => push_way_on(steps, calendar, Direction::Forward, from),
        Direction::Backward => {
            let last = last_business(calendar, from);
            push_passed_back(steps, calendar, from, last)?;
            push_from_last(steps, calendar, last)
        }
    }
}

/// Adds the day to which a period is counted, and the way from there.
pub(crate) fn push_way(
    steps: &mut Reasons,
    calendar: &Calendar,
    direction: Direction,
    from: Day,
) -> Result<(), AllocError>
    requires { IsInReach direction from }
    ensures { OnOk result (steps.new ≡ steps.old ++ way calendar.now direction from) }
{
    steps.push(Step::Counted(End::LastDay(from)))?;
    push_way_from(steps, calendar, direction, from)
}

/// The day to which a period of days is counted.
fn days_away(direction: Direction, trigger: Day, count: u32) -> Day
    requires trigger { IsEnteredDay trigger }
    requires count { count ≤ 3650 }
    ensures value { result ≡ days_away direction trigger count }
    ensures reach { IsInReach direction result }
{
    match direction {
        Direction::Forward => trigger.plus(count),
        Direction::Backward => trigger.minus(count),
    }
}

/// The day to which a period of months is counted.
fn months_away(direction: Direction, trigger: Day, months: u32) -> Day
    requires trigger { IsEnteredDay trigger }
    requires months { months ≤ 120 }
    ensures value { result ≡ months_away direction trigger months }
    ensures reach { IsInReach direction result }
{
    match direction {
        Direction::Forward => months_later(trigger, months),
        Direction::Backward => months_earlier(trigger, months),
    }
}

/// The day to which a period is counted.
fn counted_to(direction: Direction, trigger: Day, period: Period) -> Day
    requires trigger { IsEnteredDay trigger }
    requires period { IsPeriod period }
    ensures value { result ≡ counted_to direction trigger period }
    ensures reach { IsInReach direction result }
{
    match period {
        Period::Days(count) => days_away(direction, trigger, count),
        Period::Months(count) => months_away(direction, trigger, count),
    }
}

/// Adds the three days that service adds, if it does, and the way from there.
pub(crate) fn push_three_more(
    steps: &mut Reasons,
    calendar: &Calendar,
    three_days: bool,
    end: Day,
) -> Result<(), AllocError>
    requires { end ≤ 705_282 }
    ensures { OnOk result (steps.new ≡ steps.old ++ three_more calendar.now three_days end) }
{
    if !three_days {
        return Ok(());
    }
    let day = end.plus(SERVICE_DAYS);
    steps.push(Step::ThreeAdded(day))?;
    push_way_on(steps, calendar, Direction::Forward, day)
}

/// The end of a period before service adds days to it.
fn end_of_period(calendar: &Calendar, direction: Direction, trigger: Day, period: Period) -> Day
    requires trigger { IsEnteredDay trigger }
    requires period { IsPeriod period }
    ensures value { result ≡ end_of_period calendar.now direction trigger period }
    ensures near { result ≤ 51_208 }
{
    match period {
        Period::Days(count) => count_days(calendar, direction, trigger, count),
        Period::Months(count) => count_months(calendar, direction, trigger, count),
    }
}

/// Adds the steps of a period of days or months.
pub(crate) fn push_days(
    steps: &mut Reasons,
    calendar: &Calendar,
    days: &DayPeriod,
) -> Result<(), AllocError>
    requires trigger { IsEnteredDay days.now.trigger }
    requires period { IsPeriod days.now.period }
    ensures { OnOk result (steps.new ≡ steps.old ++ steps_of_days calendar.now days.now) }
{
    let from = counted_to(days.direction, days.trigger, days.period);
    let end = end_of_period(calendar, days.direction, days.trigger, days.period);
    steps.push(Step::Period(*days))?;
    push_way(steps, calendar, days.direction, from)?;
    push_three_more(steps, calendar, days.three_days, end)
}
