//! The steps by which the standing of a deadline is found.
ghost use Rattle.std.specs.Prelude.{◌≡◌, ◌+◌, ◌≤◌, ◌++◌, true, IfOk, OnOk};
ghost use Rattle.court_days.specs.Court.{zone_of};
ghost use Rattle.court_rules.specs.Acts.{is_start, is_within};
ghost use Rattle.court_rules.specs.Standings.{last_day, begins_on_entered_day, AreActs, IsEndAfter, StandsAfter};
ghost use Rattle.court_reasons.specs.Explains.{Explains};
ghost use Rattle.court_reasons.specs.Steps.{steps_of_start, steps_of_resumed, extended, steps_of_act, steps_of};
ghost use Rattle.court_reasons.specs.Told.{acts_of};
ghost use Rattle.court_days.specs.Limits.{last_entered_day};

use crate::days::{push_days, push_three_more, push_way};
use crate::hours::push_hours;
use crate::local::local_day;
use crate::step::{Reasons, Step};
use court_days::{Calendar, Court, Day, Direction, End, count_days};
use court_rules::{Act, Standing, Start, standing_after};
use std::alloc::{AllocError, Global};

/// How long the time runs after a ruling on the motion that suspended it, or after the statement
/// (Fed. R. Civ. P. 12(a)(4)).
const DAYS_AFTER_MOTION: u32 = 14;

/// Adds the steps of a period that begins.
fn push_start(
    steps: &mut Reasons,
    court: &Court,
    calendar: &Calendar,
    start: &Start,
) -> Result<(), AllocError>
    requires within { is_start start.now ≡ true }
    ensures { OnOk result (steps.new ≡ steps.old ++ steps_of_start (zone_of court.now) calendar.now start.now) }
{
    match start {
        Start::Days(days) => push_days(steps, calendar, days),
        Start::Hours(hours) => push_hours(steps, court, calendar, hours),
    }
}

/// The last day of a time: that of an instant is its local day.
fn last_day(court: &Court, end: End) -> Day
    requires { IsEndAfter 99 end }
    ensures value { result ≡ last_day (zone_of court.now) end }
    ensures near { result ≤ 417_834 }
{
    match end {
        End::LastDay(day) => day,
        End::Moment(at) => local_day(court, at),
    }
}

/// Adds the steps of an extension by days.
fn push_extended(
    steps: &mut Reasons,
    court: &Court,
    calendar: &Calendar,
    days: u32,
    before: &Standing,
) -> Result<(), AllocError>
    requires days { days ≤ 3650 }
    requires before { StandsAfter 99 before.now }
    ensures { OnOk result (steps.new ≡ steps.old ++ extended (zone_of court.now) calendar.now days before.now) }
{
    match before {
        Standing::Running(end) => {
            let last = last_day(court, *end);
            steps.push(Step::Extended(last, days))?;
            push_way(steps, calendar, Direction::Forward, last.plus(days))
        }
        _ => Ok(()),
    }
}

/// Adds the steps of a time that runs again.
fn push_resumed(
    steps: &mut Reasons,
    calendar: &Calendar,
    day: Day,
    three_days: bool,
) -> Result<(), AllocError>
    requires { day ≤ last_entered_day }
    ensures { OnOk result (steps.new ≡ steps.old ++ steps_of_resumed calendar.now day three_days) }
{
    let end = count_days(calendar, Direction::Forward, day, DAYS_AFTER_MOTION);
    steps.push(Step::Resumed(day, three_days))?;
    push_way(
        steps,
        calendar,
        Direction::Forward,
        day.plus(DAYS_AFTER_MOTION),
    )?;
    push_three_more(steps, calendar, three_days, end)
}

/// Adds the steps of an act, by where the deadline stood before it.
fn push_act(
    steps: &mut Reasons,
    court: &Court,
    calendar: &Calendar,
    before: &Standing,
    act: &Act,
) -> Result<(), AllocError>
    requires within { is_within act.now ≡ true }
    requires before { StandsAfter 99 before.now }
    ensures { OnOk result (steps.new ≡ steps.old ++ steps_of_act (zone_of court.now) calendar.now before.now act.now) }
{
    match act {
        Act::Start(start) => push_start(steps, court, calendar, start),
        Act::Fixed(day) => steps.push(Step::Fixed(*day)),
        Act::ExtendBy(days) => push_extended(steps, court, calendar, *days, before),
        Act::ExtendTo(day) => steps.push(Step::ExtendedTo(*day)),
        Act::Motion(day, kind) => steps.push(Step::Motion(*day, *kind)),
        Act::Resume(day, three_days) => push_resumed(steps, calendar, *day, *three_days),
        Act::AwaitStatement(day) => steps.push(Step::Awaited(*day)),
        Act::Done(at, way) => steps.push(Step::Done(*at, *way)),
        Act::Vacated => steps.push(Step::Vacated),
    }
}

/// The steps of acts one after another, and where the deadline stands at last.
fn steps_of_acts(
    alloc: Global,
    court: &Court,
    calendar: &Calendar,
    acts: &[Act],
) -> Result<Reasons, AllocError>
    requires { AreActs (zone_of court.now) acts.now }
    ensures { IfOk result (λ steps. steps ≡ steps_of (zone_of court.now) calendar.now acts.now) }
{
    let mut steps = Reasons::new(alloc);
    let mut standing = Standing::Vacated;
    for act in acts {
        push_act(&mut steps, court, calendar, &standing, act)?;
        standing = standing_after(court, calendar, standing, *act);
    }
    steps.push(Step::Stands(standing))?;
    Ok(steps)
}

/// The steps by which the standing of a deadline is found: each act, the day or moment to which its
/// period is counted, and each day passed over with every cause. Then where the period ends, and at
/// last where the deadline stands, as `due` returns it (Fed. R. Civ. P. 6(a), 6(b), 6(d), 12(a)(4)).
///
/// The acts are as in `due`. It fails where memory runs out.
pub fn reasons(
    alloc: Global,
    court: &Court,
    calendar: &Calendar,
    acts: &[Act],
) -> Result<Reasons, AllocError>
    requires { AreActs (zone_of court.now) acts.now }
    ensures value { IfOk result (λ steps. steps ≡ steps_of (zone_of court.now) calendar.now acts.now) }
    ensures acts { IfOk result (λ steps. acts_of steps ≡ acts.now) }
    ensures means { IfOk result (λ steps. Explains (zone_of court.now) calendar.now Standing.Vacated acts.now steps) }
{
    // Its contract says that all rows of a calendar are within its limits, so that each way ends.
    let _rows = calendar.len();
    steps_of_acts(alloc, court, calendar, acts)
}
