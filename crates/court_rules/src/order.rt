//! The order in which the acts of a deadline may come.
ghost use Rattle.std.specs.Prelude.{◌≡◌};
ghost use Rattle.std.specs.List.{list_all};
ghost use Rattle.court_rules.specs.Acts.{is_entered_day, is_instant, is_period, is_forward, is_start, is_within, phase_after, phase_through, acts_ok};

use crate::act::{Act, Start};
use crate::table::Period;
use court_days::{Day, Direction};

/// How many acts a deadline may have.
const MOST_ACTS: usize = 100;

/// Where a deadline stands, without its end; `Unmade` before its first act.
#[derive(Clone, Copy)]
pub(crate) enum Phase {
    Unmade,
    Running,
    Suspended,
    Awaiting,
    Ended,
}

/// Whether a court may enter the day.
fn is_entered_day(day: Day) -> bool
    ensures { result ≡ is_entered_day day }
{
    (10_957..=47_481).contains(&day.epoch_day())
}

/// Whether the instant is one from 1999-12-31T00:00Z to 2100-01-02T00:00Z.
fn is_instant(at: i64) -> bool
    ensures { result ≡ is_instant at }
{
    (946_598_400..=4_102_531_200).contains(&at)
}

/// Whether the period is from a day to 3,650 days, or from a month to 120 months.
fn is_period(period: Period) -> bool
    ensures { result ≡ is_period period }
{
    match period {
        Period::Days(count) => (1..=3650).contains(&count),
        Period::Months(count) => (1..=120).contains(&count),
    }
}

/// Whether the period is counted forward.
fn is_forward(direction: Direction) -> bool
    ensures { result ≡ is_forward direction }
{
    matches!(direction, Direction::Forward)
}

/// Whether the beginning is within its limits: three days are added to forward periods alone.
fn is_start(start: Start) -> bool
    ensures { result ≡ is_start start }
{
    match start {
        Start::Days(days) => {
            is_entered_day(days.trigger)
                && is_period(days.period)
                && (!days.three_days || is_forward(days.direction))
        }
        Start::Hours(hours) => is_instant(hours.at) && (1..=8760).contains(&hours.hours),
    }
}

/// Whether what the act holds is within its limits.
fn is_within(act: Act) -> bool
    ensures { result ≡ is_within act }
{
    match act {
        Act::Start(start) => is_start(start),
        Act::ExtendBy(days) => is_period(Period::Days(days)),
        Act::Fixed(day)
        | Act::ExtendTo(day)
        | Act::Motion(day, _)
        | Act::Resume(day, _)
        | Act::AwaitStatement(day) => is_entered_day(day),
        Act::Done(at, _) => is_instant(at),
        Act::Vacated => true,
    }
}

/// Whether what each act holds is within its limits.
fn are_within(acts: &[Act]) -> bool
    ensures { result ≡ list_all is_within acts.now }
{
    acts.iter().all(|act| is_within(*act))
}

/// Where a deadline stands after the act; None where the act may not come.
fn phase_after(phase: Phase, act: Act) -> Option<Phase>
    ensures { result ≡ phase_after phase act }
{
    match (phase, act) {
        (Phase::Unmade, Act::Start(_) | Act::Fixed(_)) => Some(Phase::Running),
        (Phase::Running, Act::ExtendBy(_) | Act::ExtendTo(_)) => Some(Phase::Running),
        (Phase::Running, Act::Motion(_, _)) => Some(Phase::Suspended),
        (Phase::Suspended, Act::Fixed(_) | Act::Resume(_, _)) => Some(Phase::Running),
        (Phase::Suspended, Act::AwaitStatement(_)) => Some(Phase::Awaiting),
        (Phase::Awaiting, Act::Resume(_, _)) => Some(Phase::Running),
        (Phase::Running | Phase::Suspended | Phase::Awaiting, Act::Done(_, _) | Act::Vacated) =>
            Some(Phase::Ended),
        _ => None,
    }
}

/// Where a new deadline stands after the acts; None where one of them may not come.
fn phase_through(acts: &[Act]) -> Option<Phase>
    ensures { result ≡ phase_through Phase.Unmade acts.now }
{
    let mut phase = Phase::Unmade;
    for act in acts {
        phase = phase_after(phase, *act)?;
    }
    Some(phase)
}

/// Whether these may be the acts of a deadline: from 1 to 100 of them, each within its limits, in an
/// order in which each may come after those before it.
pub fn acts_ok(acts: &[Act]) -> bool
    ensures { result ≡ acts_ok acts.now }
{
    (1..=MOST_ACTS).contains(&acts.len()) && are_within(acts) && phase_through(acts).is_some()
}
