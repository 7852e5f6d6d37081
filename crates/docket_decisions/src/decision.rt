//! The answer to a command, and what it changes.
ghost use Rattle.std.specs.Prelude.{◌≡◌, ◌+◌, ◌≤◌, ◌^◌, false, IfOk, if◌then◌else◌};
ghost use Rattle.docket_history.specs.CalendarItems.{calendar_of};
ghost use Rattle.court_rules.specs.Standings.{StandsAfter};
ghost use Rattle.docket_decisions.specs.Decisions.{UpdatesEndsBy, IsAnswer, IsChange, IsKeptReply, LeadsTo, IsSoundView, AreCircumstances, MovesEnds};
ghost use Rattle.docket_history.specs.Histories.{History};
ghost use Rattle.docket_decisions.specs.Outcomes.{IsHistory, reply_to, answer_of, shown, outcome};
ghost use Rattle.docket_decisions.specs.Refusals.{exists_already, is_full};
ghost use Rattle.docket_decisions.specs.Tables.{action_changes};
ghost use Rattle.docket_history.specs.Times.{standing_shown};

use crate::changes::changes_of_action;
use crate::deadline::deadlines_made;
use crate::moving::{EndUpdate, end_update};
use crate::refusals::{Circumstances, is_in_time, refusal};
use court_days::{Calendar, Court};
use court_rules::{Standing, due};
use docket_command::{Action, Command, Refusal, Reply, Ruling};
use docket_history::{Change, Kept, Subject, View, rows_added};
use std::alloc::{AllocError, AllocFailed, Global};

/// The rows that a command adds and removes, one after another, what is done about the stored ends of
/// deadlines, and its reply.
#[derive(Drop)]
pub struct Changes {
    pub rows: Vec<Change>,
    pub ends: EndUpdate,
    pub reply: Reply,
}

/// What is done with a command that is not refused: it is a repeat, which has the reply that it had
/// before and changes nothing, or it is accepted.
#[derive(Drop)]
pub enum Decision {
    Repeat(Reply),
    Change(Changes),
}

/// Why nothing was decided: the command is refused, or memory ran out.
#[derive(Drop)]
pub enum DecideFault {
    Refused(Refusal),
    NoMemory,
}

impl From<AllocError> for DecideFault {
    ghost use Rattle.docket_decisions.specs.Decisions.{IsNoMemory};

    ghost from_gives = { λ _ fault. IsNoMemory fault };

    fn from(_: AllocError) -> DecideFault {
        DecideFault::NoMemory
    }
}

impl<T: Drop> From<AllocFailed<T>> for DecideFault {
    ghost use Rattle.docket_decisions.specs.Decisions.{IsNoMemory};

    ghost from_gives = { λ _ fault. IsNoMemory fault };

    fn from(_: AllocFailed<T>) -> DecideFault {
        DecideFault::NoMemory
    }
}

/// Where the deadline that the command names stands, by the calendar that is shown.
fn standing_shown(court: &Court, calendar: &Calendar, view: &View) -> Standing
    requires sound { IsSoundView court.now view.now }
    requires calendar { calendar.now ≡ calendar_of view.now.calendar }
    ensures value { result ≡ standing_shown court.now view.now }
    ensures near { StandsAfter 100 result }
{
    match view.deadline_named() {
        Some(deadline) => due(court, calendar, deadline.acts.as_slice()),
        None => Standing::Vacated,
    }
}

/// The reply to an action that is not refused.
fn reply(circumstances: &Circumstances<'_>, view: &View, action: &Action) -> u32
    requires circumstances { AreCircumstances circumstances.now view.now action.now }
    requires rows { view.now.next_row ≤ 2 ^ 32 }
    requires new { exists_already view.now action.now ≡ false }
    requires room { is_full view.now action.now ≡ false }
    ensures { result ≡ reply_to circumstances.now.court.now view.now action.now }
{
    match action {
        Action::WithdrawCalendar(a) => a.row,
        Action::ImportCalendar(_) => circumstances.added as u32,
        Action::OpenCase(_) => view.cases + 1,
        Action::AddParty(_) => view.parties() + 1,
        Action::FileEntry(_) => view.entries() + 1,
        Action::RuleMotion(a) => a.deadline,
        Action::Dispose(a) => match a.outcome {
            Ruling::Statement => view.deadlines() + 1,
            Ruling::Denied | Ruling::Postponed => a.deadline,
        },
        Action::StatementServed(a) => a.deadline,
        Action::Extend(a) => a.deadline,
        Action::Satisfy(a) => {
            let standing = circumstances.standing;
            let is_in_time = is_in_time(
                circumstances.court,
                circumstances.calendar,
                standing,
                a.at,
                a.way,
            );
            u32::from(is_in_time)
        }
        Action::Vacate(a) => a.deadline,
        Action::LocalRule(_) => view.local_rules + 1,
        Action::ServeSummons(_) | Action::FileWaiver(_) => view.deadlines() + 1,
        Action::ServePleading(_) | Action::OrderReply(_) => view.deadlines() + 1,
        Action::NoticeHearing(_) | Action::OrderPeriod(_) => view.deadlines() + 1,
        Action::EnterJudgment(_) | Action::LocalPeriod(_) => view.deadlines() + 1,
        // The others enter one row in the calendar.
        _ => view.next_row as u32,
    }
}

/// The answer to a command after the history that the view shows, and the changes that add the
/// command to the tables. The view is one that a history can show.
pub fn decide(
    alloc: Global,
    view: &View,
    court: &Court,
    command: &Command,
) -> Result<Decision, DecideFault>
    requires { IsSoundView court.now view.now }
    ensures outcome { (h : History) → view.now ≡ shown court.now h command.now
        → IsAnswer result (outcome court.now h command.now) }
    ensures tables { (h : History) → view.now ≡ shown court.now h command.now
        → IfOk result (LeadsTo court.now h command.now) }
    // The stored ends become those of the deadlines with the command.
    ensures ends { (h : History) → IsHistory court.now h → view.now ≡ shown court.now h command.now
        → IfOk result (MovesEnds court.now h command.now) }
    // The changes are those of the action, in the order of their tables.
    ensures changes { IfOk result (IsChange (action_changes view.now command.now.action)) }
    ensures repeats { IfOk result (IsKeptReply view.now) }
{
    decide_by_view(alloc, view, court, command)
}

/// The same, by the view alone.
fn decide_by_view(
    alloc: Global,
    view: &View,
    court: &Court,
    command: &Command,
) -> Result<Decision, DecideFault>
    requires { IsSoundView court.now view.now }
    ensures answer { IsAnswer result (answer_of court.now view.now command.now) }
    ensures ends { IfOk result (UpdatesEndsBy court.now view.now command.now.action) }
    ensures changes { IfOk result (IsChange (action_changes view.now command.now.action)) }
    ensures repeats { IfOk result (IsKeptReply view.now) }
{
    if let Kept::Same(reply) = view.under_key {
        return Ok(Decision::Repeat(reply));
    }
    let action = &command.action;
    let calendar = view.calendar.calendar();
    let added = rows_added(alloc, view.calendar.as_slice(), action)?;
    let made = deadlines_made(alloc, &view.local, action)?;
    let circumstances = Circumstances {
        court,
        calendar,
        standing: standing_shown(court, calendar, view),
        subject: Subject::of(action),
        added: added.len(),
        made: made.len(),
    };
    match refusal(&circumstances, view, command) {
        Some(refusal) => return Err(DecideFault::Refused(refusal)),
        None => {}
    }
    let reply = Reply {
        number: reply(&circumstances, view, action),
    };
    let rows = changes_of_action(alloc, view, added, made, action)?;
    let ends = end_update(alloc, court, view, circumstances.subject, rows.as_slice())?;
    Ok(Decision::Change(Changes { rows, ends, reply }))
}
