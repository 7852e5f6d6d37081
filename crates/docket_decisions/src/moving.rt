//! What a command does about the stored ends of deadlines.
ghost use Rattle.std.specs.Prelude.{◌≡◌, ◌++◌, ◌⊎◌, [], IfOk, OnOk};
ghost use Rattle.court_days.specs.Court.{zone_of};
ghost use Rattle.court_rules.specs.Standings.{AreActs, standing};
ghost use Rattle.docket_decisions.specs.Decisions.{IsUpdateBy};
ghost use Rattle.docket_decisions.specs.EndMoves.{acts_before, acts_with, moves_by_act, end_moves, AreLawful};
ghost use Rattle.docket_decisions.specs.EndRows.{end_running};
ghost use Rattle.docket_history.specs.Views.{deadline_shown, acts_in};
ghost use Rattle.docket_command.specs.declared.command.Action.{Action as Asked};
ghost use Rattle.docket_history.specs.Actions.{subject_of};

use crate::end_row::{EndChange, EndTime, change_end, end_running};
use court_days::{Calendar, Court};
use court_rules::{Act, due};
use docket_history::{ActRow, Change, Subject, View};
use std::alloc::{AllocError, Global};

/// What is done about the stored ends. These changes are made; or, where days or spans of the calendar
/// changed, the ends of the first so many cases are brought up to date by the rows after the change.
#[derive(Drop)]
pub enum EndUpdate {
    Moves(Vec<EndChange>),
    Calendar { cases: u32 },
}

/// The acts of the row's deadline before it, where `named` are those of the deadline that the command
/// names.
fn acts_before<'a>(named: &'a [Act], row: &ActRow) -> &'a [Act]
    ensures { result.now ≡ acts_before named.now row.now }
{
    if row.number == 1 { &[] } else { named }
}

/// The acts of the row's deadline with it.
fn acts_with(alloc: Global, named: &[Act], row: &ActRow) -> Result<Vec<Act>, AllocError>
    ensures { IfOk result (λ acts. acts.items ≡ acts_with named.now row.now) }
{
    let mut acts = Vec::new(alloc);
    acts.extend_from_slice(acts_before(named, row))?;
    acts.extend_from_slice(&[row.act])?;
    Ok(acts)
}

/// The end of a deadline with these acts, where its time runs.
fn end_by(court: &Court, calendar: &Calendar, acts: &[Act]) -> Option<EndTime>
    requires { (acts.now ≡ []) ⊎ AreActs (zone_of court.now) acts.now }
    ensures { result ≡ end_running (zone_of court.now) (standing (zone_of court.now) calendar.now acts.now) }
{
    if acts.is_empty() {
        return None;
    }
    end_running(court, due(court, calendar, acts))
}

/// Adds the change that the act of the row makes.
fn push_move(
    moves: &mut Vec<EndChange>,
    alloc: Global,
    court: &Court,
    calendar: &Calendar,
    named: &[Act],
    row: &ActRow,
) -> Result<(), AllocError>
    requires named { (named.now ≡ []) ⊎ AreActs (zone_of court.now) named.now }
    requires after { AreActs (zone_of court.now) (acts_with named.now row.now) }
    ensures { OnOk result (moves.new.items ≡ moves.old.items ++ moves_by_act (zone_of court.now) calendar.now named.now row.now) }
{
    let acts = acts_with(alloc, named, row)?;
    let stored = end_by(court, calendar, acts_before(named, row));
    let end = end_by(court, calendar, acts.as_slice());
    change_end(moves, row.case, row.deadline, stored, end)
}

/// The changes of stored ends that follow from the changes of a command. `named` are the acts of the
/// deadline that it names, before it.
fn end_moves(
    alloc: Global,
    court: &Court,
    calendar: &Calendar,
    named: &[Act],
    changes: &[Change],
) -> Result<Vec<EndChange>, AllocError>
    requires { AreLawful (zone_of court.now) named.now changes.now }
    ensures { IfOk result (λ moves. moves.items ≡ end_moves (zone_of court.now) calendar.now named.now changes.now) }
{
    let mut moves = Vec::new(alloc);
    for change in changes {
        if let Change::AddAct(row) = change {
            push_move(&mut moves, alloc, court, calendar, named, row)?;
        }
    }
    Ok(moves)
}

/// What is done about the stored ends with an action that is not refused, where the rows change so.
pub(crate) fn end_update(
    alloc: Global,
    court: &Court,
    view: &View,
    subject: Subject,
    changes: &[Change],
) -> Result<EndUpdate, AllocError>
    requires { AreLawful (zone_of court.now) (acts_in (deadline_shown view.now)) changes.now }
    ensures { (a : Asked) → subject ≡ subject_of a → IfOk result (IsUpdateBy court.now view.now a changes.now) }
{
    if subject.moves_all_cases {
        return Ok(EndUpdate::Calendar { cases: view.cases });
    }
    let calendar = view.calendar.calendar();
    let moves = end_moves(alloc, court, calendar, view.acts_named(), changes)?;
    Ok(EndUpdate::Moves(moves))
}
