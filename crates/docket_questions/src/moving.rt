//! Which deadlines would end otherwise by a calendar of the court that a command changes.
ghost use Rattle.std.specs.Prelude.{◌≡◌, ◌++◌, ◌∷◌, false, IfOk, IfErr, OnOk, codes, string_bytes};
ghost use Rattle.std.specs.List.{flat_map};
ghost use Rattle.court_days.specs.Court.{zone_of};
ghost use Rattle.court_rules.specs.Standings.{AreActs, standing};
ghost use Rattle.docket_applying.specs.Applying.{Asks, Stands};
ghost use Rattle.docket_applying.specs.Sound.{IsSoundCalendar};
ghost use Rattle.docket_applying.specs.Told.{IsNotTold};
ghost use Rattle.docket_applying.specs.Writing.{IfClean};
ghost use Rattle.docket_decisions.specs.EndRows.{calendar_in};
ghost use Rattle.docket_decisions.specs.Tables.{Tables, all_changed};
ghost use Rattle.docket_history.specs.Histories.{History, items_of};
ghost use Rattle.docket_history.specs.Records.{calendar};
ghost use Rattle.docket_command.specs.declared.command.Command.{Command as Entered};
ghost use Rattle.docket_store.specs.Asking.{OnlyAnswers};
ghost use Rattle.docket_questions.specs.Moves.{calendar_foreseen, end_told, run_told, move_line, move_of, moves_of, moves_or_none, ChangesRows};

use crate::calendar::{calendar_of_rows, rows_after};
use court_days::{Calendar, Court, Day, End};
use court_rules::{Act, Standing, due};
use docket_history::{CalendarRow, Change, DeadlineView, DueRow};
use docket_store::{Docket, Fault};
use docket_text::{DayText, MomentText};
use sqlite::Alter;
use std::alloc::{AllocError, Global};

/// The first of the days that have a date: 1980-01-01.
fn first_day() -> Day
    ensures { result ≡ 3652 }
{
    Day::new(3652).unwrap()
}

/// The last of them: 3999-12-31.
fn last_day() -> Day
    ensures { result ≡ 741_441 }
{
    Day::new(741_441).unwrap()
}

/// The court's calendar after these changes of its rows.
fn calendar_after(
    alloc: Global,
    rows: Vec<CalendarRow>,
    changes: Vec<Change>,
) -> Result<Calendar, Fault>
    ensures ok { (t : Tables) → rows.items ≡ t.calendar → IfOk result (λ now. now ≡ calendar_in (all_changed changes.items t)) }
    ensures err { (t : Tables) → rows.items ≡ t.calendar
        → IfErr result (IsNotTold (IsSoundCalendar (items_of (all_changed changes.items t).calendar))) }
{
    let rows = rows_after(rows, changes)?;
    calendar_of_rows(alloc, rows.as_slice())
}

/// An end as a day or a moment.
fn end_told(alloc: Global, court: &Court, end: End) -> Result<String, AllocError>
    ensures { IfOk result (λ text. string_bytes text ≡ end_told court.now end) }
{
    match end {
        End::LastDay(day) => DayText(day).to_string(alloc),
        End::Moment(at) => MomentText { court, at }.to_string(alloc),
    }
}

/// What the time of a deadline with these acts runs to by a calendar.
fn run_told(
    alloc: Global,
    court: &Court,
    other: &Calendar,
    acts: &[Act],
) -> Result<String, AllocError>
    requires { AreActs (zone_of court.now) acts.now }
    ensures { IfOk result (λ text. string_bytes text ≡ run_told court.now (standing (zone_of court.now) other.now acts.now)) }
{
    match due(court, other, acts) {
        Standing::Running(end) => end_told(alloc, court, end),
        _ => String::from_str(alloc, "no end"),
    }
}

/// Adds the line of a deadline, where what its time runs to becomes something else.
fn push_line(text: &mut String, row: &DueRow, before: &str, after: &str) -> Result<(), AllocError>
    ensures { OnOk result (string_bytes text.new ≡ string_bytes text.old ++ move_line row.now before.now after.now) }
{
    if before == after {
        return Ok(());
    }
    let number = row.number;
    let case = row.case;
    write!(
        text,
        "deadline {number} of case {case}: {before} becomes {after}\n"
    )
}

/// Adds what becomes of a deadline that runs, by another calendar.
fn push_deadline(
    alloc: Global,
    text: &mut String,
    court: &Court,
    other: &Calendar,
    row: &DueRow,
    deadline: &DeadlineView,
) -> Result<(), AllocError>
    requires { AreActs (zone_of court.now) deadline.now.acts }
    ensures { OnOk result (string_bytes text.new ≡ string_bytes text.old
        ++ move_line row.now (end_told court.now row.now.end) (run_told court.now (standing (zone_of court.now) other.now deadline.now.acts))) }
{
    let before = end_told(alloc, court, row.end)?;
    let after = run_told(alloc, court, other, deadline.acts.as_slice())?;
    push_line(text, row, &before, &after)
}

/// The same, of a deadline whose acts it reads from the docket.
fn push_move<S: Alter>(
    alloc: Global,
    docket: &mut Docket<S>,
    text: &mut String,
    other: &Calendar,
    row: &DueRow,
) -> Result<(), Fault>
    ensures answer { (h : History) → Stands S.Store docket.old h
        → Asks S.Store docket.new h (λ _. string_bytes text.new ≡ string_bytes text.old ++ move_of docket.old.court h other.now row.now) result }
    ensures only { OnlyAnswers S.Store docket.old docket.new result }
{
    let Some(grounds) = docket.grounds(row.case, row.number)? else {
        return Ok(());
    };
    push_deadline(alloc, text, docket.court(), other, row, &grounds.deadline)?;
    Ok(())
}

/// The same, of each of these deadlines, from a docket that is not closed.
fn push_moves<S: Alter>(
    alloc: Global,
    docket: &mut Docket<S>,
    text: &mut String,
    other: &Calendar,
    rows: &[DueRow],
) -> Result<(), Fault>
    ensures answer { (h : History) → Stands S.Store docket.old h
        → Asks S.Store docket.new h (λ _. string_bytes text.new ≡ string_bytes text.old ++ flat_map (move_of docket.old.court h other.now) rows.now) result }
    ensures only { docket.old.closed ≡ false → OnlyAnswers S.Store docket.old docket.new result }
{
    'rows: for row in rows {
        push_move(alloc, docket, text, other, row)?;
    }
    Ok(())
}

/// Returns a line for each deadline that would end otherwise, once a command changes the rows of the court's calendar
/// so.
fn moves_foreseen<S: Alter>(
    alloc: Global,
    docket: &mut Docket<S>,
    changes: Vec<Change>,
) -> Result<String, Fault>
    ensures answer { (h : History) (c : Entered) → Stands S.Store docket.old h
        → IfClean S.Store docket.old.conn (ChangesRows docket.old.court h c changes.items)
        → Asks S.Store docket.new h (λ text. string_bytes text ≡ moves_of docket.old.court h (calendar (c ∷ h))) result }
    ensures only { OnlyAnswers S.Store docket.old docket.new result }
{
    let rows = docket.calendar_rows()?;
    let other = calendar_after(alloc, rows, changes)?;
    let dues = docket.due_rows(first_day(), last_day())?;
    let mut text = String::new(alloc);
    push_moves(alloc, docket, &mut text, &other, dues.as_slice())?;
    Ok(text)
}

/// The moves, or that there are none.
#[tactic(auto, using(crate::proofs::MoveLemmas::no_moves, crate::proofs::MoveLemmas::some_moves))]
fn moves_or_none(moves: &str) -> &str
    ensures { result.now ≡ moves_or_none moves.now }
{
    if moves.is_empty() {
        return "No deadline would move.\n";
    }
    moves
}

/// That the court's calendar would change, and the moves.
fn change_told(alloc: Global, moves: &str) -> Result<String, AllocError>
    ensures { IfOk result (λ text. string_bytes text ≡ codes "The court's calendar would change.\n" ++ moves_or_none moves.now) }
{
    let moves = moves_or_none(moves);
    format!(in alloc; "The court's calendar would change.\n{moves}")
}

/// What a command would do that changes the rows of the court's calendar so.
pub(crate) fn calendar_foreseen<S: Alter>(
    alloc: Global,
    docket: &mut Docket<S>,
    changes: Vec<Change>,
) -> Result<String, Fault>
    ensures answer { (h : History) (c : Entered) → Stands S.Store docket.old h
        → IfClean S.Store docket.old.conn (ChangesRows docket.old.court h c changes.items)
        → Asks S.Store docket.new h (λ text. string_bytes text ≡ calendar_foreseen docket.old.court h c) result }
    ensures only { OnlyAnswers S.Store docket.old docket.new result }
{
    let moves = moves_foreseen(alloc, docket, changes)?;
    let text = change_told(alloc, &moves)?;
    Ok(text)
}
