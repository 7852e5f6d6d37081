//! What a command would do, without doing it.
ghost use Rattle.std.specs.Prelude.{◌≡◌, ◌++◌, ◌∷◌, false, string_bytes};
ghost use Rattle.std.specs.List.{flat_map};
ghost use Rattle.docket_command.specs.declared.command.Command.{Command as Entered};
ghost use Rattle.docket_history.specs.Histories.{History};
ghost use Rattle.docket_applying.specs.Applying.{Asks, IsJudged, Stands};
ghost use Rattle.docket_applying.specs.Writing.{IfClean};
ghost use Rattle.docket_store.specs.Asking.{OnlyAnswers};
ghost use Rattle.docket_questions.specs.Foreseeing.{deadline_told, foreseen_text, IsForeseen};
ghost use Rattle.docket_questions.specs.Prospects.{Follows, FollowsBy};

use crate::calendar::calendar_of_rows;
use crate::moving::calendar_foreseen;
use crate::prospect::{Foreseen, acts_added, told_after};
use court_days::Calendar;
use docket_command::Command;
use docket_decisions::{Changes, Decision};
use docket_history::{ActRow, Change, Subject};
use docket_store::{Docket, Fault};
use sqlite::Alter;
use std::alloc::Global;

/// Adds which deadline an act is on, and why it would stand as it does.
fn push_deadline<S: Alter>(
    alloc: Global,
    docket: &mut Docket<S>,
    text: &mut String,
    calendar: &Calendar,
    changes: &[Change],
    rows: &[ActRow],
    row: &ActRow,
) -> Result<(), Fault>
    ensures answer { (h : History) (c : Entered) → Stands S.Store docket.old h
        → IfClean S.Store docket.old.conn (FollowsBy docket.old.court h c calendar.now changes.now rows.now)
        → Asks S.Store docket.new h (λ _. string_bytes text.new ≡ string_bytes text.old ++ deadline_told docket.old.court (c ∷ h) row.now) result }
    ensures only { OnlyAnswers S.Store docket.old docket.new result }
{
    let found = docket.grounds(row.case, row.deadline)?;
    let told = told_after(alloc, docket.court(), calendar, found, changes, rows, row)?;
    text.push_str(&told)?;
    Ok(())
}

/// Adds each deadline that gets one of the acts, from a docket that is not closed.
fn push_deadlines<S: Alter>(
    alloc: Global,
    docket: &mut Docket<S>,
    text: &mut String,
    calendar: &Calendar,
    changes: &[Change],
    rows: &[ActRow],
) -> Result<(), Fault>
    ensures answer { (h : History) (c : Entered) → Stands S.Store docket.old h
        → IfClean S.Store docket.old.conn (FollowsBy docket.old.court h c calendar.now changes.now rows.now)
        → Asks S.Store docket.new h (λ _. string_bytes text.new ≡ string_bytes text.old ++ flat_map (deadline_told docket.old.court (c ∷ h)) rows.now) result }
    ensures only { docket.old.closed ≡ false → OnlyAnswers S.Store docket.old docket.new result }
{
    'rows: for row in rows {
        push_deadline(alloc, docket, text, calendar, changes, rows, row)?;
    }
    Ok(())
}

/// The deadlines that get the acts of the changes, and why each would stand as it does.
fn deadlines_told<S: Alter>(
    alloc: Global,
    docket: &mut Docket<S>,
    changes: &[Change],
    rows: &[ActRow],
) -> Result<String, Fault>
    ensures answer { (h : History) (c : Entered) → Stands S.Store docket.old h
        → IfClean S.Store docket.old.conn (Follows docket.old.court h c changes.now rows.now)
        → Asks S.Store docket.new h (λ text. string_bytes text ≡ flat_map (deadline_told docket.old.court (c ∷ h)) rows.now) result }
    ensures only { OnlyAnswers S.Store docket.old docket.new result }
{
    let found = docket.calendar_rows()?;
    let calendar = calendar_of_rows(alloc, found.as_slice())?;
    let mut text = String::new(alloc);
    push_deadlines(alloc, docket, &mut text, &calendar, changes, rows)?;
    Ok(text)
}

/// What a command would do that is accepted with these changes, by a docket that is not closed.
fn text_foreseen<S: Alter>(
    alloc: Global,
    docket: &mut Docket<S>,
    command: &Command,
    changes: Changes,
) -> Result<String, Fault>
    ensures answer { (h : History) → Stands S.Store docket.old h
        → IsJudged S.Store docket.old.conn docket.old.court h command.now changes
        → Asks S.Store docket.new h (λ text. string_bytes text ≡ foreseen_text docket.old.court h command.now) result }
    ensures only { docket.old.closed ≡ false → OnlyAnswers S.Store docket.old docket.new result }
{
    let subject = Subject::of(&command.action);
    if subject.changes_calendar {
        return calendar_foreseen(alloc, docket, changes.rows);
    }
    let rows = acts_added(alloc, changes.rows.as_slice())?;
    if rows.is_empty() {
        let text = String::from_str(alloc, "No deadline would be made or moved.\n")?;
        return Ok(text);
    }
    deadlines_told(alloc, docket, changes.rows.as_slice(), rows.as_slice())
}

/// Returns what a command would do, and does nothing: whether it would be refused, was entered already, or
/// would be accepted. Each deadline that it makes or acts on is explained as the docket would explain it then.
pub fn foreseen<S: Alter>(
    alloc: Global,
    docket: &mut Docket<S>,
    command: &Command,
) -> Result<Foreseen, Fault>
    ensures answer { (h : History) → Stands S.Store docket.old h
        → Asks S.Store docket.new h (IsForeseen docket.old.court h command.now) result }
    ensures only { OnlyAnswers S.Store docket.old docket.new result }
{
    match docket.decision(command) {
        Ok(Decision::Repeat(reply)) => Ok(Foreseen::Known(reply)),
        Ok(Decision::Change(changes)) => {
            let text = text_foreseen(alloc, docket, command, changes)?;
            Ok(Foreseen::Accepted(text))
        }
        Err(Fault::Refused(refusal)) => Ok(Foreseen::Refused(refusal)),
        Err(Fault::NoMemory) => Err(Fault::NoMemory),
        Err(Fault::StoreFailed) => Err(Fault::StoreFailed),
        Err(Fault::Damaged) => Err(Fault::Damaged),
        Err(Fault::Closed) => Err(Fault::Closed),
    }
}
