//! The deadlines that fall due, one after another, each in the form of the list.
ghost use Rattle.std.specs.Prelude.{◌≡◌, ◌++◌, IfOk, false, string_bytes};
ghost use Rattle.sqlite.specs.Held.{state};
ghost use Rattle.sqlite.specs.State.{HasCleanDisk};
ghost use Rattle.docket_history.specs.Histories.{History, case_rows};
ghost use Rattle.docket_applying.specs.Applying.{Asks, Stands};
ghost use Rattle.docket_store.specs.Asking.{OnlyAnswers};
ghost use Rattle.html_sheets.specs.Sheets.{name_of, party_at};
ghost use Rattle.docket_questions.specs.Dues.{dues_told, entry_of, entry_told, has_reasons, reasons_in};
ghost use Rattle.docket_questions.specs.Kept.{HaveCases, IsCase, KeepsCase};

use crate::dues::DueForm;
use crate::kept::{CaseAsked, case_numbered};
use crate::long_lines::long_line;
use crate::question::Question;
use crate::reasons::ReasonsText;
use court_days::Court;
use docket_history::DueRow;
use docket_store::{Docket, Fault};
use docket_text::calendar_line;
use due_exports::{Entry, export_entry, tells_reasons};
use html_sheets::{named_row, party_name};
use sqlite::Alter;
use std::alloc::{AllocError, Global};

/// Whether a form shows why a deadline is what it is.
fn has_reasons(form: &DueForm) -> bool
    ensures { result ≡ has_reasons form.now }
{
    match *form {
        DueForm::Export(form, _) => tells_reasons(form),
        DueForm::Page(_, _) | DueForm::Calendar | DueForm::Long => false,
    }
}

/// Returns why a deadline is what it is, where the form shows that, by a docket that is not closed.
fn reasons_in<S: Alter>(
    alloc: Global,
    docket: &mut Docket<S>,
    form: &DueForm,
    due: &DueRow,
) -> Result<String, Fault>
    ensures answer { (h : History) → Stands S.Store docket.old h
        → Asks S.Store docket.new h (λ text. string_bytes text ≡ reasons_in form.now docket.old.court h due.now) result }
    ensures only { docket.old.closed ≡ false → OnlyAnswers S.Store docket.old docket.new result }
{
    if !has_reasons(form) {
        return Ok(String::new(alloc));
    }
    let reasons = ReasonsText {
        case: due.case,
        deadline: due.number,
    };
    match reasons.ask(alloc, docket)? {
        Some(text) => Ok(text),
        None => Ok(String::new(alloc)),
    }
}

/// A deadline at a place among the others, with its case, and why it is what it is.
fn entry_of(
    alloc: Global,
    court: &Court,
    form: &DueForm,
    place: usize,
    due: &DueRow,
    asked: &CaseAsked,
    reasons: &str,
) -> Result<String, AllocError>
    ensures { IfOk result (λ text. string_bytes text
        ≡ entry_of form.now court.now place due.now asked.now.case (name_of (party_at asked.now.parties.items due.now.party)) reasons.now) }
{
    let case = &asked.case;
    let name = party_name(asked.parties.as_slice(), due.party);
    match *form {
        DueForm::Page(_, _) => named_row(
            alloc,
            court,
            due,
            case.label.as_str(),
            name,
            case.caption.as_str(),
        ),
        DueForm::Calendar => calendar_line(alloc, court, due),
        DueForm::Long => long_line(alloc, court, due, case, name),
        DueForm::Export(form, stamp) => {
            let entry = Entry { due, case, reasons };
            export_entry(alloc, form, court, stamp, place, &entry)
        }
    }
}

/// Adds a deadline at a place among the others, from a docket that is not closed. Its case is asked for if it is
/// not the one that is kept, and then it is.
fn push_due<S: Alter>(
    alloc: Global,
    docket: &mut Docket<S>,
    form: &DueForm,
    kept: &mut Option<CaseAsked>,
    text: &mut String,
    place: usize,
    due: &DueRow,
) -> Result<(), Fault>
    ensures answer { (h : History) → Stands S.Store docket.old h
        → (HasCleanDisk (state S.Store docket.old.conn) → IsCase (case_rows h) due.now.case)
        → Asks S.Store docket.new h (λ _. KeepsCase h kept.old
        → KeepsCase h kept.new × (string_bytes text.new ≡ string_bytes text.old ++ entry_told form.now docket.old.court h place due.now)) result }
    ensures only { docket.old.closed ≡ false → OnlyAnswers S.Store docket.old docket.new result }
{
    let asked = case_numbered(docket, kept.take(), due.case)?;
    let reasons = reasons_in(alloc, docket, form, due)?;
    let entry = entry_of(alloc, docket.court(), form, place, due, &asked, &reasons)?;
    text.push_str(&entry)?;
    *kept = Some(asked);
    Ok(())
}

/// Adds each deadline, from a docket that is not closed.
pub(crate) fn push_dues<S: Alter>(
    alloc: Global,
    docket: &mut Docket<S>,
    form: &DueForm,
    text: &mut String,
    dues: &[DueRow],
) -> Result<(), Fault>
    ensures answer { (h : History) → Stands S.Store docket.old h
        → (HasCleanDisk (state S.Store docket.old.conn) → HaveCases h dues.now)
        → Asks S.Store docket.new h (λ _. string_bytes text.new ≡ string_bytes text.old ++ dues_told form.now docket.old.court h dues.now) result }
    ensures only { docket.old.closed ≡ false → OnlyAnswers S.Store docket.old docket.new result }
{
    let mut kept = None;
    'dues: for place in 0..dues.len() {
        push_due(alloc, docket, form, &mut kept, text, place, &dues[place])?;
    }
    Ok(())
}
