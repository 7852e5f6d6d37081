//! The text of deadlines that fall due: a head, the deadlines, and a foot.
ghost use Rattle.std.specs.Prelude.{◌≡◌, IfOk, false, string_bytes};
ghost use Rattle.sqlite.specs.Held.{state};
ghost use Rattle.sqlite.specs.State.{HasCleanDisk};
ghost use Rattle.docket_history.specs.Histories.{History};
ghost use Rattle.docket_text.specs.CalendarTexts.{end_line};
ghost use Rattle.docket_applying.specs.Applying.{Asks, Stands};
ghost use Rattle.docket_store.specs.Asking.{OnlyAnswers};
ghost use Rattle.docket_questions.specs.Dues.{foot_of, head_of, text_between};
ghost use Rattle.docket_questions.specs.Kept.{HaveCases};

use crate::due_entries::push_dues;
use crate::dues::DueForm;
use court_days::{Court, Day};
use docket_history::DueRow;
use docket_store::{Docket, Fault};
use due_exports::{export_foot, export_head};
use html_sheets::{days_page_foot, days_page_head};
use sqlite::Alter;
use std::alloc::{AllocError, Global};

/// What stands before the deadlines of the days from one to another.
fn head_of(
    alloc: Global,
    form: &DueForm,
    court: &Court,
    from: Day,
    to: Day,
) -> Result<String, AllocError>
    ensures { IfOk result (λ text. string_bytes text ≡ head_of form.now court.now from to) }
{
    match *form {
        DueForm::Page(list, _) => days_page_head(alloc, list, court, from, to),
        DueForm::Calendar | DueForm::Long => Ok(String::new(alloc)),
        DueForm::Export(form, _) => export_head(alloc, form, from, to),
    }
}

/// The last line of a list of so many deadlines.
fn end_line(alloc: Global, count: usize) -> Result<String, AllocError>
    ensures { IfOk result (λ text. string_bytes text ≡ end_line count) }
{
    format!(in alloc; "end {count}\n")
}

/// What stands behind so many deadlines of those days.
fn foot_of(
    alloc: Global,
    form: &DueForm,
    from: Day,
    to: Day,
    count: usize,
) -> Result<String, AllocError>
    ensures { IfOk result (λ text. string_bytes text ≡ foot_of form.now from to count) }
{
    match *form {
        DueForm::Page(_, day) => days_page_foot(alloc, from, to, day),
        DueForm::Calendar | DueForm::Long => end_line(alloc, count),
        DueForm::Export(form, _) => String::from_str(alloc, export_foot(form)),
    }
}

/// The text of these deadlines, which are those of the days from one to another, by a docket that is not closed.
pub(crate) fn text_between<S: Alter>(
    alloc: Global,
    docket: &mut Docket<S>,
    form: &DueForm,
    from: Day,
    to: Day,
    dues: &[DueRow],
) -> Result<String, Fault>
    ensures answer { (h : History) → Stands S.Store docket.old h
        → (HasCleanDisk (state S.Store docket.old.conn) → HaveCases h dues.now)
        → Asks S.Store docket.new h (λ text. string_bytes text ≡ text_between form.now docket.old.court h from to dues.now) result }
    ensures only { docket.old.closed ≡ false → OnlyAnswers S.Store docket.old docket.new result }
{
    let mut text = head_of(alloc, form, docket.court(), from, to)?;
    push_dues(alloc, docket, form, &mut text, dues)?;
    let foot = foot_of(alloc, form, from, to, dues.len())?;
    text.push_str(&foot)?;
    Ok(text)
}
