//! A case with its deadlines, in one of several forms.
ghost use Rattle.std.specs.Prelude.{◌≡◌, IfOk, string_bytes};
ghost use Rattle.std.specs.Option.{option_map};
ghost use Rattle.docket_history.specs.Histories.{History};
ghost use Rattle.docket_history.specs.Records.{case_record, deadline_lines};
ghost use Rattle.docket_applying.specs.Applying.{Asks, Stands};
ghost use Rattle.docket_store.specs.Asking.{OnlyAnswers};
ghost use Rattle.docket_questions.specs.Texts.{case_told, told_of_found};

use crate::sheets::sheet_page;
use court_days::{Court, Day};
use docket_history::{CaseRecord, DeadlineLine};
use docket_store::{Docket, Fault};
use docket_text::case_text;
use html_sheets::case_page;
use sqlite::Alter;
use std::alloc::{AllocError, Global};

/// The form in which a case is written.
#[derive(Clone, Copy)]
pub(crate) enum Telling {
    Text,
    /// As its docket sheet, a page that stands alone.
    Sheet,
    /// As a page of the docket on a day, which leads to the others.
    Page(Day),
}

/// Returns a case with its deadlines, in that form.
fn case_told(
    alloc: Global,
    telling: Telling,
    court: &Court,
    case: &CaseRecord,
    lines: &[DeadlineLine],
) -> Result<String, AllocError>
    ensures { IfOk result (λ text. string_bytes text ≡ case_told telling court.now case.now lines.now) }
{
    match telling {
        Telling::Text => case_text(alloc, court, case, lines),
        Telling::Sheet => sheet_page(alloc, court, case, lines),
        Telling::Page(day) => case_page(alloc, court, case, lines, day),
    }
}

/// Returns the case of a number, with its deadlines, in that form, or `None` if there is no such case.
pub(crate) fn tell_case<S: Alter>(
    alloc: Global,
    docket: &mut Docket<S>,
    telling: Telling,
    number: u32,
) -> Result<Option<String>, Fault>
    ensures answer { (h : History) → Stands S.Store docket.old h
        → Asks S.Store docket.new h (λ text. option_map string_bytes text
        ≡ told_of_found (case_told telling docket.old.court) (case_record h number) (deadline_lines docket.old.court h number)) result }
    ensures only { OnlyAnswers S.Store docket.old docket.new result }
{
    let Some(case) = docket.case(number)? else {
        return Ok(None);
    };
    let Some(lines) = docket.deadlines(number)? else {
        return Ok(None);
    };
    let text = case_told(alloc, telling, docket.court(), &case, lines.as_slice())?;
    Ok(Some(text))
}
