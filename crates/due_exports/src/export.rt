//! An export: its head, an entry a deadline, and its foot.
ghost use Rattle.std.specs.Prelude.{◌≡◌, ◌++◌, IfOk, codes, string_bytes};
ghost use Rattle.html_sheets.specs.Pages.{page_head, page_foot};
ghost use Rattle.html_sheets.specs.Weeks.{days_head, week_foot};
ghost use Rattle.due_exports.specs.Exports.{export_head, export_entry, export_foot, tells_reasons};

use crate::event::due_event;
use crate::form::Form;
use crate::object::due_member;
use crate::record::{due_record, header_record};
use court_days::{Court, Day};
use docket_history::{CaseRow, DueRow};
use html_sheets::{Links, due_head, due_row, page_head};
use icalendar::{calendar_foot, calendar_head};
use std::alloc::{AllocError, Global};

/// A deadline that falls due, with its case.
#[derive(Clone, Copy)]
pub struct Entry<'a> {
    pub due: &'a DueRow,
    pub case: &'a CaseRow,
    /// Why it is what it is.
    pub reasons: &'a str,
}

/// The page of what is due on those days, up to its rows.
fn days_page_head(alloc: Global, from: Day, to: Day) -> Result<String, AllocError>
    ensures { IfOk result (λ text. string_bytes text ≡ page_head (codes "Deadlines") ++ days_head from to) }
{
    let mut text = page_head(alloc, "Deadlines")?;
    let days = due_head(alloc, from, to)?;
    text.push_str(&days)?;
    Ok(text)
}

/// What ends the page, behind its rows.
#[tactic(auto, unfolding(html_sheets::specs::Elements::table_foot))]
fn days_page_foot() -> &'static str
    ensures { result.now ≡ week_foot ++ page_foot }
{
    "</tbody>\n</table>\n</main>\n</body>\n</html>\n"
}

/// The text before the entries of the days from one to another.
pub fn export_head(alloc: Global, form: Form, from: Day, to: Day) -> Result<String, AllocError>
    ensures { IfOk result (λ text. string_bytes text ≡ export_head form from to) }
{
    match form {
        Form::Calendar => String::from_str(alloc, calendar_head()),
        Form::Html => days_page_head(alloc, from, to),
        Form::Csv => String::from_str(alloc, header_record()),
        Form::Json => String::from_str(alloc, "[\n"),
    }
}

/// The entry of a deadline at a place, from 0, among the entries, written at the instant `stamp`.
pub fn export_entry(
    alloc: Global,
    form: Form,
    court: &Court,
    stamp: i64,
    place: usize,
    entry: &Entry<'_>,
) -> Result<String, AllocError>
    ensures { IfOk result (λ text. string_bytes text
        ≡ export_entry form court.now stamp place entry.now.due.now entry.now.case.now entry.now.reasons.now) }
{
    match form {
        Form::Calendar => due_event(alloc, stamp, entry),
        Form::Html => due_row(
            alloc,
            Links::None,
            court,
            entry.due,
            entry.case.label.as_str(),
            entry.case.caption.as_str(),
        ),
        Form::Csv => due_record(alloc, court, entry),
        Form::Json => due_member(alloc, court, place, entry),
    }
}

/// The text behind the entries.
pub fn export_foot(form: Form) -> &'static str
    ensures { result.now ≡ export_foot form }
{
    match form {
        Form::Calendar => calendar_foot(),
        Form::Html => days_page_foot(),
        Form::Csv => "",
        Form::Json => "\n]\n",
    }
}

/// Whether an entry has its reasons: only an event of a calendar does.
pub fn tells_reasons(form: Form) -> bool
    ensures { result ≡ tells_reasons form }
{
    matches!(form, Form::Calendar)
}
