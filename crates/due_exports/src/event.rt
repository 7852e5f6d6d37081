//! A deadline as an event.
ghost use Rattle.std.specs.Prelude.{◌≡◌, IfOk, string_bytes};
ghost use Rattle.due_exports.specs.Events.{event_uid, event_summary, event_description, due_event};

use crate::export::Entry;
use docket_history::{CaseRow, DueRow};
use html_sheets::RuleText;
use icalendar::{Event, event_text};
use std::alloc::{AllocError, Global};

/// What distinguishes the event from every other.
fn event_uid(alloc: Global, due: &DueRow, case: &CaseRow) -> Result<String, AllocError>
    ensures { IfOk result (λ text. string_bytes text ≡ event_uid due.now case.now) }
{
    let number = due.number;
    let case_number = due.case;
    let label = case.label.as_str();
    format!(in alloc; "deadline-{number}-of-case-{case_number}-{label}@docketctl")
}

/// The docket number and the caption, and what is due, in words.
fn event_summary(alloc: Global, due: &DueRow, case: &CaseRow) -> Result<String, AllocError>
    ensures { IfOk result (λ text. string_bytes text ≡ event_summary due.now case.now) }
{
    let label = case.label.as_str();
    let caption = case.caption.as_str();
    let rule = RuleText(due.rule.as_str());
    format!(in alloc; "{label} {caption}: {rule}")
}

/// The case and the deadline, and why it is what it is.
fn event_description(alloc: Global, entry: &Entry<'_>) -> Result<String, AllocError>
    ensures { IfOk result (λ text. string_bytes text ≡ event_description entry.now.due.now entry.now.case.now entry.now.reasons.now) }
{
    let number = entry.due.number;
    let case = entry.due.case;
    let label = entry.case.label.as_str();
    let reasons = entry.reasons;
    format!(in alloc; "Case {case}, {label}, deadline {number}\n{reasons}")
}

/// The event of a deadline, written at the instant `stamp`.
pub(crate) fn due_event(alloc: Global, stamp: i64, entry: &Entry<'_>) -> Result<String, AllocError>
    ensures { IfOk result (λ text. string_bytes text ≡ due_event stamp entry.now.due.now entry.now.case.now entry.now.reasons.now) }
{
    let uid = event_uid(alloc, entry.due, entry.case)?;
    let summary = event_summary(alloc, entry.due, entry.case)?;
    let description = event_description(alloc, entry)?;
    let event = Event {
        uid: &uid,
        stamp,
        end: entry.due.end,
        summary: &summary,
        description: &description,
    };
    event_text(alloc, &event)
}
