//! A deadline as an object of JSON.
ghost use Rattle.std.specs.Prelude.{◌≡◌, IfOk, OnOk, option_map, string_bytes};
ghost use Rattle.serde_json.specs.Data.{number, put, string, unsigned};
ghost use Rattle.serde_json.specs.View.{members_view, view};
ghost use Rattle.due_exports.specs.Objects.{string_or_null, put_end, due_object, due_member, before_object};

use crate::end_texts::end_texts;
use crate::export::Entry;
use court_days::{Court, End};
use serde_json::{Map, Value};
use std::alloc::{AllocError, Global};

/// The members of an object, in the order of their names' bytes.
type Members = Map<String, Value>;

/// A text, or null where there is none.
fn string_or_null(alloc: Global, text: &Option<String>) -> Result<Value, AllocError>
    ensures { IfOk result (λ value. view value ≡ string_or_null (option_map string_bytes text.now)) }
{
    match text {
        Some(text) => Value::try_from_str(alloc, text.as_str()),
        None => Ok(Value::Null),
    }
}

/// Adds a member that is a text.
fn put_text(members: &mut Members, alloc: Global, name: &str, text: &str) -> Result<(), AllocError>
    ensures { OnOk result (members_view members.new.entries ≡ put name.now (string text.now) (members_view members.old.entries)) }
{
    serde_json::put(members, alloc, name, Value::try_from_str(alloc, text)?)
}

/// Adds a member that is a number.
fn put_number(
    members: &mut Members,
    alloc: Global,
    name: &str,
    count: u32,
) -> Result<(), AllocError>
    ensures { OnOk result (members_view members.new.entries ≡ put name.now (number (unsigned count)) (members_view members.old.entries)) }
{
    serde_json::put(members, alloc, name, Value::from(count))
}

/// Adds the members of an end.
fn put_end(
    members: &mut Members,
    alloc: Global,
    court: &Court,
    close: u32,
    end: End,
) -> Result<(), AllocError>
    ensures { OnOk result (members_view members.new.entries ≡ put_end court.now close end (members_view members.old.entries)) }
{
    let texts = end_texts(alloc, court, close, end)?;
    let closing = string_or_null(alloc, &texts.closing)?;
    put_text(members, alloc, "day", &texts.day)?;
    put_text(members, alloc, "time", &texts.time)?;
    serde_json::put(members, alloc, "closing", closing)
}

/// The object of a deadline.
fn due_object(alloc: Global, court: &Court, entry: &Entry<'_>) -> Result<Value, AllocError>
    ensures { IfOk result (λ value. view value ≡ due_object court.now entry.now.due.now entry.now.case.now) }
{
    let due = entry.due;
    let case = entry.case;
    let mut members = Members::new(alloc);
    put_end(&mut members, alloc, court, due.close, due.end)?;
    put_number(&mut members, alloc, "case", due.case)?;
    put_text(&mut members, alloc, "label", case.label.as_str())?;
    put_text(&mut members, alloc, "caption", case.caption.as_str())?;
    put_number(&mut members, alloc, "deadline", due.number)?;
    put_text(&mut members, alloc, "rule", due.rule.as_str())?;
    put_number(&mut members, alloc, "party", due.party)?;
    Ok(Value::Object(members))
}

/// What separates the object at a place from the one before.
fn before_object(place: usize) -> &'static str
    ensures { result.now ≡ before_object place }
{
    if place == 0 { "" } else { ",\n" }
}

/// The object of a deadline on its line, with what separates it from the one before.
pub(crate) fn due_member(
    alloc: Global,
    court: &Court,
    place: usize,
    entry: &Entry<'_>,
) -> Result<String, AllocError>
    ensures { IfOk result (λ text. string_bytes text ≡ due_member court.now place entry.now.due.now entry.now.case.now) }
{
    let object = due_object(alloc, court, entry)?;
    let object = object.to_string(alloc)?;
    let before = before_object(place);
    format!(in alloc; "{before}{object}")
}
