//! A deadline as a record of comma-separated values.
ghost use Rattle.std.specs.Prelude.{◌≡◌, ◌++◌, ◌∷◌, [], IfOk, OnOk, decimal, encode_utf8, option_map, unwrap_or, string_bytes};
ghost use Rattle.csv.specs.Writing.{escaped, needs_quotes, field_text, row_body};
ghost use Rattle.docket_text.specs.Parties.{party_text};
ghost use Rattle.due_exports.specs.Records.{record_writer, end_fields, header_record, due_record};

use crate::end_texts::end_texts;
use crate::export::Entry;
use court_days::{Court, End};
use docket_text::PartyText;
use std::alloc::{AllocError, Global};

/// Whether a field needs quotes: it has a comma, a quote, CR or LF.
fn needs_quotes(field: &str) -> bool
    ensures { result ≡ needs_quotes record_writer field.now }
{
    field
        .as_bytes()
        .iter()
        .any(|byte| matches!(*byte, b',' | b'"' | b'\r' | b'\n'))
}

/// Adds a character, a quote twice.
#[tactic(auto, using(crate::proofs::QuoteLemmas::quote_twice, crate::proofs::QuoteLemmas::other_once))]
fn push_character(text: &mut String, character: char) -> Result<(), AllocError>
    ensures { OnOk result (string_bytes text.new ≡ string_bytes text.old ++ escaped record_writer (encode_utf8 character)) }
{
    if character == '"' {
        return text.push_str("\"\"");
    }
    text.push(character)
}

/// Adds a text with its quotes doubled.
fn push_doubled(text: &mut String, field: &str) -> Result<(), AllocError>
    ensures { OnOk result (string_bytes text.new ≡ string_bytes text.old ++ escaped record_writer field.now) }
{
    for character in field.chars() {
        push_character(text, character)?;
    }
    Ok(())
}

/// Adds a field.
fn push_field(text: &mut String, field: &str) -> Result<(), AllocError>
    ensures { OnOk result (string_bytes text.new ≡ string_bytes text.old ++ field_text record_writer field.now) }
{
    if !needs_quotes(field) {
        return text.push_str(field);
    }
    text.push_str("\"")?;
    push_doubled(text, field)?;
    text.push_str("\"")
}

/// Adds a field behind the one before.
fn push_next(text: &mut String, field: &str) -> Result<(), AllocError>
    ensures { OnOk result (string_bytes text.new ≡ string_bytes text.old ++ 44 ∷ field_text record_writer field.now) }
{
    text.push_str(",")?;
    push_field(text, field)
}

/// When the clerk's office closes, or nothing where that doesn't matter.
fn closing_text(closing: &Option<String>) -> &str
    ensures { result.now ≡ unwrap_or (option_map string_bytes closing.now) [] }
{
    match closing {
        Some(closing) => closing.as_str(),
        None => "",
    }
}

/// The record of the names of the fields.
pub(crate) fn header_record() -> &'static str
    ensures { result.now ≡ header_record }
{
    "day,time,closing,case,label,caption,deadline,rule,party\r\n"
}

/// Adds the fields of an end.
fn push_end(
    text: &mut String,
    alloc: Global,
    court: &Court,
    close: u32,
    end: End,
) -> Result<(), AllocError>
    ensures { OnOk result (string_bytes text.new ≡ string_bytes text.old ++ row_body record_writer (end_fields court.now close end)) }
{
    let texts = end_texts(alloc, court, close, end)?;
    push_field(text, &texts.day)?;
    push_next(text, &texts.time)?;
    push_next(text, closing_text(&texts.closing))
}

/// Adds a number behind the field before.
fn push_number(text: &mut String, alloc: Global, number: u32) -> Result<(), AllocError>
    ensures { OnOk result (string_bytes text.new ≡ string_bytes text.old ++ 44 ∷ field_text record_writer (decimal number)) }
{
    let number = format!(in alloc; "{number}")?;
    push_next(text, &number)
}

/// Adds the party whose time it is behind the field before.
fn push_party(text: &mut String, alloc: Global, party: u32) -> Result<(), AllocError>
    ensures { OnOk result (string_bytes text.new ≡ string_bytes text.old ++ 44 ∷ field_text record_writer (party_text party)) }
{
    let party = PartyText(party);
    let party = format!(in alloc; "{party}")?;
    push_next(text, &party)
}

/// The record of a deadline.
pub(crate) fn due_record(
    alloc: Global,
    court: &Court,
    entry: &Entry<'_>,
) -> Result<String, AllocError>
    ensures { IfOk result (λ text. string_bytes text ≡ due_record court.now entry.now.due.now entry.now.case.now) }
{
    let due = entry.due;
    let mut text = String::new(alloc);
    push_end(&mut text, alloc, court, due.close, due.end)?;
    push_number(&mut text, alloc, due.case)?;
    push_next(&mut text, entry.case.label.as_str())?;
    push_next(&mut text, entry.case.caption.as_str())?;
    push_number(&mut text, alloc, due.number)?;
    push_next(&mut text, due.rule.as_str())?;
    push_party(&mut text, alloc, due.party)?;
    text.push_str("\r\n")?;
    Ok(text)
}
