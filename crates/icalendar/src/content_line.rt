//! Content lines, and properties of the type TEXT.
ghost use Rattle.std.specs.Prelude.{◌≡◌, ◌≤◌, ℕ, List, ◌++◌, IfOk, OnOk, encode_utf8, string_bytes};
ghost use Rattle.icalendar.specs.ContentLines.{content_line, folded_from};
ghost use Rattle.icalendar.specs.Events.{text_property};

use crate::text_value::push_text_value;
use std::alloc::{AllocError, Global};

/// How many octets a physical line may have, without its CR LF.
const MAX_OCTETS: usize = 75;

/// Adds a character behind so many octets of its physical line, or on the next line where it would pass
/// the limit. Returns how many octets that line then has.
fn push_character(text: &mut String, at: usize, character: char) -> Result<usize, AllocError>
    requires { at ≤ 75 }
    ensures limit { IfOk result (λ next. next ≤ 75) }
    ensures folded { IfOk result (λ next. (rest : List ℕ) → string_bytes text.new ++ folded_from next rest
        ≡ string_bytes text.old ++ folded_from at (encode_utf8 character ++ rest)) }
{
    let octets = character.len_utf8();
    if at + octets > MAX_OCTETS {
        text.push_str("\r\n ")?;
        text.push(character)?;
        Ok(1 + octets)
    } else {
        text.push(character)?;
        Ok(at + octets)
    }
}

/// Adds the line, folded, without the end of its last physical line.
fn push_folded(text: &mut String, line: &str) -> Result<(), AllocError>
    ensures { OnOk result (string_bytes text.new ≡ string_bytes text.old ++ folded_from 0 line.now) }
{
    let mut at = 0;
    for character in line.chars() {
        at = push_character(text, at, character)?;
    }
    Ok(())
}

/// Adds a content line, folded so that no physical line of it has more than 75 octets, and never
/// within a character.
#[tactic(auto, unfolding(crate::specs::ContentLines::content_line))]
pub fn push_line(text: &mut String, line: &str) -> Result<(), AllocError>
    ensures { OnOk result (string_bytes text.new ≡ string_bytes text.old ++ content_line line.now) }
{
    push_folded(text, line)?;
    text.push_str("\r\n")
}

/// Adds a property of the type TEXT.
pub(crate) fn push_property(
    text: &mut String,
    alloc: Global,
    name: &str,
    value: &str,
) -> Result<(), AllocError>
    ensures { OnOk result (string_bytes text.new ≡ string_bytes text.old ++ text_property name.now value.now) }
{
    let mut line = String::from_str(alloc, name)?;
    line.push_str(":")?;
    push_text_value(&mut line, value)?;
    push_line(text, &line)
}

/// A property of the type TEXT, as a content line: `NAME:VALUE`, where the value is escaped, so that
/// no text ends its line.
pub fn text_property(alloc: Global, name: &str, value: &str) -> Result<String, AllocError>
    ensures { IfOk result (λ text. string_bytes text ≡ text_property name.now value.now) }
{
    let mut text = String::new(alloc);
    push_property(&mut text, alloc, name, value)?;
    Ok(text)
}
