//! Values of the type TEXT.
ghost use Rattle.std.specs.Prelude.{◌≡◌, ◌++◌, map, OnOk, encode_utf8, string_bytes};
ghost use Rattle.std.specs.List.{flat_map};
ghost use Rattle.icalendar.specs.Texts.{escaped_byte, plain_byte, text_value};

use std::alloc::AllocError;

/// Adds what a character becomes: a line break `\n`, another control character a blank, and a
/// backslash, a semicolon and a comma have a backslash before them.
fn push_escaped(text: &mut String, character: char) -> Result<(), AllocError>
    ensures { OnOk result (string_bytes text.new ≡ string_bytes text.old
        ++ flat_map escaped_byte (map plain_byte (encode_utf8 character))) }
{
    match character {
        '\n' | '\r' => text.push_str("\\n"),
        '\\' => text.push_str("\\\\"),
        ';' => text.push_str("\\;"),
        ',' => text.push_str("\\,"),
        '\t' => text.push('\t'),
        '\0'..='\x1f' | '\x7f' => text.push(' '),
        _ => text.push(character),
    }
}

/// Adds the value of a text. CR LF is one line break.
pub(crate) fn push_text_value(text: &mut String, value: &str) -> Result<(), AllocError>
    ensures { OnOk result (string_bytes text.new ≡ string_bytes text.old ++ text_value value.now) }
{
    let mut returned = false;
    for character in value.chars() {
        if returned && character == '\n' {
            returned = false;
            continue;
        }
        push_escaped(text, character)?;
        returned = character == '\r';
    }
    Ok(())
}
