//! Texts within HTML.
ghost use Rattle.std.specs.Prelude.{◌≡◌, ◌<◌, [], ◌∷◌, MatchOption, OnSome};
ghost use Rattle.std.specs.Fmt.{WritesOnOk};
ghost use Rattle.std.specs.List.{flat_map};
ghost use Rattle.html_sheets.specs.Escapes.{escaped_byte, written_byte};

use std::fmt;
use std::fmt::{Formatter, Write};

/// What is written in the place of a byte. `None`: the byte itself.
#[tactic(auto, unfolding(crate::specs::Escapes::escaped_byte, crate::specs::Escapes::blanked_byte, crate::specs::Escapes::is_control))]
fn replacement(byte: u8) -> Option<&'static str>
    ensures value { MatchOption result (escaped_byte byte ≡ byte ∷ []) (λ text. escaped_byte byte ≡ text.now) }
    ensures ascii { OnSome result (byte < 128) }
{
    match byte {
        b'<' => Some("&lt;"),
        b'>' => Some("&gt;"),
        b'&' => Some("&amp;"),
        b'"' => Some("&quot;"),
        b'\'' => Some("&#39;"),
        b'\t' => None,
        0..=31 | 127 => Some(" "),
        _ => None,
    }
}

/// What is written in the place of a byte, where the lines of the text stay or not. `None`: the byte itself.
#[tactic(auto, unfolding(crate::specs::Escapes::lined_byte))]
fn written(byte: u8, lines: bool) -> Option<&'static str>
    ensures value { MatchOption result (written_byte lines byte ≡ byte ∷ []) (λ text. written_byte lines byte ≡ text.now) }
    ensures ascii { OnSome result (byte < 128) }
{
    match lines {
        true => {
            if byte == b'\n' {
                return None;
            }
            replacement(byte)
        }
        false => replacement(byte),
    }
}

/// Writes the text, with a reference for each character of the markup and a blank for each control, but for
/// the ends of its lines where these stay.
fn write_escaped<W: Write>(f: &mut Formatter<W>, text: &str, lines: bool) -> fmt::Result
    ensures { WritesOnOk W.write_str_gives f.old result (flat_map (written_byte lines) text.now) f.new }
{
    let bytes = text.as_bytes();
    let mut start = 0;
    'bytes: for at in 0..bytes.len() {
        if let Some(written) = written(bytes[at], lines) {
            f.write_str(&text[start..at])?;
            f.write_str(written)?;
            start = at + 1;
        }
    }
    f.write_str(&text[start..])
}

/// A text by its characters alone, whatever it is: within an element or the value of an attribute.
#[derive(Clone, Copy)]
pub struct Escaped<'a>(pub &'a str);

impl fmt::Display for Escaped<'_> {
    ghost use Rattle.std.specs.Prelude.{Some};
    ghost use Rattle.html_sheets.specs.Escapes.{escaped};

    ghost output = { λ text. Some (escaped text.0.now) };

    fn fmt<W: fmt::Write>(&self, f: &mut fmt::Formatter<W>) -> fmt::Result {
        write_escaped(f, self.0, false)
    }
}

/// A text of several lines, each by its characters alone.
#[derive(Clone, Copy)]
pub(crate) struct Lined<'a>(pub(crate) &'a str);

impl fmt::Display for Lined<'_> {
    ghost use Rattle.std.specs.Prelude.{Some};
    ghost use Rattle.html_sheets.specs.Escapes.{lined};

    ghost output = { λ text. Some (lined text.0.now) };

    fn fmt<W: fmt::Write>(&self, f: &mut fmt::Formatter<W>) -> fmt::Result {
        write_escaped(f, self.0, true)
    }
}
