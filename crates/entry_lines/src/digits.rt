//! Texts that are numbers, and texts that are names.
ghost use Rattle.std.specs.Prelude.{◌≡◌};
ghost use Rattle.entry_lines.specs.Names.{is_name, case_spelled};

use command_forms::read_digits;

/// Whether the text is a name: not empty, and no number.
pub(crate) fn is_name(text: &str) -> bool
    ensures { result ≡ is_name text.now }
{
    !text.is_empty() && read_digits(text.as_bytes()).is_none()
}

/// The number of a case that digits spell. Any other text spells 0, the number of no case.
pub(crate) fn case_spelled(text: &str) -> u32
    ensures { result ≡ case_spelled text.now }
{
    match read_digits(text.as_bytes()) {
        Some(number) if number < 4_294_967_296 => number as u32,
        _ => 0,
    }
}
