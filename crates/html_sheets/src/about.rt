//! What a form is filled in with.
use std::fmt;

/// What a form is filled in with, by numbers that a link to it has in its query: from 1 on. There may be no such
/// case, party or deadline.
#[derive(Clone, Copy)]
pub enum About {
    Nothing,
    /// A case by its number.
    Case(u32),
    /// A case, and one of its parties.
    Party(u32, u32),
    /// A case, and one of its deadlines.
    Deadline(u32, u32),
}

impl fmt::Display for About {
    ghost use Rattle.std.specs.Prelude.{Some};
    ghost use Rattle.html_sheets.specs.Entering.{about_text};

    ghost output = { λ about. Some (about_text about) };

    fn fmt<W: fmt::Write>(&self, f: &mut fmt::Formatter<W>) -> fmt::Result {
        match *self {
            About::Nothing => f.write_str(""),
            About::Case(case) => write!(f, "?case={case}"),
            About::Party(case, party) => write!(f, "?case={case}&amp;party={party}"),
            About::Deadline(case, deadline) => write!(f, "?case={case}&amp;deadline={deadline}"),
        }
    }
}
