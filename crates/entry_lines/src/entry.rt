//! A command that a person enters in words, and what becomes of it.

use command_forms::FieldText;
use docket_command::{CommandName, Field};
use docket_questions::Foreseen;
use docket_wire::WireFault;

/// A command as a person gives it.
#[derive(Clone, Copy)]
pub struct Entry<'e> {
    pub kind: CommandName,
    /// Its key. One is made where none is given.
    pub key: Option<&'e str>,
    /// The texts of its fields. A case may stand there by its label, and a party by its name.
    pub given: &'e [FieldText<'e>],
    /// The time by the clock, in seconds since 1970-01-01T00:00Z. Its day is part of a key that is made.
    pub clock: i64,
}

/// Why a name names nothing.
#[derive(Clone, Copy)]
pub enum Unnamed {
    /// No case has the label.
    NoCase,
    /// The name of no party of the case fits.
    NoParty(Field),
    /// The names of several parties fit. These are the first two.
    SeveralParties(Field, u32, u32),
}

/// What a line would do.
#[derive(Drop)]
pub enum Would {
    /// It is no command.
    Faulty(WireFault),
    /// It is a command, which would do this.
    Does(Foreseen),
}

/// A command that is ready to be entered, or a name that stands in its way.
#[derive(Drop)]
pub enum Prepared {
    Unnamed(Unnamed),
    /// The line that `run` would read, without a line feed, and what it would do.
    Line(String, Would),
}
