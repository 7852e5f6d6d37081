//! The hint of a field.
ghost use Rattle.std.specs.Prelude.{◌≡◌, ◌++◌, OnOk, string_bytes};
ghost use Rattle.command_forms.specs.Entered.{type_of_input};
ghost use Rattle.entry_pages.specs.Hints.{party_hint, days_hint, field_hint, own_hint, hint_words, hint_of, is_hinted, hint_told};

use command_forms::Input;
use docket_command::{CommandName, Field};
use std::alloc::AllocError;
use std::fmt;

fn party_hint(kind: CommandName) -> &'static str
    ensures { result.now ≡ party_hint kind }
{
    match kind {
        CommandName::OrderPeriod => "Its number on the docket sheet; 0 is every party.",
        CommandName::Dispose => "Only where the court orders a more definite statement.",
        _ => "Its number on the docket sheet.",
    }
}

fn days_hint(kind: CommandName) -> &'static str
    ensures { result.now ≡ days_hint kind }
{
    match kind {
        CommandName::Extend => "Either days or a last day.",
        _ => "",
    }
}

fn field_hint(kind: CommandName, field: Field) -> &'static str
    ensures { result.now ≡ field_hint kind field }
{
    match field {
        Field::Case => "Its number here, not the docket number.",
        Field::Party => party_hint(kind),
        Field::Close => "Before the usual closing.",
        Field::Attorney => "Only for an officer sued individually.",
        Field::AttorneyMethod => "Only for an officer sued individually.",
        Field::Allowed => "At least 30, and 60 outside the United States.",
        Field::Deadline => "Its number on the docket sheet.",
        Field::Unit =>
            "Days and months want the day from which to count, hours the time; all three want how many and the direction. A day wants the last day alone.",
        Field::Discharged => "Where the jury was discharged without a verdict on an issue.",
        Field::Days => days_hint(kind),
        Field::Rule => "Its name, which begins with LR.",
        _ => "",
    }
}

fn own_hint(kind: CommandName, field: Field, input: Input) -> &'static str
    ensures { result.now ≡ own_hint kind field (type_of_input input) }
{
    match input {
        Input::Moment => "As 2025-11-01T17:00-05:00, with the court's offset on that day.",
        _ => field_hint(kind, field),
    }
}

/// The hint of a field, which may be empty.
#[derive(Clone, Copy)]
pub(crate) struct Hint {
    /// What is said of the field itself.
    own: &'static str,
    /// The field must be there.
    needed: bool,
}

impl fmt::Display for Hint {
    ghost use Rattle.std.specs.Prelude.{Some};
    ghost use Rattle.entry_pages.specs.Hints.{hint_words};

    ghost output = { λ hint. Some (hint_words hint.own.now hint.needed) };

    fn fmt<W: fmt::Write>(&self, f: &mut fmt::Formatter<W>) -> fmt::Result {
        let own = self.own;
        match (self.needed, own.is_empty()) {
            (true, _) => f.write_str(own),
            (false, true) => f.write_str("May be left empty."),
            (false, false) => write!(f, "{own} May be left empty."),
        }
    }
}

impl Hint {
    /// Returns whether there is a hint.
    pub(crate) fn is_told(self) -> bool
        ensures { result ≡ is_hinted (hint_words self.own.now self.needed) }
    {
        !self.needed || !self.own.is_empty()
    }
}

/// The hint of a field of a kind.
pub(crate) fn hint_of(kind: CommandName, field: Field, input: Input, needed: bool) -> Hint
    ensures { hint_words result.own.now result.needed ≡ hint_of kind field (type_of_input input) needed }
{
    let own = own_hint(kind, field, input);
    Hint { own, needed }
}

/// Adds the hint of a field of that name, if there is one.
pub(crate) fn push_hint(text: &mut String, name: &str, hint: Hint) -> Result<(), AllocError>
    ensures { OnOk result (string_bytes text.new ≡ string_bytes text.old ++ hint_told name.now (hint_words hint.own.now hint.needed)) }
{
    if !hint.is_told() {
        return Ok(());
    }
    write!(
        text,
        "<span id=\"{name}-hint\" class=\"hint\">{hint}</span>"
    )
}
