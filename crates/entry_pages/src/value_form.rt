//! How a value is written on a command line.
ghost use Rattle.std.specs.Prelude.{◌≡◌, ◌∷◌, ◌++◌, map, OnOk, string_bytes};
ghost use Rattle.std.specs.List.{flat_map};
ghost use Rattle.docket_command.specs.Schema.{field_of, type_of};
ghost use Rattle.command_forms.specs.Entered.{spec_of, type_of_input};
ghost use Rattle.entry_pages.specs.ValueForms.{type_among, type_in, value_name, next_word, words_of, value_form};

use crate::choice::{Choice, choices_of};
use command_forms::{Entered, Input, entered_of};
use docket_command::{CommandName, Field};
use std::alloc::AllocError;

pub(crate) fn field_in(entered: Entered) -> Field
    ensures { result ≡ field_of (spec_of entered) }
{
    match entered {
        Entered::Must(field, _) => field,
        Entered::May(field, _) => field,
    }
}

pub(crate) fn input_in(entered: Entered) -> Input
    ensures { type_of_input result ≡ type_of (spec_of entered) }
{
    match entered {
        Entered::Must(_, input) => input,
        Entered::May(_, input) => input,
    }
}

fn input_among(field: Field, fields: &[Entered]) -> Input
    ensures { type_of_input result ≡ type_among field (map spec_of fields.now) }
{
    for entered in fields {
        if field_in(*entered).name() == field.name() {
            return input_in(*entered);
        }
    }
    Input::Text
}

/// How a field of a kind is entered, which is as a text where the kind has no such field.
pub(crate) fn input_of(kind: CommandName, field: Field) -> Input
    ensures { type_of_input result ≡ type_in kind field }
{
    input_among(field, entered_of(kind))
}

/// What stands for the value behind an option. A flag has none.
pub(crate) fn value_name(input: Input) -> &'static str
    ensures { result.now ≡ value_name (type_of_input input) }
{
    match input {
        Input::Number => " NUMBER",
        Input::Day => " DAY",
        Input::Moment => " MOMENT",
        Input::TimeOfDay => " HH:MM",
        Input::Flag => "",
        Input::Text => " TEXT",
        Input::Rows => " ROWS",
        _ => " WORD",
    }
}

fn push_next(text: &mut String, choice: &Choice) -> Result<(), AllocError>
    ensures { OnOk result (string_bytes text.new ≡ string_bytes text.old ++ next_word (choice.now.0.now, choice.now.1.now)) }
{
    let (word, _) = *choice;
    write!(text, ", {word}")
}

fn push_rest(text: &mut String, choices: &[Choice]) -> Result<(), AllocError>
    ensures { OnOk result (string_bytes text.new ≡ string_bytes text.old ++ flat_map (λ choice. next_word (choice.0.now, choice.1.now)) choices.now) }
{
    for choice in choices {
        push_next(text, choice)?;
    }
    Ok(())
}

fn push_some(text: &mut String, first: &Choice, rest: &[Choice]) -> Result<(), AllocError>
    ensures { OnOk result (string_bytes text.new ≡ string_bytes text.old ++ words_of (map (λ choice. (choice.0.now, choice.1.now)) (first.now ∷ rest.now))) }
{
    let (word, _) = *first;
    write!(text, "one of {word}")?;
    push_rest(text, rest)
}

/// Adds the words of choices.
fn push_words(text: &mut String, choices: &[Choice]) -> Result<(), AllocError>
    ensures { OnOk result (string_bytes text.new ≡ string_bytes text.old ++ words_of (map (λ choice. (choice.0.now, choice.1.now)) choices.now)) }
{
    match choices.split_first() {
        Some((first, rest)) => push_some(text, first, rest),
        None => Ok(()),
    }
}

/// Adds the form of a value.
pub(crate) fn push_form(text: &mut String, input: Input) -> Result<(), AllocError>
    ensures { OnOk result (string_bytes text.new ≡ string_bytes text.old ++ value_form (type_of_input input)) }
{
    match input {
        Input::Number => text.push_str("a number, at most 4294967295"),
        Input::Day => text.push_str("a day, as 2026-06-02"),
        Input::Moment => text.push_str(
            "a moment, as 2025-11-01T17:00-05:00, with the court's offset on that day",
        ),
        Input::TimeOfDay => text.push_str("a time of day, as 17:00"),
        Input::Text => text.push_str("a text"),
        Input::Rows => text.push_str("a table of days, by docketctl import"),
        _ => push_words(text, choices_of(input)),
    }
}
