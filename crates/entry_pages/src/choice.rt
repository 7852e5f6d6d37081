//! The choices of a control.
ghost use Rattle.std.specs.Prelude.{◌≡◌, ◌++◌, codes, map, OnOk, string_bytes};
ghost use Rattle.std.specs.List.{flat_map};
ghost use Rattle.command_forms.specs.Entered.{type_of_input};
ghost use Rattle.entry_pages.specs.Controls.{choices_of, option_told, select_head, state_of};

use crate::control::State;
use command_forms::Input;
use std::alloc::AllocError;
use std::fmt;

/// A value that may be chosen, and its words.
pub(crate) type Choice = (&'static str, &'static str);

/// The values from which one is chosen, if it is.
pub(crate) fn choices_of(input: Input) -> &'static [Choice]
    ensures { map (λ choice. (choice.0.now, choice.1.now)) result.now ≡ choices_of (type_of_input input) }
{
    match input {
        Input::Flag => &[("true", "yes"), ("false", "no")],
        Input::Basis => &[
            ("private", "a private party"),
            (
                "united_states",
                "the United States, or sued in an official capacity",
            ),
            ("officer", "an officer or employee sued individually"),
        ],
        Input::Direction => &[("forward", "forward"), ("backward", "backward")],
        Input::MotionKind => &[
            ("b", "Rule 12(b)"),
            ("e", "Rule 12(e)"),
            ("f", "Rule 12(f)"),
        ],
        Input::PeriodUnit => &[
            ("days", "days"),
            ("months", "months"),
            ("hours", "hours"),
            ("fixed", "a day"),
        ],
        Input::PleadingKind => &[
            ("counterclaim", "counterclaim"),
            ("crossclaim", "crossclaim"),
            ("unanswered", "one that allows no response"),
        ],
        Input::Role => &[
            ("plaintiff", "plaintiff"),
            ("defendant", "defendant"),
            ("other", "other"),
        ],
        Input::Ruling => &[
            ("denied", "denied"),
            ("postponed", "postponed until trial"),
            ("statement", "a more definite statement is ordered"),
        ],
        Input::ServiceMethod => &[
            ("A", "(A) handing it to the person"),
            ("B", "(B) leaving it at the office or home"),
            ("C", "(C) mail"),
            ("D", "(D) leaving it with the clerk"),
            ("E", "(E) electronic"),
            ("F", "(F) other means consented to"),
        ],
        Input::Sovereign => &[
            ("federal", "the President or Congress"),
            ("state", "the state"),
        ],
        Input::Way => &[
            ("electronic", "electronically"),
            ("office", "at the office"),
        ],
        Input::Number | Input::Day | Input::Moment | Input::TimeOfDay | Input::Text | Input::Rows =>
            &[],
    }
}

/// A value among others, made where it is the value of the field.
#[derive(Clone, Copy)]
struct Offered<'a> {
    value: &'a str,
    choice: &'a str,
    words: &'a str,
}

impl fmt::Display for Offered<'_> {
    ghost use Rattle.std.specs.Prelude.{Some};
    ghost use Rattle.entry_pages.specs.Controls.{option_told};

    ghost output = { λ offered. Some (option_told offered.value.now (offered.choice.now, offered.words.now)) };

    fn fmt<W: fmt::Write>(&self, f: &mut fmt::Formatter<W>) -> fmt::Result {
        let choice = self.choice;
        let words = self.words;
        let selected = if choice == self.value {
            " selected"
        } else {
            ""
        };
        write!(f, "<option value=\"{choice}\"{selected}>{words}</option>")
    }
}

/// Adds a value that may be chosen.
fn push_option(text: &mut String, value: &str, choice: &Choice) -> Result<(), AllocError>
    ensures { OnOk result (string_bytes text.new ≡ string_bytes text.old ++ option_told value.now (choice.now.0.now, choice.now.1.now)) }
{
    let (choice, words) = *choice;
    let offered = Offered {
        value,
        choice,
        words,
    };
    write!(text, "{offered}")
}

fn push_options(text: &mut String, value: &str, choices: &[Choice]) -> Result<(), AllocError>
    ensures { OnOk result (string_bytes text.new ≡ string_bytes text.old ++ flat_map (λ choice. option_told value.now (choice.0.now, choice.1.now)) choices.now) }
{
    for choice in choices {
        push_option(text, value, choice)?;
    }
    Ok(())
}

fn push_select_head(text: &mut String, state: State) -> Result<(), AllocError>
    ensures { OnOk result (string_bytes text.new ≡ string_bytes text.old ++ select_head state.entry.name.now (state_of state.entry)) }
{
    let name = state.name;
    write!(
        text,
        "<select id=\"{name}\" name=\"{name}\"{state}><option value=\"\"></option>"
    )
}

/// Adds a choice among values.
pub(crate) fn push_select(
    text: &mut String,
    choices: &[Choice],
    state: State,
    value: &str,
) -> Result<(), AllocError>
    ensures { OnOk result (string_bytes text.new ≡ string_bytes text.old
        ++ (select_head state.entry.name.now (state_of state.entry) ++ (flat_map (λ choice. option_told value.now (choice.0.now, choice.1.now)) choices.now ++ codes "</select>"))) }
{
    push_select_head(text, state)?;
    push_options(text, value, choices)?;
    text.push_str("</select>")
}
