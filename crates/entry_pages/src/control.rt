//! The control of a field.
ghost use Rattle.std.specs.Prelude.{◌≡◌, ◌++◌, OnOk, string_bytes};
ghost use Rattle.command_forms.specs.Entered.{type_of_input};
ghost use Rattle.entry_pages.specs.Controls.{attributes_of, state_of, line_told, control_told};

use crate::choice::{choices_of, push_select};
use command_forms::Input;
use html_sheets::Escaped;
use std::alloc::AllocError;
use std::fmt;

/// The attributes of a line in which a value is written.
fn attributes_of(input: Input) -> &'static str
    ensures { result.now ≡ attributes_of (type_of_input input) }
{
    match input {
        Input::Number => " inputmode=\"numeric\" pattern=\"[0-9]{1,10}\"",
        Input::Day => " type=\"date\" min=\"2000-01-01\" max=\"2099-12-31\"",
        Input::Moment =>
            " pattern=\"[0-9]{4}-[0-9]{2}-[0-9]{2}T[0-9]{2}:[0-9]{2}[+\\-][0-9]{2}:00\" placeholder=\"2025-11-01T17:00-05:00\"",
        Input::TimeOfDay => " type=\"time\"",
        _ => "",
    }
}

/// How a field stands in its form.
#[derive(Clone, Copy)]
pub(crate) struct State<'a> {
    /// Its name.
    pub(crate) name: &'a str,
    /// It must be there.
    pub(crate) needed: bool,
    /// What was said is about it.
    pub(crate) marked: bool,
    /// It has a hint.
    pub(crate) hinted: bool,
}

impl fmt::Display for State<'_> {
    ghost use Rattle.std.specs.Prelude.{Some};
    ghost use Rattle.entry_pages.specs.Controls.{state_of};

    ghost output = { λ state. Some (state_of state) };

    fn fmt<W: fmt::Write>(&self, f: &mut fmt::Formatter<W>) -> fmt::Result {
        let name = self.name;
        let required = if self.needed { " required" } else { "" };
        match (self.marked, self.hinted) {
            (true, true) => write!(
                f,
                "{required} aria-invalid=\"true\" aria-describedby=\"said {name}-hint\""
            ),
            (true, false) => write!(
                f,
                "{required} aria-invalid=\"true\" aria-describedby=\"said\""
            ),
            (false, true) => write!(f, "{required} aria-describedby=\"{name}-hint\""),
            (false, false) => f.write_str(required),
        }
    }
}

/// A line in which a value is written.
#[derive(Clone, Copy)]
struct Line<'a> {
    attributes: &'a str,
    state: State<'a>,
    value: &'a str,
}

impl fmt::Display for Line<'_> {
    ghost use Rattle.std.specs.Prelude.{Some};
    ghost use Rattle.entry_pages.specs.Controls.{line_told, state_of};

    ghost output = { λ line. Some (line_told line.attributes.now line.state.name.now line.value.now (state_of line.state)) };

    fn fmt<W: fmt::Write>(&self, f: &mut fmt::Formatter<W>) -> fmt::Result {
        let attributes = self.attributes;
        let state = self.state;
        let name = state.name;
        let value = Escaped(self.value);
        write!(
            f,
            "<input{attributes} id=\"{name}\" name=\"{name}\" value=\"{value}\"{state}>"
        )
    }
}

fn push_line(
    text: &mut String,
    attributes: &str,
    state: State,
    value: &str,
) -> Result<(), AllocError>
    ensures { OnOk result (string_bytes text.new ≡ string_bytes text.old ++ line_told attributes.now state.entry.name.now value.now (state_of state.entry)) }
{
    let line = Line {
        attributes,
        state,
        value,
    };
    write!(text, "{line}")
}

/// Adds the control of a field.
pub(crate) fn push_control(
    text: &mut String,
    input: Input,
    state: State,
    value: &str,
) -> Result<(), AllocError>
    ensures { OnOk result (string_bytes text.new ≡ string_bytes text.old ++ control_told (type_of_input input) state.entry.name.now value.now (state_of state.entry)) }
{
    let choices = choices_of(input);
    if choices.len() == 0 {
        push_line(text, attributes_of(input), state, value)
    } else {
        push_select(text, choices, state, value)
    }
}
