//! A field of a form.
ghost use Rattle.std.specs.Prelude.{◌≡◌, ◌++◌, OnOk, string_bytes};
ghost use Rattle.std.specs.List.{flat_map};
ghost use Rattle.docket_command.specs.Schema.{fields_of};
ghost use Rattle.command_forms.specs.Entered.{spec_of, type_of_input};
ghost use Rattle.command_forms.specs.Forms.{texts_of};
ghost use Rattle.entry_pages.specs.Forms.{field_told, field_with, label_told};
ghost use Rattle.entry_pages.specs.Saying.{saying_of};

use crate::control::{State, push_control};
use crate::hint::{hint_of, push_hint};
use crate::label::label_of;
use crate::pair::text_in;
use crate::said::{Said, is_marked};
use command_forms::{Entered, Input, Pair, entered_of};
use docket_command::{CommandName, Field};
use std::alloc::AllocError;

fn push_label(text: &mut String, name: &str, words: &str) -> Result<(), AllocError>
    ensures { OnOk result (string_bytes text.new ≡ string_bytes text.old ++ label_told name.now words.now) }
{
    write!(text, "<p><label for=\"{name}\">{words}</label>")
}

/// Adds a field that is needed or not.
fn push_with(
    text: &mut String,
    kind: CommandName,
    pairs: &[Pair],
    said: Said<'_>,
    field: Field,
    input: Input,
    needed: bool,
) -> Result<(), AllocError>
    ensures { OnOk result (string_bytes text.new ≡ string_bytes text.old ++ field_with kind (texts_of pairs.now) (saying_of said.entry) field (type_of_input input) needed) }
{
    let name = field.name();
    let hint = hint_of(kind, field, input, needed);
    let state = State {
        name,
        needed,
        marked: is_marked(said, field),
        hinted: hint.is_told(),
    };
    push_label(text, name, label_of(kind, field))?;
    push_control(text, input, state, text_in(name, pairs))?;
    push_hint(text, name, hint)?;
    text.push_str("</p>\n")?;
    Ok(())
}

/// Adds a field, filled in.
fn push_field(
    text: &mut String,
    kind: CommandName,
    pairs: &[Pair],
    said: Said<'_>,
    entered: Entered,
) -> Result<(), AllocError>
    ensures { OnOk result (string_bytes text.new ≡ string_bytes text.old ++ field_told kind (texts_of pairs.now) (saying_of said.entry) (spec_of entered)) }
{
    match entered {
        Entered::Must(field, input) => push_with(text, kind, pairs, said, field, input, true),
        Entered::May(field, input) => push_with(text, kind, pairs, said, field, input, false),
    }
}

fn push_each(
    text: &mut String,
    kind: CommandName,
    pairs: &[Pair],
    said: Said<'_>,
    fields: &[Entered],
) -> Result<(), AllocError>
    ensures { OnOk result (string_bytes text.new ≡ string_bytes text.old ++ flat_map (λ e. field_told kind (texts_of pairs.now) (saying_of said.entry) (spec_of e)) fields.now) }
{
    for field in fields {
        push_field(text, kind, pairs, said, *field)?;
    }
    Ok(())
}

/// Adds each field of the kind.
pub(crate) fn push_fields(
    text: &mut String,
    kind: CommandName,
    pairs: &[Pair],
    said: Said<'_>,
) -> Result<(), AllocError>
    ensures { OnOk result (string_bytes text.new ≡ string_bytes text.old ++ flat_map (field_told kind (texts_of pairs.now) (saying_of said.entry)) (fields_of kind)) }
{
    push_each(text, kind, pairs, said, entered_of(kind))
}
