//! An example of each kind of command.
ghost use Rattle.std.specs.Prelude.{◌≡◌, ◌++◌, [], ◌∷◌, IfOk, OnOk, codes, string_bytes};
ghost use Rattle.std.specs.List.{flat_map};
ghost use Rattle.docket_command.specs.Fields.{field_name};
ghost use Rattle.docket_command.specs.Schema.{fields_of};
ghost use Rattle.command_forms.specs.Entered.{spec_of, type_of_input};
ghost use Rattle.docket_wire.specs.Reading.{command_in};
ghost use Rattle.command_forms.specs.Forms.{texts_of, command_of_pairs};
ghost use Rattle.entry_pages.specs.Examples.{kind_example, name_example, start_example, at_example, party_example, method_example, example_of, given_pair, example_pair, example_pairs, example_line, flag_option, plain_option, text_option, option_with, example_option, example_options};

use crate::value_form::{field_in, input_in};
use command_forms::{Entered, Input, Pair, command_line, entered_of};
use docket_command::{CommandName, Field, Word};
use std::alloc::{AllocError, Global};

fn kind_example(kind: CommandName) -> &'static str
    ensures { result.now ≡ kind_example kind }
{
    match kind {
        CommandName::DeclareDay => "state",
        CommandName::ServePleading => "counterclaim",
        _ => "b",
    }
}

fn name_example(kind: CommandName) -> &'static str
    ensures { result.now ≡ name_example kind }
{
    match kind {
        CommandName::AddParty => "Doe",
        CommandName::LocalRule => "LR7.1",
        CommandName::DeclareDay => "Founders' Day",
        _ => "Storm",
    }
}

fn start_example(kind: CommandName) -> &'static str
    ensures { result.now ≡ start_example kind }
{
    match kind {
        CommandName::CloseSpan => "2026-06-02T09:00-04:00",
        _ => "2026-06-02",
    }
}

fn at_example(kind: CommandName) -> &'static str
    ensures { result.now ≡ at_example kind }
{
    match kind {
        CommandName::OrderPeriod => "",
        _ => "2026-06-02T17:00-04:00",
    }
}

fn party_example(kind: CommandName) -> &'static str
    ensures { result.now ≡ party_example kind }
{
    match kind {
        CommandName::Dispose => "",
        _ => "2",
    }
}

fn method_example(kind: CommandName) -> &'static str
    ensures { result.now ≡ method_example kind }
{
    match kind {
        CommandName::OrderPeriod => "",
        CommandName::LocalPeriod => "",
        _ => "C",
    }
}

/// The value of a field in the example of a kind, which is empty where the field is left out.
fn example_of(kind: CommandName, field: Field) -> &'static str
    ensures { result.now ≡ example_of kind field }
{
    match field {
        Field::Day => "2026-06-02",
        Field::Kind => kind_example(kind),
        Field::Close => "12:00",
        Field::Name => name_example(kind),
        Field::Start => start_example(kind),
        Field::End => "2026-06-02T12:00-04:00",
        Field::Row => "1",
        Field::Label => "1:26-cv-00001",
        Field::Caption => "Roe v. Doe",
        Field::Filed => "2026-06-02",
        Field::Case => "1",
        Field::Role => "defendant",
        Field::Text => "Complaint",
        Field::Party => party_example(kind),
        Field::Basis => "private",
        Field::Served => "2026-06-02",
        Field::Sent => "2026-06-02",
        Field::Allowed => "30",
        Field::Returned => "2026-06-30",
        Field::Abroad => "false",
        Field::Method => method_example(kind),
        Field::Deadline => "1",
        Field::Outcome => "denied",
        Field::Notice => "2026-06-02",
        Field::Opponent => "1",
        Field::Hearing => "2026-06-30",
        Field::Unit => "days",
        Field::At => at_example(kind),
        Field::Count => "10",
        Field::Direction => "forward",
        Field::Entered => "2026-06-02",
        Field::Neglect => "false",
        Field::Days => "14",
        Field::Way => "electronic",
        Field::Three => "true",
        Field::Extendable => "true",
        Field::Rule => "LR7.1",
        _ => "",
    }
}

fn push_pair(alloc: Global, pairs: &mut Vec<Pair>, name: &str, text: &str) -> Result<(), AllocError>
    ensures { OnOk result (texts_of pairs.new.items ≡ texts_of pairs.old.items ++ (name.now, text.now) ∷ []) }
{
    let name = String::from_str(alloc, name)?;
    let text = String::from_str(alloc, text)?;
    pairs.push(Pair { name, text })?;
    Ok(())
}

/// Adds a pair, where its text is not empty.
fn push_given(
    alloc: Global,
    pairs: &mut Vec<Pair>,
    name: &str,
    text: &str,
) -> Result<(), AllocError>
    ensures { OnOk result (texts_of pairs.new.items ≡ texts_of pairs.old.items ++ given_pair name.now text.now) }
{
    if text.is_empty() {
        return Ok(());
    }
    push_pair(alloc, pairs, name, text)
}

fn push_each(
    alloc: Global,
    pairs: &mut Vec<Pair>,
    kind: CommandName,
    fields: &[Entered],
) -> Result<(), AllocError>
    ensures { OnOk result (texts_of pairs.new.items ≡ texts_of pairs.old.items ++ flat_map (λ e. example_pair kind (spec_of e)) fields.now) }
{
    for entered in fields {
        let field = field_in(*entered);
        push_given(alloc, pairs, field.name(), example_of(kind, field))?;
    }
    Ok(())
}

/// The pairs of the example of a kind.
fn example_pairs(alloc: Global, kind: CommandName) -> Result<Vec<Pair>, AllocError>
    ensures { IfOk result (λ pairs. texts_of pairs.items ≡ example_pairs kind) }
{
    let mut pairs = Vec::new(alloc);
    push_pair(alloc, &mut pairs, "do", kind.word())?;
    push_pair(alloc, &mut pairs, "key", "k1")?;
    push_each(alloc, &mut pairs, kind, entered_of(kind))?;
    Ok(pairs)
}

/// The example of a kind as a line for `docketctl run`, without a line feed.
#[tactic(auto, unfolding(crate::specs::Examples::example_line))]
pub(crate) fn example_line(alloc: Global, kind: CommandName) -> Result<String, AllocError>
    ensures text { IfOk result (λ line. string_bytes line ≡ example_line kind) }
    ensures reads { IfOk result (λ line. command_in (string_bytes line) ≡ command_of_pairs (example_pairs kind)) }
{
    let pairs = example_pairs(alloc, kind)?;
    command_line(alloc, &pairs)
}

fn push_flag(text: &mut String, name: &str, value: &str) -> Result<(), AllocError>
    ensures { OnOk result (string_bytes text.new ≡ string_bytes text.old ++ flag_option name.now value.now) }
{
    if value == "true" {
        return write!(text, " --{name}");
    }
    Ok(())
}

fn push_plain(text: &mut String, name: &str, value: &str) -> Result<(), AllocError>
    ensures { OnOk result (string_bytes text.new ≡ string_bytes text.old ++ plain_option name.now value.now) }
{
    if value.is_empty() {
        return Ok(());
    }
    write!(text, " --{name} {value}")
}

fn push_text(text: &mut String, name: &str, value: &str) -> Result<(), AllocError>
    ensures { OnOk result (string_bytes text.new ≡ string_bytes text.old ++ text_option name.now value.now) }
{
    if value.is_empty() {
        return Ok(());
    }
    write!(text, " --{name} \"{value}\"")
}

fn push_option(text: &mut String, input: Input, name: &str, value: &str) -> Result<(), AllocError>
    ensures { OnOk result (string_bytes text.new ≡ string_bytes text.old ++ option_with (type_of_input input) name.now value.now) }
{
    match input {
        Input::Flag => push_flag(text, name, value),
        Input::Text => push_text(text, name, value),
        _ => push_plain(text, name, value),
    }
}

fn push_field(text: &mut String, kind: CommandName, entered: Entered) -> Result<(), AllocError>
    ensures { OnOk result (string_bytes text.new ≡ string_bytes text.old ++ example_option kind (spec_of entered)) }
{
    let field = field_in(entered);
    push_option(
        text,
        input_in(entered),
        field.name(),
        example_of(kind, field),
    )
}

fn push_options_of(
    text: &mut String,
    kind: CommandName,
    fields: &[Entered],
) -> Result<(), AllocError>
    ensures { OnOk result (string_bytes text.new ≡ string_bytes text.old ++ flat_map (λ e. example_option kind (spec_of e)) fields.now) }
{
    for entered in fields {
        push_field(text, kind, *entered)?;
    }
    Ok(())
}

/// Adds the example of a kind as options.
pub(crate) fn push_example_options(text: &mut String, kind: CommandName) -> Result<(), AllocError>
    ensures { OnOk result (string_bytes text.new ≡ string_bytes text.old ++ example_options kind) }
{
    push_options_of(text, kind, entered_of(kind))
}
