//! The kinds of commands, and the fields of one, for a terminal.
ghost use Rattle.std.specs.Prelude.{◌≡◌, ◌++◌, codes, map, IfOk, OnOk, string_bytes};
ghost use Rattle.std.specs.List.{flat_map};
ghost use Rattle.docket_command.specs.Schema.{fields_of};
ghost use Rattle.command_forms.specs.Entered.{spec_of, type_of_input};
ghost use Rattle.entry_pages.specs.CommandList.{blanks, kind_line, group_lines, kind_list, option_column, limit_line, choice_line, words_told, choice_lines, needed_words, lines_with, field_lines, kind_head, example_told, kind_told, kind_text, commands_text};

use crate::choice::{Choice, choices_of};
use crate::example::{example_line, push_example_options};
use crate::kinds::{Group, groups};
use crate::label::label_of;
use crate::limit::limit_of;
use crate::value_form::value_name;
use command_forms::{Entered, Input, entered_of};
use docket_command::{CommandName, Field, Word};
use html_sheets::title_of;
use std::alloc::{AllocError, Global};

fn push_blanks(text: &mut String, count: usize) -> Result<(), AllocError>
    ensures { OnOk result (string_bytes text.new ≡ string_bytes text.old ++ blanks count) }
{
    let mut done = 0;
    while done < count {
        text.push_str(" ")?;
        done += 1;
    }
    Ok(())
}

fn push_kind(text: &mut String, kind: CommandName) -> Result<(), AllocError>
    ensures { OnOk result (string_bytes text.new ≡ string_bytes text.old ++ kind_line kind) }
{
    let word = kind.word();
    let title = title_of(kind);
    write!(text, "  {word}")?;
    push_blanks(text, 19usize.saturating_sub(word.len()))?;
    write!(text, "{title}\n")
}

fn push_all(text: &mut String, kinds: &[CommandName]) -> Result<(), AllocError>
    ensures { OnOk result (string_bytes text.new ≡ string_bytes text.old ++ flat_map kind_line kinds.now) }
{
    for kind in kinds {
        push_kind(text, *kind)?;
    }
    Ok(())
}

/// Adds some kinds under a heading.
fn push_group(text: &mut String, group: &Group) -> Result<(), AllocError>
    ensures { OnOk result (string_bytes text.new ≡ string_bytes text.old ++ group_lines (group.now.0.now, group.now.1.now)) }
{
    let (heading, kinds) = *group;
    write!(text, "\n{heading}\n")?;
    push_all(text, kinds)
}

fn push_groups(text: &mut String, groups: &[Group]) -> Result<(), AllocError>
    ensures { OnOk result (string_bytes text.new ≡ string_bytes text.old ++ flat_map (λ group. group_lines (group.0.now, group.1.now)) groups.now) }
{
    for group in groups {
        push_group(text, group)?;
    }
    Ok(())
}

#[tactic(auto, unfolding(crate::specs::CommandList::kind_list))]
fn kind_list(alloc: Global) -> Result<String, AllocError>
    ensures { IfOk result (λ text. string_bytes text ≡ kind_list) }
{
    let mut text = String::from_str(
        alloc,
        "Kinds of commands: docketctl commands KIND shows the fields of one, docketctl enter KIND enters it.\n",
    )?;
    push_groups(&mut text, groups())?;
    text.push_str("\nA table of days, which docketctl import takes\n")?;
    push_kind(&mut text, CommandName::ImportCalendar)?;
    Ok(text)
}

/// Adds the option of a field of that name, and what stands for its value.
fn push_option(text: &mut String, name: &str, value: &str) -> Result<(), AllocError>
    ensures { OnOk result (string_bytes text.new ≡ string_bytes text.old ++ option_column name.now value.now) }
{
    write!(text, "  --{name}{value}")?;
    push_blanks(
        text,
        22usize
            .saturating_sub(name.len())
            .saturating_sub(value.len()),
    )
}

/// Adds what the value of a field may be, where it is said.
fn push_limit(text: &mut String, limit: &str) -> Result<(), AllocError>
    ensures { OnOk result (string_bytes text.new ≡ string_bytes text.old ++ limit_line limit.now) }
{
    if limit.is_empty() {
        return Ok(());
    }
    write!(text, "      {limit}\n")
}

fn push_choice(text: &mut String, choice: &Choice) -> Result<(), AllocError>
    ensures { OnOk result (string_bytes text.new ≡ string_bytes text.old ++ choice_line (choice.now.0.now, choice.now.1.now)) }
{
    let (choice, words) = *choice;
    if choice == words {
        return write!(text, "      {choice}\n");
    }
    write!(text, "      {choice}: {words}\n")
}

fn push_each_choice(text: &mut String, choices: &[Choice]) -> Result<(), AllocError>
    ensures { OnOk result (string_bytes text.new ≡ string_bytes text.old ++ flat_map (λ choice. choice_line (choice.0.now, choice.1.now)) choices.now) }
{
    for choice in choices {
        push_choice(text, choice)?;
    }
    Ok(())
}

/// The words of a type that are told. A flag has none.
fn words_told(input: Input) -> &'static [Choice]
    ensures { map (λ choice. (choice.0.now, choice.1.now)) result.now ≡ words_told (type_of_input input) }
{
    match input {
        Input::Flag => &[],
        _ => choices_of(input),
    }
}

/// Adds the words of a type that has some, each with what it means.
fn push_choices(text: &mut String, input: Input) -> Result<(), AllocError>
    ensures { OnOk result (string_bytes text.new ≡ string_bytes text.old ++ choice_lines (type_of_input input)) }
{
    push_each_choice(text, words_told(input))
}

fn push_label(text: &mut String, label: &str, needed: bool) -> Result<(), AllocError>
    ensures { OnOk result (string_bytes text.new ≡ string_bytes text.old ++ (label.now ++ (needed_words needed ++ codes "\n"))) }
{
    let words = if needed { "" } else { " (may be left out)" };
    write!(text, "{label}{words}\n")
}

/// Adds a field that is needed or not.
fn push_with(
    text: &mut String,
    kind: CommandName,
    field: Field,
    input: Input,
    needed: bool,
) -> Result<(), AllocError>
    ensures { OnOk result (string_bytes text.new ≡ string_bytes text.old ++ lines_with kind field (type_of_input input) needed) }
{
    push_option(text, field.name(), value_name(input))?;
    push_label(text, label_of(kind, field), needed)?;
    push_limit(text, limit_of(kind, field))?;
    push_choices(text, input)
}

fn push_field(text: &mut String, kind: CommandName, entered: Entered) -> Result<(), AllocError>
    ensures { OnOk result (string_bytes text.new ≡ string_bytes text.old ++ field_lines kind (spec_of entered)) }
{
    match entered {
        Entered::Must(field, input) => push_with(text, kind, field, input, true),
        Entered::May(field, input) => push_with(text, kind, field, input, false),
    }
}

fn push_each_field(
    text: &mut String,
    kind: CommandName,
    fields: &[Entered],
) -> Result<(), AllocError>
    ensures { OnOk result (string_bytes text.new ≡ string_bytes text.old ++ flat_map (λ e. field_lines kind (spec_of e)) fields.now) }
{
    for field in fields {
        push_field(text, kind, *field)?;
    }
    Ok(())
}

/// Adds each field of the kind.
fn push_fields(text: &mut String, kind: CommandName) -> Result<(), AllocError>
    ensures { OnOk result (string_bytes text.new ≡ string_bytes text.old ++ flat_map (field_lines kind) (fields_of kind)) }
{
    push_each_field(text, kind, entered_of(kind))
}

fn kind_head(alloc: Global, kind: CommandName) -> Result<String, AllocError>
    ensures { IfOk result (λ text. string_bytes text ≡ kind_head kind) }
{
    let word = kind.word();
    let title = title_of(kind);
    format!(in alloc; "{word}: {title}\n\n")
}

/// Adds the example of a kind, by `docketctl enter` and as the line that is given.
fn push_example(text: &mut String, kind: CommandName, line: &str) -> Result<(), AllocError>
    ensures { OnOk result (string_bytes text.new ≡ string_bytes text.old ++ example_told kind line.now) }
{
    let word = kind.word();
    write!(
        text,
        "\nAn example, and the same as a line for docketctl run:\n  docketctl enter {word} --db court.db \\\n   "
    )?;
    push_example_options(text, kind)?;
    write!(text, "\n  {line}\n")
}

#[tactic(auto, unfolding(crate::specs::CommandList::kind_told))]
fn kind_told(alloc: Global, kind: CommandName) -> Result<String, AllocError>
    ensures { IfOk result (λ text. string_bytes text ≡ kind_told kind) }
{
    let line = example_line(alloc, kind)?;
    let mut text = kind_head(alloc, kind)?;
    push_fields(&mut text, kind)?;
    text.push_str(
        "\nDAY is as 2026-06-02, from 2000 to 2099. MOMENT is as 2025-11-01T17:00-05:00, with the court's\noffset on that day, and HH:MM as 17:00. An option without a value is true where given, else false.\n",
    )?;
    push_example(&mut text, kind, line.as_str())?;
    Ok(text)
}

fn kind_text(alloc: Global, kind: CommandName) -> Result<String, AllocError>
    ensures { IfOk result (λ text. string_bytes text ≡ kind_text kind) }
{
    match kind {
        CommandName::ImportCalendar => String::from_str(
            alloc,
            "import_calendar: Enter a table of days\n\ndocketctl import enters a table of comma-separated values, whose first line is kind,day,name.\nA kind is federal, state or closed, and a day as 2027-04-19.\n\nAn example, and the same as a line for docketctl run:\n  docketctl import --db court.db --key holidays-2027 < holidays.csv\n  {\"do\":\"import_calendar\",\"key\":\"holidays-2027\",\"rows\":[{\"day\":\"2027-04-19\",\"kind\":\"state\",\"name\":\"Patriots' Day\"}]}\n",
        ),
        _ => kind_told(alloc, kind),
    }
}

/// All kinds of commands, in groups, or the fields of one, with what their values may be and an example.
pub fn commands_text(alloc: Global, kind: Option<CommandName>) -> Result<String, AllocError>
    ensures { IfOk result (λ text. string_bytes text ≡ commands_text kind) }
{
    match kind {
        None => kind_list(alloc),
        Some(kind) => kind_text(alloc, kind),
    }
}
