//! The command line of `docketctl enter` for each kind of command, as clap reads it.
ghost use Rattle.std.specs.Prelude.{◌≡◌, IfOk, map};
ghost use Rattle.clap.specs.Simple.{App, new_app};
ghost use Rattle.docket_command.specs.Names.{command_word};
ghost use Rattle.command_forms.specs.Entered.{spec_of, type_of_input};
ghost use Rattle.docket_jobs.specs.CommandLine.{HasLine, with_rules};
ghost use Rattle.docket_jobs.specs.EntryLine.{bare_entry_line, entry_line, field_rule, needed_rule};
ghost use Rattle.docket_jobs.specs.Arguments.{rule_read};

use crate::argument::{Argument, arg_of, with_arguments};
use crate::command_line::subcommand;
use crate::help::ENTRY_HELP;
use crate::line::ENTRY;
use crate::value_name::value_name;
use clap::Command;
use command_forms::{Entered, Input, entered_of};
use docket_command::{CommandName, Word};
use entry_pages::label_of;
use html_sheets::title_of;
use std::alloc::{AllocError, Global};

/// The option of a field that has to be there, or its flag.
fn needed_argument(
    name: &'static str,
    value: &'static str,
    input: Input,
    help: &'static str,
) -> Argument
    ensures { rule_read result ≡ needed_rule (type_of_input input) name.now }
{
    match input {
        Input::Flag => Argument::Flag(name, help),
        _ => Argument::Must(name, value, help),
    }
}

/// The option of a field, with what its form calls it.
fn field_argument(kind: CommandName, entered: Entered) -> Argument
    ensures { rule_read result ≡ field_rule (spec_of entered) }
{
    match entered {
        Entered::Must(field, input) => {
            let help = label_of(kind, field);
            needed_argument(field.name(), value_name(field, input), input, help)
        }
        Entered::May(field, input) => {
            let help = label_of(kind, field);
            Argument::May(field.name(), value_name(field, input), help)
        }
    }
}

/// The command with an option for each of these fields more.
fn with_fields<'a>(
    alloc: Global,
    kind: CommandName,
    fields: &[Entered],
    mut command: Command<'a>,
) -> Result<Command<'a>, AllocError>
    ensures { (line : App) → HasLine line command.entry → IfOk result (HasLine (with_rules line (map (λ entered. field_rule (spec_of entered)) fields.now))) }
{
    for field in fields {
        command = command.arg(arg_of(alloc, field_argument(kind, *field)))?;
    }
    Ok(command)
}

/// The command line of a kind without its options.
fn named_entry<'a>(alloc: Global, kind: CommandName) -> Result<Command<'a>, AllocError>
    ensures { IfOk result (HasLine (new_app (command_word kind))) }
{
    let word: &'a str = kind.word();
    let title: &'a str = title_of(kind);
    let program = format!(in alloc; "docketctl enter {word}")?;
    subcommand(alloc, word, title, ENTRY_HELP).bin_name(program.as_str())
}

/// The command line of a kind without its fields.
fn bare_entry<'a>(alloc: Global, kind: CommandName) -> Result<Command<'a>, AllocError>
    ensures { IfOk result (HasLine (bare_entry_line kind)) }
{
    with_arguments(alloc, &ENTRY, named_entry(alloc, kind)?)
}

/// The command line of what follows `docketctl enter`, for a kind of command.
pub(crate) fn entry_command<'a>(alloc: Global, kind: CommandName) -> Result<Command<'a>, AllocError>
    ensures { IfOk result (HasLine (entry_line kind)) }
{
    with_fields(alloc, kind, entered_of(kind), bare_entry(alloc, kind)?)
}
