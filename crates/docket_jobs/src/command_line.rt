//! The command line as clap reads it.
ghost use Rattle.std.specs.Prelude.{IfOk, fold, map};
ghost use Rattle.clap.specs.Simple.{App, new_app};
ghost use Rattle.docket_jobs.specs.CommandLine.{HasLine, bare_line, docketctl, line_of, with_line};

use crate::argument::with_arguments;
use crate::help::{PROGRAM_HELP, about_of, help_of};
use crate::line::arguments_of;
use crate::verb::{VERBS, Verb};
use clap::Command;
use docket_command::Word;
use std::alloc::{AllocError, Global};

/// How help shows that the options of `enter` follow the kind.
const ENTER_USAGE: &str = "docketctl enter <KIND> --db <FILE> [OPTIONS]";

/// A subcommand with no option or place yet.
pub(crate) fn subcommand<'a>(
    alloc: Global,
    name: &'a str,
    about: &'a str,
    after_help: &'a str,
) -> Command<'a>
    ensures { HasLine (new_app name.now) result }
{
    Command::new(alloc, name)
        .about(about)
        .after_help(after_help)
}

/// The same line, with the usage of the subcommand where help does not make one of its arguments.
fn with_usage<'a>(command: Command<'a>, verb: Verb) -> Command<'a>
    ensures { (line : App) → HasLine line command.entry → HasLine line result }
{
    match verb {
        Verb::Enter => command.override_usage(ENTER_USAGE),
        _ => command,
    }
}

/// A subcommand with its arguments.
fn line_command<'a>(alloc: Global, verb: Verb) -> Result<Command<'a>, AllocError>
    ensures { IfOk result (HasLine (line_of verb)) }
{
    let word: &'a str = verb.word();
    let about: &'a str = about_of(verb);
    let after: &'a str = help_of(verb);
    let command = subcommand(alloc, word, about, after);
    with_arguments(alloc, arguments_of(verb), with_usage(command, verb))
}

/// The program with these subcommands more.
fn with_lines<'a>(
    alloc: Global,
    verbs: &[Verb],
    mut program: Command<'a>,
) -> Result<Command<'a>, AllocError>
    ensures { (app : App) → HasLine app program.entry → IfOk result (HasLine (fold with_line app (map line_of verbs.now))) }
{
    for verb in verbs {
        let more = line_command(alloc, *verb)?;
        program = program.subcommand(more)?;
    }
    Ok(program)
}

fn bare_command<'a>(alloc: Global) -> Result<Command<'a>, AllocError>
    ensures { IfOk result (HasLine bare_line) }
{
    Ok(
        Command::new(alloc, "docketctl")
            .bin_name("docketctl")?
            .about(
                "The civil docket of a United States district court, with computed filing deadlines",
            )
            .after_help(PROGRAM_HELP)
            .version("0.1.0"),
    )
}

/// The program's command line.
pub(crate) fn command<'a>(alloc: Global) -> Result<Command<'a>, AllocError>
    ensures { IfOk result (HasLine docketctl) }
{
    with_lines(alloc, &VERBS, bare_command(alloc)?)
}
