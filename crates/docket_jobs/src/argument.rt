//! The options, the flags and the places of a command line: as data, and as clap takes them.
ghost use Rattle.std.specs.Prelude.{◌≡◌, false, map, IfOk};
ghost use Rattle.clap.specs.Walk.{rule_of};
ghost use Rattle.clap.specs.Simple.{App};
ghost use Rattle.docket_jobs.specs.CommandLine.{option_rule, flag_rule, required, optional, with_default, place_rule, with_rules, HasLine};
ghost use Rattle.docket_jobs.specs.Arguments.{rule_read};

use clap::{Arg, ArgAction, Command};
use std::alloc::{AllocError, Global};

/// An argument, with its name, what help calls its value, and what help says of it.
#[derive(Clone, Copy)]
pub(crate) enum Argument {
    /// `--NAME VALUE`, which may be left out.
    May(&'static str, &'static str, &'static str),
    /// `--NAME VALUE`, which has to be there.
    Must(&'static str, &'static str, &'static str),
    /// `--NAME VALUE`; where it is left out the last text is the value.
    Or(&'static str, &'static str, &'static str, &'static str),
    /// `--NAME`, which has no value.
    Flag(&'static str, &'static str),
    /// A value that stands alone, and has to be there.
    Place(&'static str, &'static str, &'static str),
    /// A value that stands alone, and may be left out.
    MayPlace(&'static str, &'static str, &'static str),
}

/// An option `--id VALUE`.
fn option<'a>(alloc: Global, id: &'a str, value: &'a str, help: &'a str) -> Arg<'a>
    ensures rule { rule_of result ≡ option_rule id.now }
    ensures local { result.global ≡ false }
{
    Arg::new(alloc, id)
        .long(id)
        .action(ArgAction::Set)
        .value_name(value)
        .help(help)
}

/// An option that has to be there.
fn needed_option<'a>(alloc: Global, id: &'a str, value: &'a str, help: &'a str) -> Arg<'a>
    ensures rule { rule_of result ≡ required (option_rule id.now) }
    ensures local { result.global ≡ false }
{
    option(alloc, id, value, help).required(true)
}

/// An option whose value is `default` where it is not given.
fn option_or<'a>(
    alloc: Global,
    id: &'a str,
    value: &'a str,
    help: &'a str,
    default: &'a str,
) -> Arg<'a>
    ensures rule { rule_of result ≡ with_default default.now (option_rule id.now) }
    ensures local { result.global ≡ false }
{
    option(alloc, id, value, help).default_value(default)
}

/// An option `--id` with no value.
fn flag<'a>(alloc: Global, id: &'a str, help: &'a str) -> Arg<'a>
    ensures rule { rule_of result ≡ flag_rule id.now }
    ensures local { result.global ≡ false }
{
    Arg::new(alloc, id)
        .long(id)
        .action(ArgAction::SetTrue)
        .help(help)
}

/// A value that stands alone, and has to be there.
fn place<'a>(alloc: Global, id: &'a str, value: &'a str, help: &'a str) -> Arg<'a>
    ensures rule { rule_of result ≡ place_rule id.now }
    ensures local { result.global ≡ false }
{
    Arg::new(alloc, id)
        .action(ArgAction::Set)
        .value_name(value)
        .help(help)
        .required(true)
}

/// A value that stands alone, and may be left out.
fn optional_place<'a>(alloc: Global, id: &'a str, value: &'a str, help: &'a str) -> Arg<'a>
    ensures rule { rule_of result ≡ optional (place_rule id.now) }
    ensures local { result.global ≡ false }
{
    place(alloc, id, value, help).required(false)
}

/// The argument as clap takes it.
pub(crate) fn arg_of<'a>(alloc: Global, argument: Argument) -> Arg<'a>
    ensures rule { rule_of result ≡ rule_read argument }
    ensures local { result.global ≡ false }
{
    match argument {
        Argument::May(id, value, help) => option(alloc, id, value, help),
        Argument::Must(id, value, help) => needed_option(alloc, id, value, help),
        Argument::Or(id, value, help, default) => option_or(alloc, id, value, help, default),
        Argument::Flag(id, help) => flag(alloc, id, help),
        Argument::Place(id, value, help) => place(alloc, id, value, help),
        Argument::MayPlace(id, value, help) => optional_place(alloc, id, value, help),
    }
}

/// The command with these arguments more.
pub(crate) fn with_arguments<'a>(
    alloc: Global,
    arguments: &[Argument],
    mut command: Command<'a>,
) -> Result<Command<'a>, AllocError>
    ensures { (line : App) → HasLine line command.entry → IfOk result (HasLine (with_rules line (map rule_read arguments.now))) }
{
    for argument in arguments {
        command = command.arg(arg_of(alloc, *argument))?;
    }
    Ok(command)
}
