//! The values of a command line.
ghost use Rattle.std.specs.Prelude.{◌≡◌, IfOk, option_copied};
ghost use Rattle.clap.specs.Matches.{found_of};
ghost use Rattle.clap.specs.Values.{kind_of};
ghost use Rattle.clap.specs.Walk.{first_of, rows_of};
ghost use Rattle.docket_jobs.specs.Jobs.{flag_of, value_of};

use crate::command_line::command;
use clap::error::ErrorKind;
use clap::{ArgMatches, Error};
use std::alloc::{AllocError, Global};
use std::fmt;

/// A value of the command line that lies outside its limits.
#[derive(Clone, Copy)]
pub(crate) enum BadValue<'a> {
    Zone(&'a str),
    Close(&'a str),
    Kind(&'a str),
    /// What is wrong, in words.
    Told(&'a str),
}

impl fmt::Display for BadValue<'_> {
    fn fmt<W: fmt::Write>(&self, f: &mut fmt::Formatter<W>) -> fmt::Result {
        match self {
            BadValue::Zone(zone) => {
                write!(
                    f,
                    "--zone {zone:?} is no zone, as EST5EDT,M3.2.0,M11.1.0 is"
                )
            }
            BadValue::Close(close) => {
                write!(f, "--close {close:?} is no time from 00:00 to 23:59")
            }
            BadValue::Kind(word) => {
                write!(
                    f,
                    "{word:?} is no kind of command, which docketctl commands lists"
                )
            }
            BadValue::Told(words) => f.write_str(words),
        }
    }
}

pub(crate) const BAD_NUMBER: &str =
    "NUMBER is a number from 1 to 4294967295, without a leading zero";

/// The value of an option or a place, where one is given or there is a default.
#[tactic(auto, using(crate::proofs::MatchLemmas::first_value_is))]
pub(crate) fn value_if_any<'a>(found: &ArgMatches<'a>, id: &str) -> Option<&'a str>
    ensures { option_copied result ≡ first_of id.now (rows_of (found_of found.now)) }
{
    found.get_str(id)
}

/// The value of an option or a place. There is one, since clap asks for it or has a default.
#[tactic(auto, using(crate::proofs::MatchLemmas::first_value_or))]
pub(crate) fn value<'a>(found: &ArgMatches<'a>, id: &str) -> &'a str
    ensures { result.now ≡ value_of id.now (rows_of (found_of found.now)) }
{
    found.get_str(id).unwrap_or("")
}

/// Whether a flag is given: its text is `true` then, and `false` where it is not.
pub(crate) fn flag(found: &ArgMatches<'_>, id: &str) -> bool
    ensures { result ≡ flag_of id.now (rows_of (found_of found.now)) }
{
    value(found, id) == "true"
}

/// Returns the error that reports a bad value, with the usage of the program.
pub(crate) fn told(alloc: Global, bad: &BadValue<'_>) -> Result<Error, AllocError>
    ensures { IfOk result (λ e. kind_of e ≡ ErrorKind.ValueValidation) }
{
    let message = format!(in alloc; "{bad}")?;
    let mut program = command(alloc)?;
    program.error(ErrorKind::ValueValidation, message.as_str())
}
