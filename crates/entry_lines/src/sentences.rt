//! What a person is told of a command that was entered in words, on standard error.
ghost use Rattle.std.specs.Prelude.{◌≡◌, IfOk, string_bytes};
ghost use Rattle.entry_lines.specs.Saying.{done_text, foreseen_said, said_of, several_line, tells_of_none, unnamed_line, without, would_said};

use crate::entry::{Prepared, Unnamed, Would};
use docket_command::CommandName;
use docket_questions::Foreseen;
use entry_pages::{fault_line, refusal_line};
use std::alloc::{AllocError, Global};

/// What is told of a name that fits two parties, in an option.
fn several_line(alloc: Global, option: &str, first: u32, second: u32) -> Result<String, AllocError>
    ensures { IfOk result (λ text. string_bytes text ≡ several_line option.now first second) }
{
    format!(in alloc;
        "docketctl: parties {first} and {second} both have that name (--{option}); give the number\n"
    )
}

/// What is told of a name that names nothing.
fn unnamed_line(alloc: Global, why: Unnamed) -> Result<String, AllocError>
    ensures { IfOk result (λ text. string_bytes text ≡ unnamed_line why) }
{
    match why {
        Unnamed::NoCase => String::from_str(
            alloc,
            "docketctl: no case has that number or docket number (--case); docketctl cases lists them\n",
        ),
        Unnamed::NoParty(field) => {
            let option = field.name();
            format!(in alloc;
                "docketctl: no party of the case has that number or name (--{option}); docketctl case lists them\n"
            )
        }
        Unnamed::SeveralParties(field, first, second) => several_line(
            alloc,
            field.name(),
            first,
            second,
        ),
    }
}

/// The text without a line with which it begins.
fn without<'t>(line: &str, text: &'t str) -> &'t str
    ensures { result.now ≡ without line.now text.now }
{
    match text.strip_prefix(line) {
        Some(rest) => rest,
        None => text,
    }
}

/// Whether the text tells of no deadline.
fn tells_of_none(text: &str) -> bool
    ensures { result ≡ tells_of_none text.now }
{
    text == "No deadline would be made or moved.\n" || text == "No deadline would move.\n"
}

/// What an accepted command did, without the line that the court's calendar would change. Nothing is told where no
/// deadline is made or moved.
fn done_text(alloc: Global, text: &str) -> Result<String, AllocError>
    ensures { IfOk result (λ told. string_bytes told ≡ done_text text.now) }
{
    let told = without("The court's calendar would change.\n", text);
    if tells_of_none(told) {
        return Ok(String::new(alloc));
    }
    String::from_str(alloc, told)
}

/// What is told of a command, by what was foreseen of it.
fn foreseen_said(
    alloc: Global,
    kind: CommandName,
    foreseen: &Foreseen,
) -> Result<String, AllocError>
    ensures { IfOk result (λ text. string_bytes text ≡ foreseen_said kind foreseen.now) }
{
    match foreseen {
        Foreseen::Refused(refusal) => {
            let line = refusal_line(alloc, kind, *refusal)?;
            format!(in alloc; "{line}\n")
        }
        Foreseen::Known(_) => String::from_str(alloc, "entered before under this key\n"),
        Foreseen::Accepted(text) => done_text(alloc, text.as_str()),
    }
}

/// What is told of a line, by what it would do.
fn would_said(alloc: Global, kind: CommandName, would: &Would) -> Result<String, AllocError>
    ensures { IfOk result (λ text. string_bytes text ≡ would_said kind would.now) }
{
    match would {
        Would::Faulty(fault) => {
            let line = fault_line(alloc, kind, *fault)?;
            format!(in alloc; "{line}\n")
        }
        Would::Does(foreseen) => foreseen_said(alloc, kind, foreseen),
    }
}

/// What a person is told of a command of a kind: what it did, or why it was not entered and what to do, by lines that
/// end with a line feed. Nothing is told of an accepted command by which no deadline is made or moved.
pub fn said(alloc: Global, kind: CommandName, prepared: &Prepared) -> Result<String, AllocError>
    ensures { IfOk result (λ text. string_bytes text ≡ said_of kind prepared.now) }
{
    match prepared {
        Prepared::Unnamed(why) => unnamed_line(alloc, *why),
        Prepared::Line(_, would) => would_said(alloc, kind, would),
    }
}
