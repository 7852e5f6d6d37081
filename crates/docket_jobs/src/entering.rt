//! The jobs of `docketctl enter` and `docketctl commands`: a command of a kind, by what is given for its fields,
//! and the kinds themselves.
ghost use Rattle.std.specs.Prelude.{◌≡◌, ◌++◌, [], IfOk, MatchResult, None, OnOk, Some, map, string_bytes};
ghost use Rattle.clap.specs.Faults.{fault_of};
ghost use Rattle.clap.specs.Kinds.{FailsBy};
ghost use Rattle.clap.specs.Matches.{found_of};
ghost use Rattle.clap.specs.Simple.{matches_of};
ghost use Rattle.clap.specs.Walk.{first_of, rows_of};
ghost use Rattle.docket_command.specs.Fields.{field_name};
ghost use Rattle.docket_command.specs.Schema.{field_of as spec_field};
ghost use Rattle.command_forms.specs.Entered.{spec_of};
ghost use Rattle.command_forms.specs.Given.{texts_given};
ghost use Rattle.docket_jobs.specs.EntryLine.{entry_line};
ghost use Rattle.docket_jobs.specs.Jobs.{IsLimited, asked, asked_behind, commands_asked, entry_asked, faults_behind, is_table, kind_entered, or_bad_value, text_before, texts_found};

use crate::entry_line::entry_command;
use crate::job::Job;
use crate::value::{BadValue, flag, told, value, value_if_any};
use clap::{ArgMatches, Error};
use command_forms::{Entered, FieldText, entered_of};
use docket_command::{CommandName, Field, from_word};
use std::alloc::{AllocError, Global};

const BAD_TABLE: &str = "import_calendar takes a table of days, which docketctl import enters";

fn field_of(entered: Entered) -> Field
    ensures { result ≡ spec_field (spec_of entered) }
{
    match entered {
        Entered::Must(field, _) | Entered::May(field, _) => field,
    }
}

/// Adds the text of a field, where one was found.
fn push_text<'a>(
    given: &mut Vec<FieldText<'a>>,
    field: Field,
    found: &ArgMatches<'a>,
) -> Result<(), AllocError>
    ensures { OnOk result (texts_given given.new.items ≡ texts_given given.old.items ++ text_before field (first_of (field_name field) (rows_of (found_of found.now))) []) }
{
    match value_if_any(found, field.name()) {
        Some(text) => {
            given.push(FieldText { field, text })?;
            Ok(())
        }
        None => Ok(()),
    }
}

/// The texts found for fields, in their order. A flag has one always.
fn texts<'a>(
    alloc: Global,
    fields: &[Entered],
    found: &ArgMatches<'a>,
) -> Result<Vec<FieldText<'a>>, AllocError>
    ensures { IfOk result (λ given. texts_given given.items ≡ texts_found (map spec_of fields.now) (rows_of (found_of found.now))) }
{
    let mut given = Vec::new(alloc);
    for field in fields {
        push_text(&mut given, field_of(*field), found)?;
    }
    Ok(given)
}

fn entry_job<'a>(
    alloc: Global,
    kind: CommandName,
    found: &ArgMatches<'a>,
) -> Result<Job<'a>, AllocError>
    ensures limited { IfOk result IsLimited }
    ensures job { IfOk result (λ job. asked job ≡ entry_asked kind (rows_of (found_of found.now))) }
{
    let given = texts(alloc, entered_of(kind), found)?;
    Ok(Job::Enter {
        file: value(found, "db"),
        key: value_if_any(found, "key"),
        show: flag(found, "show"),
        kind,
        given,
    })
}

/// Whether the command has a table of days, which `import` reads.
fn is_table(kind: CommandName) -> bool
    ensures { result ≡ is_table kind }
{
    matches!(kind, CommandName::ImportCalendar)
}

/// The kind of command that the word names, if it is one that is entered.
fn read_kind<'a>(word: &'a str) -> Result<CommandName, BadValue<'a>>
    ensures { MatchResult result (λ kind. kind_entered word.now ≡ Some kind) (λ _. kind_entered word.now ≡ None) }
{
    let kind: CommandName = from_word(word).ok_or(BadValue::Kind(word))?;
    if is_table(kind) {
        return Err(BadValue::Told(BAD_TABLE));
    }
    Ok(kind)
}

/// What is found in the words by the line of a kind; the first of them is the kind's own word.
fn entry_matches<'a>(
    alloc: Global,
    kind: CommandName,
    words: &'a [String],
) -> Result<ArgMatches<'a>, Error>
    ensures found { IfOk result (λ matches. rows_of (found_of matches) ≡ matches_of (entry_line kind) (map string_bytes words.now)) }
    ensures fault { FailsBy (fault_of (entry_line kind) (map string_bytes words.now)) result }
{
    let mut command = entry_command(alloc, kind)?;
    command.try_get_matches_from_mut(words)
}

/// What the words ask for, read by the line of a kind.
fn read_fields<'a>(alloc: Global, kind: CommandName, words: &'a [String]) -> Result<Job<'a>, Error>
    ensures limited { IfOk result IsLimited }
    ensures job { IfOk result (λ job. asked job ≡ entry_asked kind (matches_of (entry_line kind) (map string_bytes words.now))) }
    ensures fault { FailsBy (fault_of (entry_line kind) (map string_bytes words.now)) result }
{
    let matches = entry_matches(alloc, kind, words)?;
    Ok(entry_job(alloc, kind, &matches)?)
}

/// What the words from a kind on ask for, which stand behind `docketctl enter`.
pub(crate) fn read_entry<'a>(
    alloc: Global,
    word: &'a str,
    words: &'a [String],
) -> Result<Job<'a>, Error>
    ensures limited { IfOk result IsLimited }
    ensures job { IfOk result (λ job. asked_behind word.now (map string_bytes words.now) ≡ Some (asked job)) }
    ensures fault { FailsBy (or_bad_value (faults_behind word.now (map string_bytes words.now)) (asked_behind word.now (map string_bytes words.now))) result }
{
    match read_kind(word) {
        Ok(kind) => read_fields(alloc, kind, words),
        Err(bad) => Err(told(alloc, &bad)?),
    }
}

/// All kinds of commands, or the one that is given.
pub(crate) fn commands_job<'a>(found: &ArgMatches<'a>) -> Result<Job<'a>, BadValue<'a>>
    ensures limited { IfOk result IsLimited }
    ensures job { MatchResult result (λ job. commands_asked (rows_of (found_of found.now)) ≡ Some (asked job))
        (λ _. commands_asked (rows_of (found_of found.now)) ≡ None) }
{
    let Some(word) = value_if_any(found, "kind") else {
        return Ok(Job::Commands { kind: None });
    };
    match from_word(word) {
        Some(kind) => Ok(Job::Commands { kind: Some(kind) }),
        None => Err(BadValue::Kind(word)),
    }
}
