//! What a command line asks for.
ghost use Rattle.std.specs.Prelude.{◌≡◌, IfOk, MatchResult, None, Some, drop, map, string_bytes};
ghost use Rattle.clap.specs.Faults.{fault_of};
ghost use Rattle.clap.specs.Kinds.{FailsBy};
ghost use Rattle.clap.specs.Matches.{found_of};
ghost use Rattle.clap.specs.Simple.{subcommand_rows_of};
ghost use Rattle.clap.specs.Walk.{rows_of};
ghost use Rattle.docket_jobs.specs.CommandLine.{docketctl};
ghost use Rattle.docket_jobs.specs.Jobs.{IsLimited, asked, asked_by, asked_for, asked_in, asked_of, case_asked, cases_asked, court_asked, create_asked, explain_asked, explain_numbers, is_entry, line_asked, line_faults, number_of, or_bad_value, run_asked, word_at};

use crate::command_line::command;
use crate::day_jobs::{calendar_job, export_job, holidays_job};
use crate::entering::{commands_job, read_entry};
use crate::number::read_number;
use crate::serving::serve_job;
use crate::value::{BAD_NUMBER, BadValue, told, value, value_if_any};
use crate::verb::Verb;
use civil_time::Day;
use clap::{ArgMatches, Error};
use command_forms::FieldText;
use court_days::{Court, CourtFault};
use docket_command::{CommandName, from_word};
use due_exports::Form;
use html_sheets::Due;
use patient_stream::Place;
use std::alloc::{AllocError, Global};

const NO_KIND: &str =
    "enter takes a kind of command first, which docketctl commands lists, then --db FILE";

const BAD_NUMBERS: &str =
    "CASE and DEADLINE are numbers from 1 to 4294967295, without a leading zero";

const BAD_FIND: &str = "--find goes without --label and --party";

const BAD_PLACES: &str = "CASE and DEADLINE go with --db, and --db with both";

/// What the program is to do.
#[derive(Drop)]
pub enum Job<'a> {
    /// `count`, or no word at all: answer lines of days from the input.
    Count,
    /// `create`: make the docket of a court in a file.
    Create {
        file: &'a str,
        court: Court,
    },
    /// `run` with a file: answer commands from the input, of the docket in the file.
    Run {
        file: &'a str,
    },
    /// `run` without a file: answer commands from the input, of a new docket in memory, of the court.
    RunInMemory {
        court: Court,
    },
    /// `enter`: enter a command of a kind in the docket in a file, or with `show` tell what it would do. The
    /// texts are those given for its fields, in the order of the kind's; a flag always has one, `true` or
    /// `false`. Without a key one is made.
    Enter {
        file: &'a str,
        key: Option<&'a str>,
        show: bool,
        kind: CommandName,
        given: Vec<FieldText<'a>>,
    },
    /// `commands`: print the kinds of commands, or the fields of one.
    Commands {
        kind: Option<CommandName>,
    },
    /// `import`: enter the days of a table from the input in the calendar of the docket in a file.
    Import {
        file: &'a str,
        key: &'a str,
    },
    /// `case`: print a case, of a number from 1 on, of the docket in a file.
    Case {
        file: &'a str,
        number: u32,
    },
    /// `cases`: print the cases of the docket in a file; that of a label, where one is given, and those with
    /// a party whose name holds a text.
    Cases {
        file: &'a str,
        label: Option<&'a str>,
        party: Option<&'a str>,
    },
    /// `cases --find`: print the cases of the docket in a file that some words find.
    Find {
        file: &'a str,
        words: &'a str,
    },
    /// `calendar`: print the deadlines that fall due from one day to another, which is not before it, of the
    /// docket in a file. With `long` a line has the names of the case and of the party.
    Calendar {
        file: &'a str,
        from: Day,
        to: Day,
        long: bool,
    },
    /// `calendar` with `--today`, `--week` or `--overdue`: print the deadlines that fall due on those days, of
    /// the docket in a file.
    CalendarOf {
        file: &'a str,
        due: Due,
        long: bool,
    },
    /// `export`: print the deadlines that fall due from one day to another, which is not before it, of the
    /// docket in a file, in a format.
    Export {
        file: &'a str,
        from: Day,
        to: Day,
        form: Form,
    },
    /// `export` of a case: print its docket sheet as a page, of a number from 1 on, of the docket in a file.
    Sheet {
        file: &'a str,
        number: u32,
    },
    /// `explain` with a file: print the steps by which the end of a deadline of a case was found, of numbers
    /// from 1 on, of the docket in a file.
    Explain {
        file: &'a str,
        case: u32,
        deadline: u32,
    },
    /// `explain` without a file: answer lines of days from the input. A line that asks for an end is answered
    /// by its steps.
    ExplainLines,
    /// `check`: print whether the tables of the docket in a file are sound.
    Check {
        file: &'a str,
    },
    /// `backup`: copy the docket in a file to another, which must not be there.
    Backup {
        file: &'a str,
        to: &'a str,
    },
    /// `migrate`: take the docket in a file from the first version of its tables to the second.
    Migrate {
        file: &'a str,
    },
    /// `serve`: answer the requests of 1 to 1,000,000 connections, or of all that come, at a place of this machine
    /// alone, of the docket in a file. With `pages` its pages are shown as well. With them or with `guard` only
    /// requests at its own origins are answered, and at another one where that is given. Port 0 is one that the
    /// system chooses.
    Serve {
        file: &'a str,
        place: Place<'a>,
        count: Option<u32>,
        pages: bool,
        guard: bool,
        origin: Option<&'a str>,
    },
    /// `rules`: print the rules by which deadlines run, with the local rules of the docket in a file, where
    /// one is given.
    Rules {
        file: Option<&'a str>,
    },
    /// `holidays`: print the statutory holidays of a year from 2000 to 2099.
    Holidays {
        year: u32,
    },
    /// `holidays` with a file: print the statutory holidays, and what the court of its docket entered in its
    /// calendar, from one day to another, which is not before it.
    CourtCalendar {
        file: &'a str,
        from: Day,
        to: Day,
    },
}

/// The court that the zone and the closing time spell, unless memory runs out.
fn court<'a>(
    alloc: Global,
    found: &ArgMatches<'a>,
) -> Result<Result<Court, BadValue<'a>>, AllocError>
    ensures { IfOk result (λ read. MatchResult read (λ court. court_asked (rows_of (found_of found.now)) ≡ Some court)
        (λ _. court_asked (rows_of (found_of found.now)) ≡ None)) }
{
    let zone = value(found, "zone");
    let close = value(found, "close");
    match Court::read(alloc, zone, close) {
        Ok(court) => Ok(Ok(court)),
        Err(CourtFault::BadZone) => Ok(Err(BadValue::Zone(zone))),
        Err(CourtFault::BadClose) => Ok(Err(BadValue::Close(close))),
        Err(CourtFault::NoMemory) => Err(AllocError),
    }
}

fn create_job<'a>(
    alloc: Global,
    found: &ArgMatches<'a>,
) -> Result<Result<Job<'a>, BadValue<'a>>, AllocError>
    ensures limited { IfOk result (λ read. IfOk read IsLimited) }
    ensures job { IfOk result (λ read. MatchResult read (λ job. create_asked (rows_of (found_of found.now)) ≡ Some (asked job))
        (λ _. create_asked (rows_of (found_of found.now)) ≡ None)) }
{
    let file = value(found, "db");
    match court(alloc, found)? {
        Ok(court) => Ok(Ok(Job::Create { file, court })),
        Err(bad) => Ok(Err(bad)),
    }
}

fn run_job<'a>(
    alloc: Global,
    found: &ArgMatches<'a>,
) -> Result<Result<Job<'a>, BadValue<'a>>, AllocError>
    ensures limited { IfOk result (λ read. IfOk read IsLimited) }
    ensures job { IfOk result (λ read. MatchResult read (λ job. run_asked (rows_of (found_of found.now)) ≡ Some (asked job))
        (λ _. run_asked (rows_of (found_of found.now)) ≡ None)) }
{
    if let Some(file) = value_if_any(found, "db") {
        return Ok(Ok(Job::Run { file }));
    }
    match court(alloc, found)? {
        Ok(court) => Ok(Ok(Job::RunInMemory { court })),
        Err(bad) => Ok(Err(bad)),
    }
}

fn case_job<'a>(found: &ArgMatches<'a>) -> Result<Job<'a>, BadValue<'a>>
    ensures limited { IfOk result IsLimited }
    ensures job { MatchResult result (λ job. case_asked (rows_of (found_of found.now)) ≡ Some (asked job))
        (λ _. case_asked (rows_of (found_of found.now)) ≡ None) }
{
    let number = read_number(value(found, "number")).ok_or(BadValue::Told(BAD_NUMBER))?;
    Ok(Job::Case {
        file: value(found, "db"),
        number,
    })
}

/// Words that find cases go without a label and a party.
fn cases_job<'a>(found: &ArgMatches<'a>) -> Result<Job<'a>, BadValue<'a>>
    ensures limited { IfOk result IsLimited }
    ensures job { MatchResult result (λ job. cases_asked (rows_of (found_of found.now)) ≡ Some (asked job))
        (λ _. cases_asked (rows_of (found_of found.now)) ≡ None) }
{
    let file = value(found, "db");
    let (label, party) = (value_if_any(found, "label"), value_if_any(found, "party"));
    match (value_if_any(found, "find"), label, party) {
        (None, _, _) => Ok(Job::Cases { file, label, party }),
        (Some(words), None, None) => Ok(Job::Find { file, words }),
        _ => Err(BadValue::Told(BAD_FIND)),
    }
}

fn stored_job<'a>(file: &'a str, case: &str, deadline: &str) -> Result<Job<'a>, BadValue<'a>>
    ensures limited { IfOk result IsLimited }
    ensures job { MatchResult result (λ job. explain_numbers file.now (number_of case.now) (number_of deadline.now) ≡ Some (asked job))
        (λ _. explain_numbers file.now (number_of case.now) (number_of deadline.now) ≡ None) }
{
    let case = read_number(case).ok_or(BadValue::Told(BAD_NUMBERS))?;
    let deadline = read_number(deadline).ok_or(BadValue::Told(BAD_NUMBERS))?;
    Ok(Job::Explain {
        file,
        case,
        deadline,
    })
}

/// Without a file there is no deadline to explain.
fn explain_job<'a>(found: &ArgMatches<'a>) -> Result<Job<'a>, BadValue<'a>>
    ensures limited { IfOk result IsLimited }
    ensures job { MatchResult result (λ job. explain_asked (rows_of (found_of found.now)) ≡ Some (asked job))
        (λ _. explain_asked (rows_of (found_of found.now)) ≡ None) }
{
    let places = (value_if_any(found, "case"), value_if_any(found, "deadline"));
    match (value_if_any(found, "db"), places.0, places.1) {
        (Some(file), Some(case), Some(deadline)) => stored_job(file, case, deadline),
        (None, None, None) => Ok(Job::ExplainLines),
        _ => Err(BadValue::Told(BAD_PLACES)),
    }
}

/// The job of a subcommand, with what was found for it, unless memory runs out.
fn job_by<'a>(
    alloc: Global,
    verb: Verb,
    found: &ArgMatches<'a>,
) -> Result<Result<Job<'a>, BadValue<'a>>, AllocError>
    ensures limited { IfOk result (λ read. IfOk read IsLimited) }
    ensures job { IfOk result (λ read. MatchResult read (λ job. asked_for verb (rows_of (found_of found.now)) ≡ Some (asked job))
        (λ _. asked_for verb (rows_of (found_of found.now)) ≡ None)) }
{
    let file = value(found, "db");
    match verb {
        Verb::Count => Ok(Ok(Job::Count)),
        Verb::Create => create_job(alloc, found),
        Verb::Run => run_job(alloc, found),
        Verb::Enter => Ok(Err(BadValue::Told(NO_KIND))),
        Verb::Commands => Ok(commands_job(found)),
        Verb::Import => {
            let key = value(found, "key");
            Ok(Ok(Job::Import { file, key }))
        }
        Verb::Case => Ok(case_job(found)),
        Verb::Cases => Ok(cases_job(found)),
        Verb::Calendar => Ok(calendar_job(found)),
        Verb::Export => Ok(export_job(found)),
        Verb::Explain => Ok(explain_job(found)),
        Verb::Check => Ok(Ok(Job::Check { file })),
        Verb::Backup => {
            let to = value(found, "to");
            Ok(Ok(Job::Backup { file, to }))
        }
        Verb::Migrate => Ok(Ok(Job::Migrate { file })),
        Verb::Serve => Ok(serve_job(found)),
        Verb::Rules => {
            let file = value_if_any(found, "db");
            Ok(Ok(Job::Rules { file }))
        }
        Verb::Holidays => Ok(holidays_job(found)),
    }
}

/// The job of the subcommand that a word names.
fn named_job<'a>(
    alloc: Global,
    name: &str,
    found: &ArgMatches<'a>,
) -> Result<Result<Job<'a>, BadValue<'a>>, AllocError>
    ensures limited { IfOk result (λ read. IfOk read IsLimited) }
    ensures job { IfOk result (λ read. MatchResult read (λ job. asked_by name.now (rows_of (found_of found.now)) ≡ Some (asked job))
        (λ _. asked_by name.now (rows_of (found_of found.now)) ≡ None)) }
{
    match from_word(name) {
        Some(verb) => job_by(alloc, verb, found),
        None => Ok(Ok(Job::Count)),
    }
}

fn job_in<'a>(
    alloc: Global,
    matches: &ArgMatches<'a>,
) -> Result<Result<Job<'a>, BadValue<'a>>, AllocError>
    ensures limited { IfOk result (λ read. IfOk read IsLimited) }
    ensures job { IfOk result (λ read. MatchResult read (λ job. asked_in (subcommand_rows_of matches.now) ≡ Some (asked job))
        (λ _. asked_in (subcommand_rows_of matches.now) ≡ None)) }
{
    match matches.subcommand() {
        Some((name, found)) => named_job(alloc, name, found),
        None => Ok(Ok(Job::Count)),
    }
}

/// What is found in the words by the program's line.
fn line_matches<'a>(alloc: Global, words: &'a [String]) -> Result<ArgMatches<'a>, Error>
    ensures found { IfOk result (λ matches. asked_in (subcommand_rows_of matches) ≡ line_asked (map string_bytes words.now)) }
    ensures fault { FailsBy (fault_of docketctl (map string_bytes words.now)) result }
{
    let mut command = command(alloc)?;
    command.try_get_matches_from_mut(words)
}

/// What the words ask for, read by the program's line.
fn read_line<'a>(alloc: Global, words: &'a [String]) -> Result<Job<'a>, Error>
    ensures limited { IfOk result IsLimited }
    ensures job { IfOk result (λ job. line_asked (map string_bytes words.now) ≡ Some (asked job)) }
    ensures fault { FailsBy (or_bad_value (fault_of docketctl (map string_bytes words.now)) (line_asked (map string_bytes words.now))) result }
{
    let matches = line_matches(alloc, words)?;
    match job_in(alloc, &matches) {
        Ok(Ok(job)) => Ok(job),
        Ok(Err(bad)) => Err(told(alloc, &bad)?),
        Err(error) => Err(error.into()),
    }
}

/// The word at a place; an empty one where there is none.
fn word_at<'a>(place: usize, words: &'a [String]) -> &'a str
    ensures { result.now ≡ word_at place (map string_bytes words.now) }
{
    match words.get(place) {
        Some(word) => word.as_str(),
        None => "",
    }
}

/// Whether a kind of command follows `docketctl enter`, by its place: a word that is no option.
fn is_entry(words: &[String]) -> bool
    ensures { result ≡ is_entry (map string_bytes words.now) }
{
    let kind = word_at(2, words).as_bytes();
    word_at(1, words) == "enter" && !kind.is_empty() && kind[0] != b'-'
}

/// The words without the first two.
fn behind_two<'a>(words: &'a [String]) -> &'a [String]
    ensures { result.now ≡ drop 2 words.now }
{
    if words.len() < 2 {
        return &[];
    }
    &words[2..]
}

/// Returns what the words ask for, the first of which is the program's name. The error is what to print: a
/// bad command line, a help text or the version.
pub fn read_job<'a>(alloc: Global, words: &'a [String]) -> Result<Job<'a>, Error>
    ensures job { IfOk result (λ job. asked_of (map string_bytes words.now) ≡ Some (asked job)) }
    ensures fault { FailsBy (line_faults (map string_bytes words.now)) result }
    ensures limited { IfOk result IsLimited }
{
    if is_entry(words) {
        return read_entry(alloc, word_at(2, words), behind_two(words));
    }
    read_line(alloc, words)
}
