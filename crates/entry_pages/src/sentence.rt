//! What a terminal says of a command that was not entered.
ghost use Rattle.std.specs.Prelude.{◌≡◌, ◌++◌, IfOk, codes, string_bytes};
ghost use Rattle.entry_pages.specs.Sentences.{no_party_words, exists_words, reason_words, bad_words, bad_value_line, refusal_line, missing_line, wrong_line, unknown_line, fault_line};

use crate::limit::{limit_of, range_of};
use crate::value_form::{input_of, push_form};
use docket_command::{CommandName, Field, Refusal, Word};
use docket_wire::WireFault;
use std::alloc::{AllocError, Global};
use std::fmt;

fn no_party_words(kind: CommandName) -> &'static str
    ensures { result.now ≡ no_party_words kind }
{
    match kind {
        CommandName::NoticeHearing =>
            "the case has no such party (--party, --opponent); docketctl case lists them",
        _ => "the case has no such party (--party); docketctl case lists them",
    }
}

fn exists_words(kind: CommandName) -> &'static str
    ensures { result.now ≡ exists_words kind }
{
    match kind {
        CommandName::OpenCase =>
            "a case has that docket number already (--label); docketctl cases --label shows it",
        CommandName::LocalRule =>
            "a local rule has that name already (--name); docketctl rules --db lists them",
        _ => "the court's calendar has it already; docketctl holidays --db lists its rows",
    }
}

/// A refusal in a sentence; empty where it is about the value of a field.
fn reason_words(kind: CommandName, refusal: Refusal) -> &'static str
    ensures { result.now ≡ reason_words kind refusal }
{
    match refusal {
        Refusal::BadKey => "--key takes 1 to 64 visible characters of ASCII, and no blanks",
        Refusal::KeyReused => "another command was entered under this key; give another --key",
        Refusal::BadValue(_) => "",
        Refusal::NoSuchCase => "there is no such case (--case); docketctl cases lists them",
        Refusal::NoSuchParty => no_party_words(kind),
        Refusal::NoSuchDeadline =>
            "the case has no such deadline (--deadline); docketctl case lists them",
        Refusal::NoSuchCalendarRow =>
            "no such row of the court's calendar is in force (--row); docketctl holidays --db lists them",
        Refusal::NoSuchLocalRule =>
            "no local rule has that name (--rule); docketctl rules --db lists them",
        Refusal::Exists => exists_words(kind),
        Refusal::NotOpen =>
            "the time of this deadline does not run, or it is done or vacated (--deadline); docketctl case shows it",
        Refusal::NotAwaiting =>
            "no motion suspends this deadline, or it awaits no statement (--deadline); enter the motion or the order first",
        Refusal::NotResponsive =>
            "a motion under Rule 12 does not alter this deadline (--deadline); give that of the answer",
        Refusal::WrongMotion =>
            "no motion under Rule 12(e) suspended this deadline (--outcome); enter the motion first",
        Refusal::AfterDeadline =>
            "the motion was served after the last day (--served); extend the deadline first, if the court did",
        Refusal::AlreadyServed =>
            "the party has a deadline to answer already (--party); vacate that one, if the service was none",
        Refusal::ShortWaiver =>
            "the request allowed too few days (--allowed); it has to allow at least 30, or 60 with --abroad",
        Refusal::LateWaiver =>
            "the waiver came back after the time that was allowed (--returned); serve the summons",
        Refusal::MayNotExtend =>
            "Rule 6(b)(2) forbids an extension of this deadline (--deadline); the last day stays",
        Refusal::Expired =>
            "the time had expired, Rule 6(b)(1)(B) (--at); give --neglect where the neglect was excusable",
        Refusal::NotLater =>
            "the new day is not after the last day (--days, --until); give a later one",
        Refusal::Full => "the docket or the case has no room for another",
    }
}

/// What is said of a value that may not be.
#[derive(Clone, Copy)]
struct Bad {
    /// What a value of its type may be, or empty.
    range: &'static str,
    /// What the value of its field may be, or empty.
    limit: &'static str,
}

impl fmt::Display for Bad {
    ghost use Rattle.std.specs.Prelude.{Some};
    ghost use Rattle.entry_pages.specs.Sentences.{bad_words};

    ghost output = { λ bad. Some (bad_words bad.range.now bad.limit.now) };

    fn fmt<W: fmt::Write>(&self, f: &mut fmt::Formatter<W>) -> fmt::Result {
        let range = self.range;
        let limit = self.limit;
        match (range.is_empty(), limit.is_empty()) {
            (true, true) => f.write_str("may not have this value"),
            (true, false) => f.write_str(limit),
            (false, true) => f.write_str(range),
            (false, false) => write!(f, "{range}, and {limit}"),
        }
    }
}

fn bad_value_line(alloc: Global, kind: CommandName, field: Field) -> Result<String, AllocError>
    ensures { IfOk result (λ text. string_bytes text ≡ bad_value_line kind field) }
{
    let name = field.name();
    let bad = Bad {
        range: range_of(input_of(kind, field)),
        limit: limit_of(kind, field),
    };
    format!(in alloc; "docketctl: refused: --{name} {bad}")
}

fn reason_line(alloc: Global, words: &str) -> Result<String, AllocError>
    ensures { IfOk result (λ text. string_bytes text ≡ codes "docketctl: refused: " ++ words.now) }
{
    format!(in alloc; "docketctl: refused: {words}")
}

/// The line of a refusal of a command of that kind, without a line feed.
pub fn refusal_line(
    alloc: Global,
    kind: CommandName,
    refusal: Refusal,
) -> Result<String, AllocError>
    ensures { IfOk result (λ text. string_bytes text ≡ refusal_line kind refusal) }
{
    match refusal {
        Refusal::BadValue(field) => bad_value_line(alloc, kind, field),
        _ => reason_line(alloc, reason_words(kind, refusal)),
    }
}

fn missing_line(alloc: Global, kind: CommandName, field: Field) -> Result<String, AllocError>
    ensures { IfOk result (λ text. string_bytes text ≡ missing_line kind field) }
{
    let name = field.name();
    let mut text = format!(in alloc; "docketctl: --{name} must not be empty; it takes ")?;
    push_form(&mut text, input_of(kind, field))?;
    Ok(text)
}

fn wrong_line(alloc: Global, kind: CommandName, field: Field) -> Result<String, AllocError>
    ensures { IfOk result (λ text. string_bytes text ≡ wrong_line kind field) }
{
    let name = field.name();
    let mut text = format!(in alloc; "docketctl: --{name} takes ")?;
    push_form(&mut text, input_of(kind, field))?;
    Ok(text)
}

fn unknown_line(alloc: Global, kind: CommandName) -> Result<String, AllocError>
    ensures { IfOk result (λ text. string_bytes text ≡ unknown_line kind) }
{
    let word = kind.word();
    format!(in alloc; "docketctl: {word} has no such option; docketctl commands {word} lists them")
}

/// The line of a fault that a command of that kind has, without a line feed.
pub fn fault_line(alloc: Global, kind: CommandName, fault: WireFault) -> Result<String, AllocError>
    ensures { IfOk result (λ text. string_bytes text ≡ fault_line kind fault) }
{
    match fault {
        WireFault::NotJson | WireFault::NotAnObject => String::from_str(
            alloc,
            "docketctl: the command is too long for a line; shorten its texts",
        ),
        WireFault::UnknownCommand => String::from_str(
            alloc,
            "docketctl: there is no such kind of command; docketctl commands lists them",
        ),
        WireFault::MissingField(field) => missing_line(alloc, kind, field),
        WireFault::WrongField(field) => wrong_line(alloc, kind, field),
        WireFault::UnknownField => unknown_line(alloc, kind),
        WireFault::NoMemory => String::from_str(alloc, "docketctl: memory ran out; enter it again"),
    }
}
