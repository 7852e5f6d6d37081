//! What a page says of a command that was sent and not entered.
ghost use Rattle.std.specs.Prelude.{◌≡◌, ◌++◌, OnOk, string_bytes};
ghost use Rattle.entry_pages.specs.Saying.{saying_of, refusal_words, fault_words, said_head, alert_told, foreseen_told, said_told, refused_field, faulty_field, marked_field, is_marked};

use docket_command::{Field, Refusal};
use docket_wire::WireFault;
use html_sheets::LinesTold;
use std::alloc::AllocError;

/// What was said of the form that was sent.
#[derive(Clone, Copy)]
pub enum Said<'a> {
    /// It was not sent before.
    Nothing,
    /// Its command was refused.
    Refused(Refusal),
    /// It is no command.
    Faulty(WireFault),
    /// Its command was not entered yet, and would do this, told in lines.
    Foreseen(&'a str),
}

/// A refusal in a sentence.
fn refusal_words(refusal: Refusal) -> &'static str
    ensures { result.now ≡ refusal_words refusal }
{
    match refusal {
        Refusal::BadKey => "the key of the form may not be used. Enter it again.",
        Refusal::KeyReused =>
            "this form was sent before with other content. Look at the docket, then enter it again if it is still wanted.",
        Refusal::BadValue(_) => "the marked field may not have this value.",
        Refusal::NoSuchCase => "there is no such case.",
        Refusal::NoSuchParty => "the case has no such party.",
        Refusal::NoSuchDeadline => "the case has no such deadline.",
        Refusal::NoSuchCalendarRow => "no such row of the court's calendar is in force.",
        Refusal::NoSuchLocalRule => "no local rule has that name.",
        Refusal::Exists => "it is entered already.",
        Refusal::NotOpen => "the time of this deadline does not run, or it is done or vacated.",
        Refusal::NotAwaiting =>
            "no motion suspends this deadline, or it awaits no statement. Enter the motion or the order first.",
        Refusal::NotResponsive =>
            "a motion under Rule 12 does not alter this deadline. Give the number of the deadline of the answer.",
        Refusal::WrongMotion => "no motion under Rule 12(e) suspended this deadline.",
        Refusal::AfterDeadline =>
            "the motion was served after the last day. Extend the deadline first, if the court did.",
        Refusal::AlreadyServed =>
            "the party has a deadline to answer already. Vacate that one, if the service was none.",
        Refusal::ShortWaiver =>
            "the request allowed too few days, under 30, or under 60 outside the United States.",
        Refusal::LateWaiver =>
            "the waiver came back after the time that was allowed. Serve the summons.",
        Refusal::MayNotExtend => "the rule forbids an extension, Rule 6(b)(2).",
        Refusal::Expired =>
            "the time had expired, and no excusable neglect is stated, Rule 6(b)(1)(B).",
        Refusal::NotLater => "the new day is not after the last day.",
        Refusal::Full => "the docket has no room for it.",
    }
}

/// A fault in a sentence.
fn fault_words(fault: WireFault) -> &'static str
    ensures { result.now ≡ fault_words fault }
{
    match fault {
        WireFault::NotJson => "the form could not be read. Open it again.",
        WireFault::NotAnObject => "the form could not be read. Open it again.",
        WireFault::UnknownCommand => "the form does not say what to enter. Choose it here.",
        WireFault::MissingField(_) => "the marked field is empty.",
        WireFault::WrongField(_) => "the marked field is not written as it has to be.",
        WireFault::UnknownField => "the form has a field too many. Open it again.",
        WireFault::NoMemory => "there was not enough memory. Enter it again.",
    }
}

/// What the title of the page begins with.
pub(crate) fn said_head(said: Said<'_>) -> &'static str
    ensures { result.now ≡ said_head (saying_of said.entry) }
{
    match said {
        Said::Nothing => "",
        Said::Refused(_) => "Refused: ",
        Said::Faulty(_) => "Not entered: ",
        Said::Foreseen(_) => "Preview: ",
    }
}

fn push_alert(text: &mut String, head: &str, words: &str) -> Result<(), AllocError>
    ensures { OnOk result (string_bytes text.new ≡ string_bytes text.old ++ alert_told head.now words.now) }
{
    write!(
        text,
        "<p id=\"said\" class=\"said\" role=\"alert\">{head}{words} Nothing was entered.</p>\n"
    )
}

/// Adds what a command would do.
fn push_foreseen(text: &mut String, foreseen: &str) -> Result<(), AllocError>
    ensures { OnOk result (string_bytes text.new ≡ string_bytes text.old ++ foreseen_told foreseen.now) }
{
    let lines = LinesTold(foreseen);
    write!(
        text,
        "<section role=\"status\">\n<h2>What this would do</h2>\n{lines}\n\
        <p>Nothing was entered by showing this. The button Enter enters it.</p>\n</section>\n"
    )
}

/// Adds what was said.
pub(crate) fn push_said(text: &mut String, said: Said<'_>) -> Result<(), AllocError>
    ensures { OnOk result (string_bytes text.new ≡ string_bytes text.old ++ said_told (saying_of said.entry)) }
{
    match said {
        Said::Nothing => Ok(()),
        Said::Refused(refusal) => push_alert(text, "Refused: ", refusal_words(refusal)),
        Said::Faulty(fault) => push_alert(text, "Not entered: ", fault_words(fault)),
        Said::Foreseen(foreseen) => push_foreseen(text, foreseen),
    }
}

/// The name of the field that a refusal is about, which is empty where there is none.
fn refused_field(refusal: Refusal) -> &'static str
    ensures { result.now ≡ refused_field refusal }
{
    match refusal {
        Refusal::BadValue(field) => field.name(),
        Refusal::NoSuchCase => "case",
        Refusal::NoSuchParty => "party",
        Refusal::NoSuchDeadline => "deadline",
        Refusal::NoSuchCalendarRow => "row",
        Refusal::NoSuchLocalRule => "rule",
        _ => "",
    }
}

/// The name of the field that a fault is about, which is empty where there is none.
fn faulty_field(fault: WireFault) -> &'static str
    ensures { result.now ≡ faulty_field fault }
{
    match fault {
        WireFault::MissingField(field) => field.name(),
        WireFault::WrongField(field) => field.name(),
        _ => "",
    }
}

/// The name of the field that is marked, which is empty where there is none.
fn marked_field(said: Said<'_>) -> &'static str
    ensures { result.now ≡ marked_field (saying_of said.entry) }
{
    match said {
        Said::Nothing => "",
        Said::Refused(refusal) => refused_field(refusal),
        Said::Faulty(fault) => faulty_field(fault),
        Said::Foreseen(_) => "",
    }
}

/// Whether what was said is about the field.
pub(crate) fn is_marked(said: Said<'_>, field: Field) -> bool
    ensures { result ≡ is_marked (saying_of said.entry) field }
{
    field.name() == marked_field(said)
}
