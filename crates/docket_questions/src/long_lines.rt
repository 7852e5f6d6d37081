//! A deadline that falls due as a line, with the docket number and the caption of its case and the name of its
//! party.
ghost use Rattle.std.specs.Prelude.{◌≡◌, IfOk, string_bytes};
ghost use Rattle.docket_questions.specs.LongLines.{long_line, whose_text};

use court_days::{Court, Day, End};
use docket_history::{CaseRow, DueRow};
use docket_text::{ClockText, DayText, shown, shown_minute, weekday_word};
use html_sheets::RuleText;
use std::alloc::{AllocError, Global};
use std::fmt;

/// A day and its weekday.
#[derive(Clone, Copy)]
struct WeekdayText(Day);

impl fmt::Display for WeekdayText {
    ghost use Rattle.std.specs.Prelude.{Some};
    ghost use Rattle.docket_questions.specs.LongLines.{weekday_text};

    ghost output = { λ day. Some (weekday_text day.0) };

    fn fmt<W: fmt::Write>(&self, f: &mut fmt::Formatter<W>) -> fmt::Result {
        let day = DayText(self.0);
        let weekday = weekday_word(self.0.weekday());
        write!(f, "{day} {weekday}")
    }
}

/// An end: its day, its time, and when the clerk's office closes on it.
#[derive(Clone, Copy)]
struct EndText<'a> {
    court: &'a Court,
    close: u32,
    end: End,
}

impl fmt::Display for EndText<'_> {
    ghost use Rattle.std.specs.Prelude.{Some};
    ghost use Rattle.docket_questions.specs.LongLines.{end_text};

    ghost output = { λ text. Some (end_text text.court.now text.close text.end) };

    fn fmt<W: fmt::Write>(&self, f: &mut fmt::Formatter<W>) -> fmt::Result {
        match self.end {
            End::LastDay(day) => {
                let day = WeekdayText(day);
                let close = shown_minute(self.close);
                write!(f, "{day} 24:00 {close}")
            }
            End::Moment(at) => {
                let (day, minute) = self.court.local(shown(at));
                let day = WeekdayText(day);
                let time = ClockText { minute };
                write!(f, "{day} {time} --:--")
            }
        }
    }
}

/// The name of the party whose time it is, or that it is every party's, which the number 0 means.
fn whose_text(party: u32, name: &str) -> &str
    ensures { result.now ≡ whose_text party name.now }
{
    if party == 0 {
        return "every party";
    }
    name
}

/// The line of a deadline of a case, with the name of its party.
pub(crate) fn long_line(
    alloc: Global,
    court: &Court,
    due: &DueRow,
    case: &CaseRow,
    name: &str,
) -> Result<String, AllocError>
    ensures { IfOk result (λ text. string_bytes text ≡ long_line court.now due.now case.now name.now) }
{
    let end = EndText {
        court,
        close: due.close,
        end: due.end,
    };
    let label = case.label.as_str();
    let number = due.number;
    let rule = RuleText(due.rule.as_str());
    let party = whose_text(due.party, name);
    let caption = case.caption.as_str();
    format!(in alloc; "{end}  {label}  deadline {number}: {rule}  {party}  {caption}\n")
}
