//! The pieces of which rows are made.
ghost use Rattle.std.specs.Prelude.{◌≡◌};
ghost use Rattle.html_sheets.specs.Elements.{table_foot};

use crate::escape::{Escaped, Lined};
use crate::links::Links;
use court_days::Day;
use docket_text::{DayText, weekday_word};
use std::fmt;

/// A text of the docket.
#[derive(Clone, Copy)]
pub(crate) struct Told<'a>(pub(crate) &'a str);

impl fmt::Display for Told<'_> {
    ghost use Rattle.std.specs.Prelude.{Some};
    ghost use Rattle.html_sheets.specs.Elements.{told};

    ghost output = { λ text. Some (told text.0.now) };

    #[tactic(auto, unfolding(crate::specs::Elements::element))]
    fn fmt<W: fmt::Write>(&self, f: &mut fmt::Formatter<W>) -> fmt::Result {
        let text = Escaped(self.0);
        write!(f, "<bdi>{text}</bdi>")
    }
}

/// A day.
#[derive(Clone, Copy)]
pub(crate) struct DayTold(pub(crate) Day);

impl fmt::Display for DayTold {
    ghost use Rattle.std.specs.Prelude.{Some};
    ghost use Rattle.html_sheets.specs.Elements.{day_told};

    ghost output = { λ day. Some (day_told day.0) };

    #[tactic(auto, unfolding(crate::specs::Elements::element))]
    fn fmt<W: fmt::Write>(&self, f: &mut fmt::Formatter<W>) -> fmt::Result {
        let day = DayText(self.0);
        write!(f, "<time>{day}</time>")
    }
}

/// A day and its weekday.
#[derive(Clone, Copy)]
pub(crate) struct WeekdayTold(pub(crate) Day);

impl fmt::Display for WeekdayTold {
    ghost use Rattle.std.specs.Prelude.{Some};
    ghost use Rattle.html_sheets.specs.Elements.{weekday_told};

    ghost output = { λ day. Some (weekday_told day.0) };

    #[tactic(auto, unfolding(crate::specs::Elements::element))]
    fn fmt<W: fmt::Write>(&self, f: &mut fmt::Formatter<W>) -> fmt::Result {
        let day = DayTold(self.0);
        let weekday = weekday_word(self.0.weekday());
        write!(f, "{day} {weekday}")
    }
}

/// A case by its number, which leads to its page.
#[derive(Clone, Copy)]
pub(crate) struct CaseLink(pub(crate) u32);

impl fmt::Display for CaseLink {
    ghost use Rattle.std.specs.Prelude.{Some};
    ghost use Rattle.html_sheets.specs.Elements.{case_link};

    ghost output = { λ link. Some (case_link link.0) };

    #[tactic(auto, unfolding(crate::specs::Elements::element))]
    fn fmt<W: fmt::Write>(&self, f: &mut fmt::Formatter<W>) -> fmt::Result {
        let number = self.0;
        write!(f, "<a href=\"/pages/cases/{number}\">{number}</a>")
    }
}

/// A case by its number, which leads to its page where there are pages.
#[derive(Clone, Copy)]
pub(crate) struct CaseNumber {
    pub(crate) links: Links,
    pub(crate) number: u32,
}

impl fmt::Display for CaseNumber {
    ghost use Rattle.std.specs.Prelude.{Some};
    ghost use Rattle.html_sheets.specs.Elements.{case_number};

    ghost output = { λ case. Some (case_number case.links case.number) };

    fn fmt<W: fmt::Write>(&self, f: &mut fmt::Formatter<W>) -> fmt::Result {
        let number = self.number;
        match self.links {
            Links::Pages => CaseLink(number).fmt(f),
            Links::None => write!(f, "{number}"),
        }
    }
}

/// A deadline of a case by its number, which leads to its page where there are pages.
#[derive(Clone, Copy)]
pub(crate) struct DeadlineNumber {
    pub(crate) links: Links,
    pub(crate) case: u32,
    pub(crate) number: u32,
}

impl fmt::Display for DeadlineNumber {
    ghost use Rattle.std.specs.Prelude.{Some};
    ghost use Rattle.html_sheets.specs.Elements.{deadline_number};

    ghost output = { λ deadline. Some (deadline_number deadline.links deadline.case deadline.number) };

    #[tactic(auto, unfolding(crate::specs::Elements::element))]
    fn fmt<W: fmt::Write>(&self, f: &mut fmt::Formatter<W>) -> fmt::Result {
        let case = self.case;
        let deadline = self.number;
        match self.links {
            Links::Pages => write!(
                f,
                "<a href=\"/pages/cases/{case}/deadlines/{deadline}\">{deadline}</a>"
            ),
            Links::None => write!(f, "{deadline}"),
        }
    }
}

/// A text of several lines, as it stands.
#[derive(Clone, Copy)]
pub struct LinesTold<'a>(pub &'a str);

impl fmt::Display for LinesTold<'_> {
    ghost use Rattle.std.specs.Prelude.{Some};
    ghost use Rattle.html_sheets.specs.Elements.{lines_told};

    ghost output = { λ text. Some (lines_told text.0.now) };

    #[tactic(auto, unfolding(crate::specs::Elements::element))]
    fn fmt<W: fmt::Write>(&self, f: &mut fmt::Formatter<W>) -> fmt::Result {
        let text = Lined(self.0);
        write!(f, "<pre>{text}</pre>")
    }
}

/// What ends a table.
#[tactic(auto, unfolding(crate::specs::Elements::table_foot))]
pub(crate) fn table_foot() -> &'static str
    ensures { result.now ≡ table_foot }
{
    "</tbody>\n</table>\n"
}
