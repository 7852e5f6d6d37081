//! The rows of the court's calendar.
ghost use Rattle.std.specs.Prelude.{◌≡◌, ◌++◌, IfOk, OnOk, string_bytes};
ghost use Rattle.std.specs.List.{flat_map};
ghost use Rattle.html_sheets.specs.Sites.{calendar_head, calendar_told, calendar_row, court_days_page};
ghost use Rattle.docket_text.specs.CourtCalendar.{item_text};

use crate::about::About;
use crate::entering::{calendar_kinds, push_enter_nav};
use crate::page::{page_head, push_site_foot};
use crate::piece::{Told, table_foot};
use crate::site::site_nav;
use court_days::{Court, Day};
use docket_command::Word;
use docket_history::{CalendarItem, CalendarRow};
use docket_text::{ClockText, DayText, MomentText};
use std::alloc::{AllocError, Global};
use std::fmt;

/// What a row enters.
#[derive(Clone, Copy)]
struct ItemText<'a> {
    court: &'a Court,
    item: CalendarItem,
}

impl fmt::Display for ItemText<'_> {
    ghost use Rattle.std.specs.Prelude.{Some};
    ghost use Rattle.docket_text.specs.CourtCalendar.{item_text};

    ghost output = { λ text. Some (item_text text.court.now text.item) };

    fn fmt<W: fmt::Write>(&self, f: &mut fmt::Formatter<W>) -> fmt::Result {
        let court = self.court;
        match self.item {
            CalendarItem::Day(kind, day) => {
                let word = kind.word();
                let day = DayText(day);
                write!(f, "{word} {day}")
            }
            CalendarItem::Span(start, end) => {
                let start = MomentText {
                    court,
                    at: start.seconds(),
                };
                let end = MomentText {
                    court,
                    at: end.seconds(),
                };
                write!(f, "span {start} {end}")
            }
            CalendarItem::Short(day, close) => {
                let day = DayText(day);
                let close = ClockText {
                    minute: close.minute(),
                };
                write!(f, "short {day} {close}")
            }
        }
    }
}

/// The text of what a row enters.
fn item_text(alloc: Global, court: &Court, item: CalendarItem) -> Result<String, AllocError>
    ensures { IfOk result (λ text. string_bytes text ≡ item_text court.now item) }
{
    let item = ItemText { court, item };
    format!(in alloc; "{item}")
}

/// The table of the rows, up to them.
#[tactic(auto, unfolding(crate::specs::Elements::element))]
fn calendar_head() -> &'static str
    ensures { result.now ≡ calendar_head }
{
    "<table>\n<thead>\n<tr><th scope=\"col\">Row</th><th scope=\"col\">Entered</th>\
     <th scope=\"col\">Name</th></tr>\n</thead>\n<tbody>\n"
}

/// Adds a row of the court's calendar, by the text of what it enters.
fn push_told(text: &mut String, row: &CalendarRow, item: &str) -> Result<(), AllocError>
    ensures { OnOk result (string_bytes text.new ≡ string_bytes text.old ++ calendar_told row.now item.now) }
{
    let number = row.number;
    let item = Told(item);
    let name = Told(row.name.as_str());
    write!(
        text,
        "<tr><th scope=\"row\" class=\"number\">{number}</th><td class=\"number\">{item}</td><td>{name}</td></tr>\n"
    )
}

/// Adds a row of the court's calendar.
fn push_row(
    alloc: Global,
    text: &mut String,
    court: &Court,
    row: &CalendarRow,
) -> Result<(), AllocError>
    ensures { OnOk result (string_bytes text.new ≡ string_bytes text.old ++ calendar_row court.now row.now) }
{
    let item = item_text(alloc, court, row.item)?;
    push_told(text, row, &item)
}

/// Adds each row of the court's calendar.
fn push_rows(
    alloc: Global,
    text: &mut String,
    court: &Court,
    rows: &[CalendarRow],
) -> Result<(), AllocError>
    ensures { OnOk result (string_bytes text.new ≡ string_bytes text.old ++ flat_map (calendar_row court.now) rows.now) }
{
    for row in rows {
        push_row(alloc, text, court, row)?;
    }
    Ok(())
}

/// Returns the page of the rows that the court entered in its calendar, as they stand on a day: of each its
/// number, by which it is withdrawn, what it enters, and its name. It has links to the forms that change them.
pub fn court_days_page(
    alloc: Global,
    court: &Court,
    rows: &[CalendarRow],
    day: Day,
) -> Result<String, AllocError>
    ensures { IfOk result (λ text. string_bytes text ≡ court_days_page court.now rows.now day) }
{
    let mut text = page_head(alloc, "Court days")?;
    text.push_str(site_nav())?;
    push_enter_nav(&mut text, About::Nothing, calendar_kinds())?;
    text.push_str(calendar_head())?;
    push_rows(alloc, &mut text, court, rows)?;
    text.push_str(table_foot())?;
    push_site_foot(&mut text, day)?;
    Ok(text)
}
