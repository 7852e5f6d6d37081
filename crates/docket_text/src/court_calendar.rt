//! The text of the court's calendar: the statutory holidays, and the rows that the court entered.
ghost use Rattle.std.specs.Prelude.{◌≡◌, ◌++◌, filter, IfOk, OnOk, string_bytes};
ghost use Rattle.std.specs.List.{flat_map};
ghost use Rattle.docket_text.specs.CourtCalendar.{calendar_row_line, court_calendar_text, first_day, last_day, statutory_lines, touches};

use crate::holiday::push_holidays;
use crate::time::{ClockText, DayText, MomentText, shown};
use court_days::{Court, Day};
use docket_command::Word;
use docket_history::{CalendarItem, CalendarRow};
use std::alloc::{AllocError, Global};
use std::fmt;

/// What a row enters.
#[derive(Clone, Copy)]
struct ItemText<'a> {
    court: &'a Court,
    item: CalendarItem,
}

impl fmt::Display for ItemText<'_> {
    ghost use Rattle.std.specs.Prelude.{Some};
    ghost use Rattle.docket_text.specs.CourtCalendar.{item_text};

    ghost output = { λ text. Some (item_text text.court.now text.item) };

    fn fmt<W: fmt::Write>(&self, f: &mut fmt::Formatter<W>) -> fmt::Result {
        let court = self.court;
        match self.item {
            CalendarItem::Day(kind, day) => {
                let word = kind.word();
                let day = DayText(day);
                write!(f, "{word} {day}")
            }
            CalendarItem::Span(start, end) => {
                let start = MomentText {
                    court,
                    at: start.seconds(),
                };
                let end = MomentText {
                    court,
                    at: end.seconds(),
                };
                write!(f, "span {start} {end}")
            }
            CalendarItem::Short(day, close) => {
                let day = DayText(day);
                let close = ClockText {
                    minute: close.minute(),
                };
                write!(f, "short {day} {close}")
            }
        }
    }
}

/// The line of a row.
#[derive(Clone, Copy)]
struct RowLine<'a> {
    court: &'a Court,
    row: &'a CalendarRow,
}

impl fmt::Display for RowLine<'_> {
    ghost use Rattle.std.specs.Prelude.{Some};
    ghost use Rattle.docket_text.specs.CourtCalendar.{calendar_row_line};

    ghost output = { λ line. Some (calendar_row_line line.court.now line.row.now) };

    fn fmt<W: fmt::Write>(&self, f: &mut fmt::Formatter<W>) -> fmt::Result {
        let number = self.row.number;
        let item = ItemText {
            court: self.court,
            item: self.row.item,
        };
        let name = self.row.name.as_str();
        if name.is_empty() {
            writeln!(f, "row {number} {item}")
        } else {
            writeln!(f, "row {number} {item} {name}")
        }
    }
}

/// The first and the last of the days on which a row has a part.
fn days_of(court: &Court, item: CalendarItem) -> (Day, Day)
    ensures first { result.0 ≡ first_day court.now item }
    ensures last { result.1 ≡ last_day court.now item }
{
    match item {
        CalendarItem::Day(_, day) | CalendarItem::Short(day, _) => (day, day),
        CalendarItem::Span(start, end) => {
            let (first, _) = court.local(shown(start.seconds()));
            let (last, _) = court.local(shown(end.seconds() - 1));
            (first, last)
        }
    }
}

/// Whether a row has a part on one of the days from one to another.
fn touches(court: &Court, from: Day, to: Day, row: &CalendarRow) -> bool
    ensures { result ≡ touches court.now from to row.now }
{
    let (first, last) = days_of(court, row.item);
    first.epoch_day() <= to.epoch_day() && from.epoch_day() <= last.epoch_day()
}

/// Adds a line for each statutory holiday of the days from one to another.
fn push_statutory(text: &mut String, from: Day, to: Day) -> Result<(), AllocError>
    ensures { OnOk result (string_bytes text.new ≡ string_bytes text.old ++ statutory_lines from to) }
{
    let end = to.epoch_day() + 1;
    push_holidays(text, from, end.saturating_sub(from.epoch_day()))
}

/// Adds a line for each of the rows that has a part on one of the days from one to another.
fn push_rows(
    text: &mut String,
    court: &Court,
    rows: &[CalendarRow],
    from: Day,
    to: Day,
) -> Result<(), AllocError>
    ensures { OnOk result (string_bytes text.new
        ≡ string_bytes text.old ++ flat_map (calendar_row_line court.now) (filter (touches court.now from to) rows.now)) }
{
    for row in rows {
        if touches(court, from, to, row) {
            let line = RowLine { court, row };
            write!(text, "{line}")?;
        }
    }
    Ok(())
}

/// The court's calendar of the days from one to another, both included. It has a line for each
/// statutory holiday, in the order of the days. Behind them it has one for each of the rows that has a
/// part on these days, in the order in which they are given.
pub fn court_calendar_text(
    alloc: Global,
    court: &Court,
    rows: &[CalendarRow],
    from: Day,
    to: Day,
) -> Result<String, AllocError>
    ensures { IfOk result (λ text. string_bytes text ≡ court_calendar_text court.now rows.now from to) }
{
    let mut text = String::new(alloc);
    push_statutory(&mut text, from, to)?;
    push_rows(&mut text, court, rows, from, to)?;
    Ok(text)
}
