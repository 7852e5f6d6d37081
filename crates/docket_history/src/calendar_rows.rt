//! The calendar of its present rows, and the rows that an action adds to them.
ghost use Rattle.std.specs.Prelude.{◌≡◌, ◌+◌, ◌≤◌, ◌<◌, ◌++◌, ◌∷◌, [], map, length, IfOk, OnOk};
ghost use Rattle.std.specs.List.{All, list_any};
ghost use Rattle.court_days.specs.LocalTime.{seconds};
ghost use Rattle.court_days.specs.Civil.{IsEnteredDay, IsEnteredSpan};
ghost use Rattle.court_days.specs.Calendar.{rows_of, with_day, with_span, with_short};
ghost use Rattle.court_days.specs.declared.calendar.CalendarFault.TheVariants as Fault;
ghost use Rattle.docket_history.specs.Actions.{imported};
ghost use Rattle.docket_history.specs.CalendarItems.{fresh, is_same_item, stands_among, with_item, entered_with, calendar_of, IsEnteredItem};
ghost use Rattle.docket_history.specs.Histories.{rows_added};
ghost use Rattle.court_days.specs.Limits.{most_rows};

use crate::item::{CalendarItem, NewRow, stands_among};
use crate::subject::{days_imported, row_entered};
use court_days::{Calendar, CalendarFault, Day, DayKind};
use docket_command::{Action, NewDay, Text};
use std::alloc::{AllocError, Global};

/// The error for a fault that only a lack of memory can cause.
fn want_of_memory(fault: CalendarFault) -> AllocError
    requires { fault ≡ Fault.NoMemory }
{
    AllocError
}

fn enter_day(calendar: &mut Calendar, kind: DayKind, day: Day) -> Result<(), AllocError>
    requires day { IsEnteredDay day }
    requires room { rows_of calendar.old < most_rows }
    ensures entered { OnOk result (calendar.new ≡ with_day calendar.old kind day) }
    ensures rows { rows_of calendar.new ≤ rows_of calendar.old + 1 }
{
    match calendar.add_day(kind, day) {
        Ok(_) => Ok(()),
        Err(fault) => Err(want_of_memory(fault)),
    }
}

fn enter_span(calendar: &mut Calendar, start: i64, end: i64) -> Result<(), AllocError>
    requires span { IsEnteredSpan (seconds start) (seconds end) }
    requires room { rows_of calendar.old < most_rows }
    ensures entered { OnOk result (calendar.new ≡ with_span calendar.old (seconds start) (seconds end)) }
    ensures rows { rows_of calendar.new ≤ rows_of calendar.old + 1 }
{
    match calendar.add_span(start, end) {
        Ok(_) => Ok(()),
        Err(fault) => Err(want_of_memory(fault)),
    }
}

fn enter_short(calendar: &mut Calendar, day: Day, minute: u32) -> Result<(), AllocError>
    requires day { IsEnteredDay day }
    requires minute { minute < 1440 }
    requires room { rows_of calendar.old < most_rows }
    ensures entered { OnOk result (calendar.new ≡ with_short calendar.old day minute) }
    ensures rows { rows_of calendar.new ≤ rows_of calendar.old + 1 }
{
    match calendar.add_short(day, minute) {
        Ok(_) => Ok(()),
        Err(fault) => Err(want_of_memory(fault)),
    }
}

/// Enters an item.
fn enter(calendar: &mut Calendar, item: CalendarItem) -> Result<(), AllocError>
    requires item { IsEnteredItem item }
    requires room { rows_of calendar.old < most_rows }
    ensures entered { OnOk result (calendar.new ≡ with_item calendar.old item) }
    ensures rows { rows_of calendar.new ≤ rows_of calendar.old + 1 }
{
    match item {
        CalendarItem::Day(kind, day) => enter_day(calendar, kind, day),
        CalendarItem::Span(start, end) => enter_span(calendar, start.seconds(), end.seconds()),
        CalendarItem::Short(day, close) => enter_short(calendar, day, close.minute()),
    }
}

/// The calendar of items, which are ones that a court may enter, at most 4,000.
pub fn calendar_of(alloc: Global, items: &[CalendarItem]) -> Result<Calendar, AllocError>
    requires items { All IsEnteredItem items.now }
    requires rows { length items.now ≤ most_rows }
    ensures { IfOk result (λ calendar. calendar ≡ calendar_of items.now) }
{
    let mut calendar = Calendar::new(alloc);
    for item in items {
        enter(&mut calendar, *item)?;
    }
    Ok(calendar)
}

/// Whether one of the rows enters the item.
fn is_in_rows(rows: &[NewRow], item: CalendarItem) -> bool
    ensures { result ≡ list_any (λ row. is_same_item row.item item) rows.now }
{
    rows.iter().any(|row| row.item.is_same(item))
}

/// Whether the item is among those that are there or in the rows.
fn is_among(standing: &[CalendarItem], rows: &[NewRow], item: &CalendarItem) -> bool
    ensures { result ≡ stands_among (standing.now ++ map (λ row. row.item) rows.now) item.now }
{
    stands_among(standing, *item) || is_in_rows(rows, *item)
}

/// Adds a row, if what it enters is not there yet.
fn push_fresh(
    alloc: Global,
    rows: &mut Vec<NewRow>,
    standing: &[CalendarItem],
    item: &CalendarItem,
    name: &str,
) -> Result<(), AllocError>
    ensures { OnOk result (rows.new.items ≡ rows.old.items
        ++ fresh (standing.now ++ map (λ row. row.item) rows.old.items) (record { item = item.now; name = name.now } ∷ [])) }
{
    if is_among(standing, rows.as_slice(), item) {
        return Ok(());
    }
    let name = Text::from_str(alloc, name)?;
    let row = NewRow { item: *item, name };
    rows.push(row)?;
    Ok(())
}

/// The row, if what it enters is not there yet.
fn fresh_row(
    alloc: Global,
    standing: &[CalendarItem],
    item: CalendarItem,
    name: &str,
) -> Result<Vec<NewRow>, AllocError>
    ensures { IfOk result (λ rows. rows.items ≡ fresh standing.now (record { item = item; name = name.now } ∷ [])) }
{
    let mut rows = Vec::new(alloc);
    push_fresh(alloc, &mut rows, standing, &item, name)?;
    Ok(rows)
}

/// The rows of the imported days that are not there yet, of equal days the first.
fn fresh_days(
    alloc: Global,
    standing: &[CalendarItem],
    days: &[NewDay],
) -> Result<Vec<NewRow>, AllocError>
    ensures { IfOk result (λ rows. rows.items ≡ fresh standing.now (map imported days.now)) }
{
    let mut rows = Vec::new(alloc);
    for new in days {
        let item = CalendarItem::Day(new.kind, new.day);
        push_fresh(alloc, &mut rows, standing, &item, new.name.as_str())?;
    }
    Ok(rows)
}

/// The rows that an action adds to those that are there.
pub fn rows_added(
    alloc: Global,
    standing: &[CalendarItem],
    action: &Action,
) -> Result<Vec<NewRow>, AllocError>
    ensures { IfOk result (λ rows. rows.items ≡ rows_added standing.now action.now) }
{
    match row_entered(action) {
        Some((item, name)) => fresh_row(alloc, standing, item, name),
        None => fresh_days(alloc, standing, days_imported(action)),
    }
}
