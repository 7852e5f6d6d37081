//! The court's calendar by its rows, and its rows after a command.
ghost use Rattle.std.specs.Prelude.{◌≡◌, ◌==◌, not, filter, IfErr, IfOk, OnOk};
ghost use Rattle.docket_applying.specs.Sound.{IsSoundCalendar};
ghost use Rattle.docket_applying.specs.Told.{IsNotTold};
ghost use Rattle.docket_decisions.specs.Tables.{Tables, all_changed, changed};
ghost use Rattle.docket_history.specs.CalendarItems.{calendar_of};
ghost use Rattle.docket_history.specs.Histories.{items_of};

use court_days::Calendar;
use docket_applying::is_sound_calendar;
use docket_history::{CalendarItem, CalendarRow, Change, calendar_of};
use docket_store::Fault;
use std::alloc::{AllocError, Global};

/// What the rows enter, in their order.
fn items_of(alloc: Global, rows: &[CalendarRow]) -> Result<Vec<CalendarItem>, AllocError>
    ensures { IfOk result (λ items. items.items ≡ items_of rows.now) }
{
    let mut items = Vec::new(alloc);
    for row in rows {
        items.push(row.item)?;
    }
    Ok(items)
}

/// The calendar of the rows, if a docket can have them.
pub(crate) fn calendar_of_rows(alloc: Global, rows: &[CalendarRow]) -> Result<Calendar, Fault>
    ensures ok { IfOk result (λ calendar. calendar ≡ calendar_of (items_of rows.now)) }
    ensures err { IfErr result (IsNotTold (IsSoundCalendar (items_of rows.now))) }
{
    let items = items_of(alloc, rows)?;
    if !is_sound_calendar(items.as_slice()) {
        return Err(Fault::Damaged);
    }
    let calendar = calendar_of(alloc, items.as_slice())?;
    Ok(calendar)
}

/// Removes the row of a number.
fn remove_row(rows: &mut Vec<CalendarRow>, number: u32)
    ensures { rows.new.items ≡ filter (λ row. not (row.number == number)) rows.old.items }
{
    rows.retain(|row| row.number != number);
}

/// Makes a change, where it is one of the court's calendar.
fn change_rows(rows: &mut Vec<CalendarRow>, change: Change) -> Result<(), AllocError>
    ensures { (t : Tables) → rows.old.items ≡ t.calendar → OnOk result (rows.new.items ≡ (changed change t).calendar) }
{
    match change {
        Change::AddCalendar(row) => rows.push(row)?,
        Change::RemoveCalendar(number) => remove_row(rows, number),
        _ => {}
    }
    Ok(())
}

/// The rows after these changes.
pub(crate) fn rows_after(
    mut rows: Vec<CalendarRow>,
    changes: Vec<Change>,
) -> Result<Vec<CalendarRow>, AllocError>
    ensures { (t : Tables) → rows.items ≡ t.calendar → IfOk result (λ now. now.items ≡ (all_changed changes.items t).calendar) }
{
    'changes: for change in changes {
        change_rows(&mut rows, change)?;
    }
    Ok(rows)
}
