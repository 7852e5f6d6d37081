//! Rows of the table of the calendar: days and spans.
ghost use Rattle.std.specs.Prelude.{◌≡◌, ◌↔◌, Some, IsTrue, IfOk, IfSome};
ghost use Rattle.sqlite.specs.Values.{bound};
ghost use Rattle.docket_history.specs.declared.item.CalendarItem.{CalendarItem as Item};
ghost use Rattle.docket_history.specs.declared.row.CalendarRow.{CalendarRow as Line};
ghost use Rattle.docket_columns.specs.Cells.{calendar_cells};
ghost use Rattle.docket_columns.specs.Codes.{item_code};
ghost use Rattle.docket_columns.specs.Fits.{IsItem, IsNameOf, IsCalendarRow};

use crate::cell::{count_at, day_numbered, has_values, number_at, text_at};
use crate::codes::{day_kind_number, day_kind_of};
use crate::stored::StoredRow;
use docket_command::{Moment, Text};
use docket_history::{CalendarItem, CalendarRow};
use sqlite::Row;
use sqlite::types::{ToSql, ValueRef};
use std::alloc::{AllocError, Global};

/// The number of the kind of a span.
const SPAN: u32 = 4;

/// That of a short day, which has no row in this table.
const NONE: u32 = 0;

/// The values of the columns kind, a and b.
#[derive(Clone, Copy)]
pub(crate) struct ItemCode {
    pub(crate) kind: u32,
    pub(crate) a: i64,
    pub(crate) b: i64,
}

fn item_code(item: CalendarItem) -> ItemCode
    ensures { result ≡ item_code item }
{
    match item {
        CalendarItem::Day(kind, day) => ItemCode {
            kind: day_kind_number(kind),
            a: i64::from(day.epoch_day()),
            b: 0,
        },
        CalendarItem::Span(start, end) => ItemCode {
            kind: SPAN,
            a: start.seconds(),
            b: end.seconds(),
        },
        CalendarItem::Short(day, close) => ItemCode {
            kind: NONE,
            a: i64::from(day.epoch_day()),
            b: i64::from(close.minute()),
        },
    }
}

fn item_of(code: ItemCode) -> Option<CalendarItem>
    ensures reads { (item : Item) → IsItem item → code ≡ item_code item → result ≡ Some item }
    ensures fits { IfSome result IsItem }
{
    if code.kind == SPAN {
        let start = Moment::new(code.a)?;
        let end = Moment::new(code.b)?;
        return Some(CalendarItem::Span(start, end));
    }
    let kind = day_kind_of(code.kind)?;
    let day = day_numbered(code.a)?;
    Some(CalendarItem::Day(kind, day))
}

/// The name of a span is empty.
fn may_be_named(item: CalendarItem, name: &str) -> bool
    ensures { IsTrue result ↔ IsNameOf item name.now }
{
    match item {
        CalendarItem::Day(_, _) | CalendarItem::Short(_, _) => true,
        CalendarItem::Span(_, _) => name.is_empty(),
    }
}

/// The columns of a row of the calendar: row_no, kind, a, b, name.
pub fn calendar_values(row: &CalendarRow) -> [ValueRef<'_>; 5]
    ensures { bound result ≡ calendar_cells row.now }
{
    let code = item_code(row.item);
    [
        row.number.to_sql(),
        code.kind.to_sql(),
        code.a.to_sql(),
        code.b.to_sql(),
        row.name.as_str().to_sql(),
    ]
}

/// Reads the item in the columns of a row.
fn item_at(row: &Row) -> Option<CalendarItem>
    ensures reads { (r : Line) → IsCalendarRow r → row.now ≡ calendar_cells r → result ≡ Some r.item }
    ensures fits { IfSome result IsItem }
{
    item_of(ItemCode {
        kind: count_at(row, 1)?,
        a: number_at(row, 2)?,
        b: number_at(row, 3)?,
    })
}

/// Reads the row of the calendar of a row. `None`: it is not one.
pub fn calendar_of(alloc: Global, row: &Row) -> Result<Option<CalendarRow>, AllocError>
    ensures reads { (r : Line) → IsCalendarRow r → row.now ≡ calendar_cells r → IfOk result (λ found. found ≡ Some r) }
    ensures sound { IfOk result (λ found. IfSome found (λ r. row.now ≡ calendar_cells r)) }
    ensures fits { IfOk result (λ found. IfSome found IsCalendarRow) }
{
    let Some(number) = count_at(row, 0) else {
        return Ok(None);
    };
    let Some(item) = item_at(row) else {
        return Ok(None);
    };
    let Some(name) = text_at(row, 4) else {
        return Ok(None);
    };
    if !may_be_named(item, name) {
        return Ok(None);
    }
    let found = CalendarRow {
        number,
        item,
        name: Text::from_str(alloc, name)?,
    };
    if has_values(row, &calendar_values(&found)) {
        Ok(Some(found))
    } else {
        Ok(None)
    }
}

impl StoredRow for CalendarRow {
    ghost use Rattle.docket_columns.specs.Cells.{calendar_cells};
    ghost use Rattle.docket_columns.specs.Fits.{IsCalendarRow};

    ghost cells = { calendar_cells };

    ghost Is = { IsCalendarRow };

    fn read(alloc: Global, row: &Row) -> Result<Option<CalendarRow>, AllocError> {
        calendar_of(alloc, row)
    }
}
