//! Rows of the table of short days.
ghost use Rattle.std.specs.Prelude.{◌≡◌, ◌<◌, ℕ, pos, Some, IfOk, IfSome};
ghost use Rattle.sqlite.specs.Values.{bound};
ghost use Rattle.sqlite_value.specs.Order.{column};
ghost use Rattle.sqlite_value.specs.declared.value.Value.TheVariants.{Int};
ghost use Rattle.docket_history.specs.declared.row.ShortDayRow.{ShortDayRow as Line};
ghost use Rattle.docket_columns.specs.Cells.{short_day_cells};
ghost use Rattle.docket_columns.specs.Fits.{IsShortDayRow};

use crate::cell::{count_at, day_at, has_values, text_at};
use crate::stored::StoredRow;
use court_days::Day;
use docket_command::{Text, TimeOfDay};
use docket_history::ShortDayRow;
use sqlite::Row;
use sqlite::types::{ToSql, ValueRef};
use std::alloc::{AllocError, Global};

/// The columns of a short day: row_no, day, close, name.
pub fn short_day_values(number: u32, day: Day, close: TimeOfDay, name: &str) -> [ValueRef<'_>; 4]
    ensures { bound result ≡ short_day_cells (record { number = number; day = day; close = close; name = name.now }) }
{
    [
        number.to_sql(),
        day.epoch_day().to_sql(),
        close.minute().to_sql(),
        name.to_sql(),
    ]
}

/// The minute of a day in a column.
fn time_at(row: &Row, at: usize) -> Option<TimeOfDay>
    ensures { (minute : ℕ) → minute < 1440 → column row.now at ≡ Int (pos minute) → result ≡ Some minute }
{
    TimeOfDay::new(count_at(row, at)?)
}

/// Reads the short day of a row. `None`: it is not a row of one.
pub fn short_day_of(alloc: Global, row: &Row) -> Result<Option<ShortDayRow>, AllocError>
    ensures reads { (r : Line) → IsShortDayRow r → row.now ≡ short_day_cells r → IfOk result (λ found. found ≡ Some r) }
    ensures sound { IfOk result (λ found. IfSome found (λ r. row.now ≡ short_day_cells r)) }
    ensures fits { IfOk result (λ found. IfSome found IsShortDayRow) }
{
    let Some(number) = count_at(row, 0) else {
        return Ok(None);
    };
    let Some(day) = day_at(row, 1) else {
        return Ok(None);
    };
    let Some(close) = time_at(row, 2) else {
        return Ok(None);
    };
    let Some(name) = text_at(row, 3) else {
        return Ok(None);
    };
    let values = short_day_values(number, day, close, name);
    if !has_values(row, &values) {
        return Ok(None);
    }
    Ok(Some(ShortDayRow {
        number,
        day,
        close,
        name: Text::from_str(alloc, name)?,
    }))
}

impl StoredRow for ShortDayRow {
    ghost use Rattle.docket_columns.specs.Cells.{short_day_cells};
    ghost use Rattle.docket_columns.specs.Fits.{IsShortDayRow};

    ghost cells = { short_day_cells };

    ghost Is = { IsShortDayRow };

    fn read(alloc: Global, row: &Row) -> Result<Option<ShortDayRow>, AllocError> {
        short_day_of(alloc, row)
    }
}
