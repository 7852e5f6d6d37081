//! Rows of the table of entries.
ghost use Rattle.std.specs.Prelude.{◌≡◌, Some, IfOk, IfSome};
ghost use Rattle.sqlite.specs.Values.{bound};
ghost use Rattle.docket_history.specs.declared.row.EntryRow.{EntryRow as Entry};
ghost use Rattle.docket_columns.specs.Cells.{entry_cells};
ghost use Rattle.docket_columns.specs.Fits.{IsEntryRow};

use crate::cell::{count_at, day_at, has_values, text_at};
use crate::stored::StoredRow;
use docket_command::Text;
use docket_history::EntryRow;
use sqlite::Row;
use sqlite::types::{ToSql, ValueRef};
use std::alloc::{AllocError, Global};

/// The columns of an entry: case_no, number, day, body.
pub fn entry_values(row: &EntryRow) -> [ValueRef<'_>; 4]
    ensures { bound result ≡ entry_cells row.now }
{
    [
        row.case.to_sql(),
        row.number.to_sql(),
        row.day.epoch_day().to_sql(),
        row.text.as_str().to_sql(),
    ]
}

/// Reads the entry of a row. `None`: it is not a row of an entry.
pub fn entry_of(alloc: Global, row: &Row) -> Result<Option<EntryRow>, AllocError>
    ensures reads { (e : Entry) → IsEntryRow e → row.now ≡ entry_cells e → IfOk result (λ found. found ≡ Some e) }
    ensures sound { IfOk result (λ found. IfSome found (λ e. row.now ≡ entry_cells e)) }
    ensures fits { IfOk result (λ found. IfSome found IsEntryRow) }
{
    let Some(case) = count_at(row, 0) else {
        return Ok(None);
    };
    let Some(number) = count_at(row, 1) else {
        return Ok(None);
    };
    let Some(day) = day_at(row, 2) else {
        return Ok(None);
    };
    let Some(text) = text_at(row, 3) else {
        return Ok(None);
    };
    let found = EntryRow {
        case,
        number,
        day,
        text: Text::from_str(alloc, text)?,
    };
    if has_values(row, &entry_values(&found)) {
        Ok(Some(found))
    } else {
        Ok(None)
    }
}

impl StoredRow for EntryRow {
    ghost use Rattle.docket_columns.specs.Cells.{entry_cells};
    ghost use Rattle.docket_columns.specs.Fits.{IsEntryRow};

    ghost cells = { entry_cells };

    ghost Is = { IsEntryRow };

    fn read(alloc: Global, row: &Row) -> Result<Option<EntryRow>, AllocError> {
        entry_of(alloc, row)
    }
}
