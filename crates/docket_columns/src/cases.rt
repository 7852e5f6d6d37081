//! Rows of the table of cases.
ghost use Rattle.std.specs.Prelude.{◌≡◌, Some, IfOk, IfSome};
ghost use Rattle.sqlite.specs.Values.{bound};
ghost use Rattle.docket_history.specs.declared.row.CaseRow.{CaseRow as Case};
ghost use Rattle.docket_columns.specs.Cells.{case_cells};
ghost use Rattle.docket_columns.specs.Fits.{IsCaseRow};

use crate::cell::{count_at, day_at, has_values, text_at};
use crate::stored::StoredRow;
use docket_command::Text;
use docket_history::CaseRow;
use sqlite::Row;
use sqlite::types::{ToSql, ValueRef};
use std::alloc::{AllocError, Global};

/// The columns of a case: number, label, caption, filed.
pub fn case_values(row: &CaseRow) -> [ValueRef<'_>; 4]
    ensures { bound result ≡ case_cells row.now }
{
    [
        row.number.to_sql(),
        row.label.as_str().to_sql(),
        row.caption.as_str().to_sql(),
        row.filed.epoch_day().to_sql(),
    ]
}

/// Reads the case of a row. `None`: it is not a row of a case.
pub fn case_of(alloc: Global, row: &Row) -> Result<Option<CaseRow>, AllocError>
    ensures reads { (c : Case) → IsCaseRow c → row.now ≡ case_cells c → IfOk result (λ found. found ≡ Some c) }
    ensures sound { IfOk result (λ found. IfSome found (λ c. row.now ≡ case_cells c)) }
    ensures fits { IfOk result (λ found. IfSome found IsCaseRow) }
{
    let Some(number) = count_at(row, 0) else {
        return Ok(None);
    };
    let Some(label) = text_at(row, 1) else {
        return Ok(None);
    };
    let Some(caption) = text_at(row, 2) else {
        return Ok(None);
    };
    let Some(filed) = day_at(row, 3) else {
        return Ok(None);
    };
    let found = CaseRow {
        number,
        label: Text::from_str(alloc, label)?,
        caption: Text::from_str(alloc, caption)?,
        filed,
    };
    if has_values(row, &case_values(&found)) {
        Ok(Some(found))
    } else {
        Ok(None)
    }
}

impl StoredRow for CaseRow {
    ghost use Rattle.docket_columns.specs.Cells.{case_cells};
    ghost use Rattle.docket_columns.specs.Fits.{IsCaseRow};

    ghost cells = { case_cells };

    ghost Is = { IsCaseRow };

    fn read(alloc: Global, row: &Row) -> Result<Option<CaseRow>, AllocError> {
        case_of(alloc, row)
    }
}
