//! Rows of the table of ends.
ghost use Rattle.std.specs.Prelude.{◌≡◌, ℤ, pos, Option as Optional, Some, IfSome};
ghost use Rattle.sqlite.specs.Values.{bound};
ghost use Rattle.sqlite_value.specs.Order.{column};
ghost use Rattle.sqlite_value.specs.declared.value.Value.TheVariants.{Int};
ghost use Rattle.docket_decisions.specs.declared.end_row.StoredEnd.{StoredEnd as Ended};
ghost use Rattle.docket_decisions.specs.declared.end_row.EndTime.{EndTime as Time};
ghost use Rattle.docket_columns.specs.Cells.{end_cells, moment_cell};
ghost use Rattle.docket_columns.specs.Fits.{IsStoredMoment, IsEndTime, IsEndRow};

use crate::cell::{count_at, day_at, has_values, number_at};
use crate::stored::StoredRow;
use docket_decisions::{EndTime, StoredEnd};
use sqlite::Row;
use sqlite::types::{ToSql, ValueRef};
use std::alloc::{AllocError, Global};

/// The value in place of an instant where the time runs to the end of its last day.
const WHOLE_DAY: i64 = 9_999_999_999_999;

/// The value of the column of an instant.
fn moment_cell(moment: Option<i64>) -> i64
    ensures { result ≡ moment_cell moment }
{
    match moment {
        Some(at) => at,
        None => WHOLE_DAY,
    }
}

/// Reads an instant from its number. `None`: the time runs to the end of the day.
fn moment_of(number: i64) -> Option<i64>
    ensures reads { (moment : Optional ℤ) → IsStoredMoment moment → number ≡ moment_cell moment → result ≡ moment }
    ensures fits { IsStoredMoment result }
{
    if number == WHOLE_DAY {
        None
    } else {
        Some(number)
    }
}

/// The columns of an end: case_no, deadline_no, day, moment.
pub fn end_values(row: &StoredEnd) -> [ValueRef<'static>; 4]
    ensures { bound result ≡ end_cells row.now }
{
    [
        row.case.to_sql(),
        row.deadline.to_sql(),
        row.end.day.epoch_day().to_sql(),
        moment_cell(row.end.moment).to_sql(),
    ]
}

/// Reads the end whose day and moment are in these columns. `None`: they hold none.
pub fn end_time_at(row: &Row, day: usize, moment: usize) -> Option<EndTime>
    ensures reads { (end : Time) → IsEndTime end → column row.now day ≡ Int (pos end.day) → column row.now moment ≡ Int (moment_cell end.moment)
        → result ≡ Some end }
    ensures fits { IfSome result IsEndTime }
{
    Some(EndTime {
        day: day_at(row, day)?,
        moment: moment_of(number_at(row, moment)?),
    })
}

/// Reads the end of a row. `None`: it is not a row of an end.
pub fn end_of(row: &Row) -> Option<StoredEnd>
    ensures reads { (e : Ended) → IsEndRow e → row.now ≡ end_cells e → result ≡ Some e }
    ensures sound { IfSome result (λ e. row.now ≡ end_cells e) }
    ensures fits { IfSome result IsEndRow }
{
    let found = StoredEnd {
        case: count_at(row, 0)?,
        deadline: count_at(row, 1)?,
        end: end_time_at(row, 2, 3)?,
    };
    if has_values(row, &end_values(&found)) {
        Some(found)
    } else {
        None
    }
}

impl StoredRow for StoredEnd {
    ghost use Rattle.docket_columns.specs.Cells.{end_cells};
    ghost use Rattle.docket_columns.specs.Fits.{IsEndRow};

    ghost cells = { end_cells };

    ghost Is = { IsEndRow };

    fn read(_alloc: Global, row: &Row) -> Result<Option<StoredEnd>, AllocError> {
        Ok(end_of(row))
    }
}
