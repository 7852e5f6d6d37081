//! Deadlines whose time runs, as rows of SQL.
ghost use Rattle.std.specs.Prelude.{◌≡◌, Some, IfOk};
ghost use Rattle.docket_history.specs.declared.record.DueRow.{DueRow as Due};
ghost use Rattle.docket_calendar.specs.DueCells.{due_cells, IsDue};

use court_days::{Calendar, Court};
use docket_columns::{count_at, end_time_at, text_at};
use docket_command::Text;
use docket_history::{DueRow, close_of_end};
use sqlite::Row;
use std::alloc::{AllocError, Global};

/// Reads the deadline of a row: day, moment, case, deadline, party, rule. The calendar has when the clerk's
/// office closes on its last day. `None`: the row is not a deadline.
pub(crate) fn due_of(
    alloc: Global,
    court: &Court,
    entered: &Calendar,
    row: &Row,
) -> Result<Option<DueRow>, AllocError>
    ensures { (d : Due) → IsDue court.now entered.now d → row.now ≡ due_cells court.now d
        → IfOk result (λ found. found ≡ Some d) }
{
    let Some(stored) = end_time_at(row, 0, 1) else {
        return Ok(None);
    };
    let Some(case) = count_at(row, 2) else {
        return Ok(None);
    };
    let Some(number) = count_at(row, 3) else {
        return Ok(None);
    };
    let Some(party) = count_at(row, 4) else {
        return Ok(None);
    };
    let Some(rule) = text_at(row, 5) else {
        return Ok(None);
    };
    let end = stored.end();
    Ok(Some(DueRow {
        end,
        close: close_of_end(court, entered, end),
        case,
        number,
        party,
        rule: Text::from_str(alloc, rule)?,
    }))
}
