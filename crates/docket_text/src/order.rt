//! The rows of the court's calendar, and their order.
ghost use Rattle.std.specs.Prelude.{◌≡◌, ◌++◌, IfOk, OnOk};
ghost use Rattle.docket_text.specs.CalendarOrder.{row_where, due_rows, day_of_end, end_cmp, calendar_cmp, IsCalendar};

use crate::time::shown;
use court_days::{Court, Day, End};
use court_rules::Standing;
use docket_history::{DeadlineLine, DueRow};
use std::alloc::{AllocError, Global};
use std::cmp::Ordering;

/// Adds the row of a deadline of the case, if its time runs.
fn push_running(rows: &mut Vec<DueRow>, case: u32, line: &DeadlineLine) -> Result<(), AllocError>
    ensures { OnOk result (rows.new.items ≡ rows.old.items ++ row_where case line.now line.now.standing) }
{
    match line.standing {
        Standing::Running(end) => {
            rows.push(DueRow {
                end,
                close: line.close,
                case,
                number: line.number,
                party: line.party,
                rule: line.rule.copied()?,
            })?;
            Ok(())
        }
        Standing::Suspended | Standing::Awaiting | Standing::Done | Standing::Vacated => Ok(()),
    }
}

/// The rows of the deadlines of a case whose time runs, in the order of the deadlines.
pub fn due_rows(alloc: Global, case: u32, lines: &[DeadlineLine]) -> Result<Vec<DueRow>, AllocError>
    ensures { IfOk result (λ rows. rows.items ≡ due_rows case lines.now) }
{
    let mut rows = Vec::new(alloc);
    for line in lines {
        push_running(&mut rows, case, line)?;
    }
    Ok(rows)
}

/// The last day, or the local day of the instant.
fn day_of_end(court: &Court, end: End) -> Day
    ensures { result ≡ day_of_end court.now end }
{
    match end {
        End::LastDay(day) => day,
        End::Moment(at) => court.local(shown(at)).0,
    }
}

/// Instants in their order, and before last days.
fn compare_ends(a: End, b: End) -> Ordering
    ensures { result ≡ end_cmp a b }
{
    match (a, b) {
        (End::Moment(at), End::Moment(other)) => at.cmp(&other),
        (End::Moment(_), End::LastDay(_)) => Ordering::Less,
        (End::LastDay(_), End::Moment(_)) => Ordering::Greater,
        (End::LastDay(_), End::LastDay(_)) => Ordering::Equal,
    }
}

/// Which row comes first in the calendar.
fn compare(court: &Court, a: &DueRow, b: &DueRow) -> Ordering
    ensures { result ≡ calendar_cmp court.now a.now b.now }
{
    day_of_end(court, a.end)
        .cmp(&day_of_end(court, b.end))
        .then(compare_ends(a.end, b.end))
        .then(a.case.cmp(&b.case))
        .then(a.number.cmp(&b.number))
}

/// Puts rows in the order of the calendar: by the day, on a day the instants in their order before
/// the last days, then by the case and by the deadline's number there.
pub fn sort_calendar(court: &Court, rows: &mut Vec<DueRow>)
    ensures { IsCalendar court.now rows.old.items rows.new.items }
{
    rows.sort_unstable_by(|a, b| compare(court, a, b));
}
