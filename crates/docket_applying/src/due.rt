//! The deadlines of a docket that fall due.
ghost use Rattle.std.specs.Prelude.{◌≡◌, List, Option, false};
ghost use Rattle.sqlite.specs.Held.{state};
ghost use Rattle.sqlite.specs.State.{HasCleanDisk};
ghost use Rattle.docket_calendar.specs.Calendar.{calendar_rows};
ghost use Rattle.docket_history.specs.Histories.{History};
ghost use Rattle.docket_history.specs.Records.{calendar as entered_by};
ghost use Rattle.docket_history.specs.declared.item.CalendarItem.{CalendarItem as Item};
ghost use Rattle.docket_applying.specs.Asking.{LeavesIdle};
ghost use Rattle.docket_applying.specs.Applying.{Asks, Stands};
ghost use Rattle.docket_applying.specs.Dockets.{serving};

use crate::asking::calendar_taken;
use crate::fault::{Fault, read_fault};
use court_days::{Calendar, Court, Day};
use docket_calendar::due_rows;
use docket_history::{DueRow, StandingCalendar};
use sqlite::{Alter, Connection, Error};
use std::alloc::Global;

/// The deadlines whose time runs to a day of a range, by a calendar that has when the clerk's office closes.
fn due_by<S: Alter>(
    conn: &mut Connection<S>,
    alloc: Global,
    court: &Court,
    entered: &Calendar,
    from: Day,
    to: Day,
    failure: &mut Option<Error>,
) -> Result<Vec<DueRow>, Fault>
    requires { conn.old.in_transaction ≡ false }
    ensures leaves { LeavesIdle S.Store conn.old conn.new failure.new result }
    ensures answer { (kept : Option (List Item)) (h : History) → Stands S.Store (serving conn.old court.now kept) h
        → (HasCleanDisk (state S.Store conn.old) → entered.now ≡ entered_by h)
        → Asks S.Store (serving conn.new court.now kept) h (λ found. found.items ≡ calendar_rows court.now h from to) result }
{
    match due_rows(conn, alloc, court, entered, from, to) {
        Ok(found) => Ok(found),
        Err(fault) => Err(read_fault(conn, fault, failure)),
    }
}

/// Returns the deadlines whose time runs to a day of a range, in the order of the calendar. The court's
/// calendar is kept in `kept`; if the database fails, `failure` has its error.
pub fn due_days<S: Alter>(
    conn: &mut Connection<S>,
    alloc: Global,
    court: &Court,
    kept: &mut Option<StandingCalendar>,
    from: Day,
    to: Day,
    failure: &mut Option<Error>,
) -> Result<Vec<DueRow>, Fault>
    requires { conn.old.in_transaction ≡ false }
    ensures leaves { LeavesIdle S.Store conn.old conn.new failure.new result }
    ensures answer { (h : History) → Stands S.Store (serving conn.old court.now kept.old) h
        → Asks S.Store (serving conn.new court.now kept.new) h (λ found. found.items ≡ calendar_rows court.now h from to) result }
{
    let standing = calendar_taken(conn, alloc, kept, failure)?;
    let found = due_by(conn, alloc, court, standing.calendar(), from, to, failure);
    *kept = Some(standing);
    found
}
