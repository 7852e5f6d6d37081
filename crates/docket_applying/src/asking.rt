//! The deadlines of a case, by the tables of the docket.
ghost use Rattle.std.specs.Prelude.{◌≡◌, List, Option, Some, false};
ghost use Rattle.std.specs.Option.{option_map};
ghost use Rattle.court_days.specs.Court.{CourtSettings, zone_of};
ghost use Rattle.docket_decisions.specs.EndRows.{end_rows_of};
ghost use Rattle.docket_history.specs.Histories.{History, deadlines, items_of, standing_rows};
ghost use Rattle.docket_history.specs.Records.{calendar, case_record, deadline_lines};
ghost use Rattle.docket_decisions.specs.Tables.{case_deadlines, rows_of};
ghost use Rattle.docket_history.specs.declared.item.CalendarItem.{CalendarItem as Item};
ghost use Rattle.docket_applying.specs.Asking.{LeavesIdle};
ghost use Rattle.docket_applying.specs.Writing.{IfClean};
ghost use Rattle.docket_applying.specs.Applying.{Stands, Asks};
ghost use Rattle.docket_applying.specs.Dockets.{serving};

use crate::cases::case_record;
use crate::fault::{Fault, read_fault};
use crate::judging::take_calendar;
use crate::stored_lines::lines_told;
use crate::viewing::case_deadlines;
use court_days::{Calendar, Court};
use docket_decisions::StoredEnd;
use docket_history::{DeadlineLine, DeadlineView, StandingCalendar};
use docket_tables::ends_of_case;
use sqlite::{Alter, Connection, Error};
use std::alloc::Global;

/// The deadlines of the case of a number, each with its acts.
fn deadlines_shown<S: Alter>(
    conn: &mut Connection<S>,
    alloc: Global,
    number: u32,
    failure: &mut Option<Error>,
) -> Result<Option<Vec<DeadlineView>>, Fault>
    requires { conn.old.in_transaction ≡ false }
    ensures leaves { LeavesIdle S.Store conn.old conn.new failure.new result }
    ensures answer { (court : CourtSettings) (kept : Option (List Item)) (h : History) → Stands S.Store (serving conn.old court kept) h
        → Asks S.Store (serving conn.new court kept) h (λ found. option_map (λ deadlines. deadlines.items) found ≡ case_deadlines (rows_of court h) number) result }
{
    match case_deadlines(conn, alloc, number) {
        Ok(found) => Ok(found),
        Err(fault) => Err(read_fault(conn, fault, failure)),
    }
}

/// Returns the calendar that stands. It takes the kept one, and the caller keeps it again.
pub(crate) fn calendar_taken<S: Alter>(
    conn: &mut Connection<S>,
    alloc: Global,
    kept: &mut Option<StandingCalendar>,
    failure: &mut Option<Error>,
) -> Result<StandingCalendar, Fault>
    requires { conn.old.in_transaction ≡ false }
    ensures leaves { LeavesIdle S.Store conn.old conn.new failure.new result }
    ensures answer { (court : CourtSettings) (h : History) → Stands S.Store (serving conn.old court kept.old) h
        → Asks S.Store (serving conn.new court kept.new) h (λ items. items ≡ items_of (standing_rows h)) result }
{
    match take_calendar(conn, alloc, kept) {
        Ok(standing) => Ok(standing),
        Err(fault) => Err(read_fault(conn, fault, failure)),
    }
}

/// The ends that are stored for the case of a number.
fn ends_shown<S: Alter>(
    conn: &mut Connection<S>,
    alloc: Global,
    number: u32,
    failure: &mut Option<Error>,
) -> Result<Vec<StoredEnd>, Fault>
    requires { conn.old.in_transaction ≡ false }
    ensures leaves { LeavesIdle S.Store conn.old conn.new failure.new result }
    ensures answer { (court : CourtSettings) (kept : Option (List Item)) (h : History) → Stands S.Store (serving conn.old court kept) h
        → Asks S.Store (serving conn.new court kept) h (λ found. found.items ≡ end_rows_of (zone_of court) (calendar h) number (deadlines number h)) result }
{
    match ends_of_case(conn, alloc, number) {
        Ok(found) => Ok(found),
        Err(fault) => Err(read_fault(conn, fault, failure)),
    }
}

/// The deadlines of a case, with where each stands by the stored ends, and when the clerk's office closes on
/// its last day.
fn lines_of_case<S: Alter>(
    conn: &mut Connection<S>,
    alloc: Global,
    court: &Court,
    entered: &Calendar,
    number: u32,
    deadlines: &[DeadlineView],
    failure: &mut Option<Error>,
) -> Result<Vec<DeadlineLine>, Fault>
    requires { conn.old.in_transaction ≡ false }
    ensures leaves { LeavesIdle S.Store conn.old conn.new failure.new result }
    ensures answer { (kept : Option (List Item)) (h : History) → Stands S.Store (serving conn.old court.now kept) h
        → IfClean S.Store conn.old (entered.now ≡ calendar h)
        → IfClean S.Store conn.old (case_deadlines (rows_of court.now h) number ≡ Some deadlines.now)
        → Asks S.Store (serving conn.new court.now kept) h (λ lines. Some lines.items ≡ deadline_lines court.now h number) result }
{
    let stored = ends_shown(conn, alloc, number, failure)?;
    lines_told(alloc, court, entered, deadlines, stored.as_slice())
}

/// Returns the deadlines of the case of a number, with where each stands by the stored ends. The calendar is
/// kept in `kept`; if the database fails, `failure` has its error.
pub fn lines_numbered<S: Alter>(
    conn: &mut Connection<S>,
    alloc: Global,
    court: &Court,
    kept: &mut Option<StandingCalendar>,
    number: u32,
    failure: &mut Option<Error>,
) -> Result<Option<Vec<DeadlineLine>>, Fault>
    requires { conn.old.in_transaction ≡ false }
    ensures leaves { LeavesIdle S.Store conn.old conn.new failure.new result }
    ensures answer { (h : History) → Stands S.Store (serving conn.old court.now kept.old) h
        → Asks S.Store (serving conn.new court.now kept.new) h (λ found. option_map (λ lines. lines.items) found ≡ deadline_lines court.now h number) result }
{
    let Some(deadlines) = deadlines_shown(conn, alloc, number, failure)? else {
        return Ok(None);
    };
    let standing = calendar_taken(conn, alloc, kept, failure)?;
    let lines = lines_of_case(
        conn,
        alloc,
        court,
        standing.calendar(),
        number,
        deadlines.as_slice(),
        failure,
    );
    *kept = Some(standing);
    Ok(Some(lines?))
}
