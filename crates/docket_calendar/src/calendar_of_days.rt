//! The calendar of a docket in a database.
ghost use Rattle.std.specs.Prelude.{◌≡◌, false, ℕ, IfErr, List};
ghost use Rattle.sqlite.specs.Given.{IsPlain};
ghost use Rattle.sqlite.specs.Held.{state};
ghost use Rattle.sqlite.specs.Listing.{understood};
ghost use Rattle.sqlite.specs.State.{CommitsShowing, HasCleanDisk, Survives};
ghost use Rattle.sqlite.specs.Values.{bound};
ghost use Rattle.docket_decisions.specs.EndRows.{calendar_in};
ghost use Rattle.docket_history.specs.Histories.{History};
ghost use Rattle.docket_decisions.specs.Tables.{rows_of};
ghost use Rattle.docket_history.specs.declared.record.DueRow.{DueRow as Due};
ghost use Rattle.docket_tables.specs.Layouts.{Rows};
ghost use Rattle.docket_tables.specs.Stands.{HoldsRows};
ghost use Rattle.docket_calendar.specs.Asked.{Lists};
ghost use Rattle.docket_calendar.specs.Question.{question, days_asked};
ghost use Rattle.docket_calendar.specs.Sending.{Remains, SendsAll};
ghost use Rattle.docket_calendar.specs.Stops.{IsCausedStop};
ghost use Rattle.docket_calendar.specs.Telling.{IsHistoryOf, Stays, Tells, docket_rows};

use crate::sending::send_all;
use crate::stop::Stop;
use court_days::{Calendar, Court, Day};
use docket_tables::ReadFault;
use sqlite::types::ValueRef;
use sqlite::{Alter, Connection, params};
use std::alloc::Global;
use std::io::Write;

/// Selects the deadlines whose time runs to a day of a range, in the order of the calendar. The index of
/// `due` gives the range and the order, so that no row is sorted or stored.
pub(crate) fn question() -> &'static str
    ensures { result.now ≡ question }
{
    "SELECT due.day, due.moment, due.case_no, due.deadline_no, deadline.party, deadline.rule FROM due JOIN deadline ON deadline.case_no = due.case_no AND deadline.number = due.deadline_no WHERE due.day >= ?1 AND due.day <= ?2 ORDER BY due.day, due.moment, due.case_no, due.deadline_no"
}

/// Writes the bytes, a line for each row of a question, and then how many there are.
fn tell<S: Alter, W: Write>(
    conn: &mut Connection<S>,
    alloc: Global,
    court: &Court,
    entered: &Calendar,
    sql: &str,
    values: &[ValueRef<'_>],
    front: &[u8],
    writer: &mut W,
) -> Result<u32, Stop>
    ensures mode { conn.old.in_transaction ≡ false → conn.new.in_transaction ≡ false }
    ensures survives { Survives (state S.Store conn.old) (state S.Store conn.new) (CommitsShowing sql.now (bound values.now) (state S.Store conn.old)) }
    ensures cause { (first last : ℕ) (rows : Rows) → sql.now ≡ question → bound values.now ≡ days_asked first last → HoldsRows S.Store conn.old rows → HasCleanDisk (state S.Store conn.new)
        → IfErr result (IsCausedStop (state S.Store conn.old) (state S.Store conn.new)) }
    ensures remains { IsPlain (understood conn.old.schema sql.now) → HasCleanDisk (state S.Store conn.new) → Remains S.Store conn.old conn.new result }
    ensures sends { (listed : List Due) → HasCleanDisk (state S.Store conn.new)
        → Lists sql.now (bound values.now) court.now entered.now (state S.Store conn.old).now listed
        → SendsAll S.Store court.now listed front.now (W.contents writer.old) (W.contents writer.new) conn.old conn.new result }
{
    match conn.query(sql, values) {
        Ok(mut rows) => send_all(alloc, court, entered, front, &mut rows, writer),
        Err(error) => Err(Stop::NotBegun(ReadFault::Store(error))),
    }
}

/// Asks the question about the days from one to another, both included, and writes its answer.
fn tell_days<S: Alter, W: Write>(
    conn: &mut Connection<S>,
    alloc: Global,
    court: &Court,
    entered: &Calendar,
    from: Day,
    to: Day,
    front: &[u8],
    writer: &mut W,
) -> Result<u32, Stop>
    ensures mode { conn.old.in_transaction ≡ false → conn.new.in_transaction ≡ false }
    ensures writes_nothing { Survives (state S.Store conn.old) (state S.Store conn.new) (λ _. ⊥) }
    ensures cause { (rows : Rows) → HoldsRows S.Store conn.old rows → HasCleanDisk (state S.Store conn.new)
        → IfErr result (IsCausedStop (state S.Store conn.old) (state S.Store conn.new)) }
    ensures remains { IsPlain (understood conn.old.schema question) → HasCleanDisk (state S.Store conn.new) → Remains S.Store conn.old conn.new result }
    ensures sends { (listed : List Due) → HasCleanDisk (state S.Store conn.new)
        → Lists question (days_asked from to) court.now entered.now (state S.Store conn.old).now listed
        → SendsAll S.Store court.now listed front.now (W.contents writer.old) (W.contents writer.new) conn.old conn.new result }
{
    let days = params![from.epoch_day(), to.epoch_day()];
    tell(conn, alloc, court, entered, question(), days, front, writer)
}

/// Writes the bytes, then the calendar of the days from one to another, both included. Returns how many lines it
/// wrote. `entered` is the docket's calendar, which has when the clerk's office closes. It writes each line
/// before it reads the next row, and the bytes go out with the first; if there is not even a first line, nothing
/// does. What went out is all of it, or a front. The tables stay as they are, whatever is in them.
pub fn calendar<S: Alter, W: Write>(
    conn: &mut Connection<S>,
    alloc: Global,
    court: &Court,
    entered: &Calendar,
    from: Day,
    to: Day,
    front: &[u8],
    writer: &mut W,
) -> Result<u32, Stop>
    ensures mode { conn.old.in_transaction ≡ false → conn.new.in_transaction ≡ false }
    ensures writes_nothing { Survives (state S.Store conn.old) (state S.Store conn.new) (λ _. ⊥) }
    // The store fails only for a cause.
    ensures cause { (rows : Rows) → HoldsRows S.Store conn.old rows → HasCleanDisk (state S.Store conn.new)
        → IfErr result (IsCausedStop (state S.Store conn.old) (state S.Store conn.new)) }
    ensures stays { (rows : Rows) → HoldsRows S.Store conn.old rows → Stays S.Store conn.new rows result }
    ensures tells { (h : History) → IsHistoryOf court.now h → HoldsRows S.Store conn.old (docket_rows court.now h)
        → (HasCleanDisk (state S.Store conn.new) → entered.now ≡ calendar_in (rows_of court.now h))
        → Tells S.Store court.now h from to front.now (W.contents writer.old) (W.contents writer.new) conn.new result }
{
    tell_days(conn, alloc, court, entered, from, to, front, writer)
}
