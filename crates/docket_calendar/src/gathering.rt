//! The deadlines of a calendar as values, all at once, for callers that ask more of the docket about each.
ghost use Rattle.std.specs.Prelude.{◌≡◌, false, ℕ, List, IfErr, IsTrue};
ghost use Rattle.sqlite.specs.Given.{IsPlain};
ghost use Rattle.sqlite.specs.Held.{state};
ghost use Rattle.sqlite.specs.Listing.{understood};
ghost use Rattle.sqlite.specs.State.{CommitsShowing, HasCleanDisk, Survives};
ghost use Rattle.sqlite.specs.Values.{bound};
ghost use Rattle.docket_decisions.specs.EndRows.{calendar_in};
ghost use Rattle.docket_history.specs.Histories.{History};
ghost use Rattle.docket_decisions.specs.Tables.{rows_of};
ghost use Rattle.docket_history.specs.declared.record.DueRow.{DueRow as Due};
ghost use Rattle.docket_tables.specs.Asking.{OnlyAsks};
ghost use Rattle.docket_tables.specs.Causes.{IsCausedFault};
ghost use Rattle.docket_tables.specs.Layouts.{Rows as Stored};
ghost use Rattle.docket_tables.specs.Readings.{Gives};
ghost use Rattle.docket_tables.specs.Stands.{HoldsRows};
ghost use Rattle.docket_calendar.specs.Asked.{Lists, OfAsked, RemainsAfter};
ghost use Rattle.docket_calendar.specs.Calendar.{calendar_rows};
ghost use Rattle.docket_calendar.specs.Gathering.{ComesTo};
ghost use Rattle.docket_calendar.specs.Question.{question, days_asked};
ghost use Rattle.docket_calendar.specs.Stops.{IsUnderWay};
ghost use Rattle.docket_calendar.specs.Telling.{IsHistoryOf, docket_rows};

use crate::calendar_of_days::question;
use crate::next::next_due;
use court_days::{Calendar, Court, Day};
use docket_history::DueRow;
use docket_tables::ReadFault;
use sqlite::types::ValueRef;
use sqlite::{Alter, Connection, Rows, params};
use std::alloc::Global;

/// The deadlines of the rows of the question.
fn gather_all<S: Alter>(
    alloc: Global,
    court: &Court,
    entered: &Calendar,
    rows: &mut Rows<'_, S>,
) -> Result<Vec<DueRow>, ReadFault>
    ensures same_reference { rows.new.conn.ghost_name ≡ rows.old.conn.ghost_name }
    ensures mode { rows.old.conn.now.in_transaction ≡ false → rows.new.conn.now.in_transaction ≡ false }
    ensures survives { Survives (state S.Store rows.old.conn.now) (state S.Store rows.new.conn.now) (λ _. ⊥) }
    ensures cause { HasCleanDisk (state S.Store rows.new.conn.now) → IsUnderWay S.Store rows.old.conn.now
        → IfErr result (IsCausedFault (state S.Store rows.old.conn.now) (state S.Store rows.new.conn.now)) }
    ensures remains { HasCleanDisk (state S.Store rows.new.conn.now) → IsTrue (state S.Store rows.old.conn.now).is_open → RemainsAfter S.Store rows.old.conn.now rows.new.conn.now result }
    ensures gathers { OfAsked S.Store court.now entered.now 0 rows.old.conn.now rows.new.conn.now
        (λ sql params listed. IsTrue (state S.Store rows.old.conn.now).is_open
        → ComesTo S.Store rows.old.conn.now rows.new.conn.now (λ found. found.items ≡ listed) result) }
{
    let mut found = Vec::new(alloc);
    'rows: for _ in 0..u32::MAX {
        let Some(due) = next_due(alloc, court, entered, rows)? else {
            return Ok(found);
        };
        found.push(due)?;
    }
    Err(ReadFault::Damaged)
}

/// The deadlines of the rows of a question.
fn gather<S: Alter>(
    conn: &mut Connection<S>,
    alloc: Global,
    court: &Court,
    entered: &Calendar,
    sql: &str,
    values: &[ValueRef<'_>],
) -> Result<Vec<DueRow>, ReadFault>
    ensures mode { conn.old.in_transaction ≡ false → conn.new.in_transaction ≡ false }
    ensures survives { Survives (state S.Store conn.old) (state S.Store conn.new) (CommitsShowing sql.now (bound values.now) (state S.Store conn.old)) }
    ensures cause { (first last : ℕ) (rows : Stored) → sql.now ≡ question → bound values.now ≡ days_asked first last → HoldsRows S.Store conn.old rows → HasCleanDisk (state S.Store conn.new)
        → IfErr result (IsCausedFault (state S.Store conn.old) (state S.Store conn.new)) }
    ensures remains { IsPlain (understood conn.old.schema sql.now) → HasCleanDisk (state S.Store conn.new) → RemainsAfter S.Store conn.old conn.new result }
    ensures gathers { (listed : List Due) → HasCleanDisk (state S.Store conn.new)
        → Lists sql.now (bound values.now) court.now entered.now (state S.Store conn.old).now listed
        → ComesTo S.Store conn.old conn.new (λ found. found.items ≡ listed) result }
{
    match conn.query(sql, values) {
        Ok(mut rows) => gather_all(alloc, court, entered, &mut rows),
        Err(error) => Err(ReadFault::Store(error)),
    }
}

/// Asks the question about the days from one to another, both included.
fn gather_days<S: Alter>(
    conn: &mut Connection<S>,
    alloc: Global,
    court: &Court,
    entered: &Calendar,
    from: Day,
    to: Day,
) -> Result<Vec<DueRow>, ReadFault>
    ensures mode { conn.old.in_transaction ≡ false → conn.new.in_transaction ≡ false }
    ensures writes_nothing { Survives (state S.Store conn.old) (state S.Store conn.new) (λ _. ⊥) }
    ensures cause { (rows : Stored) → HoldsRows S.Store conn.old rows → HasCleanDisk (state S.Store conn.new)
        → IfErr result (IsCausedFault (state S.Store conn.old) (state S.Store conn.new)) }
    ensures remains { IsPlain (understood conn.old.schema question) → HasCleanDisk (state S.Store conn.new) → RemainsAfter S.Store conn.old conn.new result }
    ensures gathers { (listed : List Due) → HasCleanDisk (state S.Store conn.new)
        → Lists question (days_asked from to) court.now entered.now (state S.Store conn.old).now listed
        → ComesTo S.Store conn.old conn.new (λ found. found.items ≡ listed) result }
{
    let days = params![from.epoch_day(), to.epoch_day()];
    gather(conn, alloc, court, entered, question(), days)
}

/// Returns the calendar of the days from one to another, both included: the deadlines whose time runs to one
/// of them, in order. `entered` is the docket's calendar, which has when the clerk's office closes. All of
/// them are in memory at once, so that the caller can ask more of the tables about each. The tables stay as
/// they are, whatever is in them.
pub fn due_rows<S: Alter>(
    conn: &mut Connection<S>,
    alloc: Global,
    court: &Court,
    entered: &Calendar,
    from: Day,
    to: Day,
) -> Result<Vec<DueRow>, ReadFault>
    ensures only { OnlyAsks S.Store conn.old conn.new result }
    ensures gives { (h : History) → IsHistoryOf court.now h → HoldsRows S.Store conn.old (docket_rows court.now h)
        → (HasCleanDisk (state S.Store conn.new) → entered.now ≡ calendar_in (rows_of court.now h))
        → Gives S.Store conn.new (docket_rows court.now h) (λ found. found.items ≡ calendar_rows court.now h from to) result }
{
    gather_days(conn, alloc, court, entered, from, to)
}
