//! The rows of the question, one at a time.
ghost use Rattle.std.specs.Prelude.{◌≡◌, false, ℕ, IfSome, MatchResult};
ghost use Rattle.sqlite.specs.Held.{state};
ghost use Rattle.sqlite.specs.State.{HasCleanDisk, Survives};
ghost use Rattle.docket_tables.specs.Causes.{IsCausedFault};
ghost use Rattle.docket_calendar.specs.Asked.{Next, OfAsked, RemainsAfter};
ghost use Rattle.docket_calendar.specs.Stops.{IsUnderWay};

use crate::row::due_of;
use court_days::{Calendar, Court};
use docket_history::DueRow;
use docket_tables::ReadFault;
use sqlite::{Alter, Rows};
use std::alloc::Global;

/// The deadline of the next row, or `None` after the last.
pub(crate) fn next_due<S: Alter>(
    alloc: Global,
    court: &Court,
    entered: &Calendar,
    rows: &mut Rows<'_, S>,
) -> Result<Option<DueRow>, ReadFault>
    ensures same_reference { rows.new.conn.ghost_name ≡ rows.old.conn.ghost_name }
    ensures mode { rows.old.conn.now.in_transaction ≡ false → rows.new.conn.now.in_transaction ≡ false }
    ensures survives { Survives (state S.Store rows.old.conn.now) (state S.Store rows.new.conn.now) (λ _. ⊥) }
    // The store fails only for a cause, and a row leaves the question under way.
    ensures cause { HasCleanDisk (state S.Store rows.new.conn.now) → IsUnderWay S.Store rows.old.conn.now
        → MatchResult result (λ due. IfSome due (λ _. IsUnderWay S.Store rows.new.conn.now)) (IsCausedFault (state S.Store rows.old.conn.now) (state S.Store rows.new.conn.now)) }
    ensures remains { HasCleanDisk (state S.Store rows.new.conn.now) → RemainsAfter S.Store rows.old.conn.now rows.new.conn.now result }
    ensures next { (n : ℕ) → OfAsked S.Store court.now entered.now n rows.old.conn.now rows.new.conn.now
        (λ sql params listed. Next S.Store sql params court.now listed n rows.old.conn.now rows.new.conn.now result) }
{
    rows.advance()?;
    let Some(row) = rows.get() else {
        return Ok(None);
    };
    match due_of(alloc, court, entered, row)? {
        Some(due) => Ok(Some(due)),
        None => Err(ReadFault::Damaged),
    }
}
