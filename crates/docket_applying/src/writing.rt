//! All that a command changes, in one transaction.
ghost use Rattle.std.specs.Prelude.{◌≡◌, ◌≤◌, ℕ, List, false, IfErr};
ghost use Rattle.docket_decisions.specs.Tables.{Tables};
ghost use Rattle.docket_wire.specs.Writing.{canonical};
ghost use Rattle.sqlite.specs.Held.{state};
ghost use Rattle.sqlite.specs.State.{HasCleanDisk};
ghost use Rattle.sqlite.specs.View.{doubt};
ghost use Rattle.docket_decisions.specs.declared.end_row.StoredEnd.{StoredEnd as Ended};
ghost use Rattle.docket_tables.specs.AnyRows.{AreDocketRows};
ghost use Rattle.docket_tables.specs.Changing.{AreNumbered, with_changes};
ghost use Rattle.docket_tables.specs.Contents.{rows_in, rows_with};
ghost use Rattle.docket_tables.specs.Layouts.{Rows};
ghost use Rattle.docket_tables.specs.Stands.{HoldsRows};
ghost use Rattle.docket_decisions.specs.EndRows.{end_rows};
ghost use Rattle.docket_tables.specs.Causes.{HasChangeCause, IsLater};
ghost use Rattle.docket_tables.specs.declared.fault.ReadFault.TheVariants.{Store, NoMemory};
ghost use Rattle.sqlite.specs.declared.error.Error.{Error as Failed};
ghost use Rattle.sqlite.specs.declared.error.Error.TheVariants.{SqliteFailure};
ghost use Rattle.sqlite.specs.declared.error.ErrorCode.TheVariants.{OutOfMemory};
ghost use Rattle.docket_applying.specs.Settling.{FailsOnlyFor, Leads, MayLeave, MayUpdate};
ghost use Rattle.docket_applying.specs.Writing.{IfClean, MayWrite, UpdatesEnds, Writes, recorded_with, written};

use crate::settling::update_ends;
use court_days::Court;
use docket_command::Command;
use docket_decisions::Changes;
use docket_tables::{ReadFault, change_with_receipt};
use sqlite::{Alter, Connection, Error, ErrorCode, Transaction};
use std::alloc::Global;

/// Returns the error for a fault of a part of a transaction. If a row is not one of a docket, the transaction
/// ends as if the database failed.
fn store_error(fault: ReadFault) -> Error
    ensures store { (e : Failed) → fault ≡ Store e → result ≡ e }
    ensures short { fault ≡ NoMemory → result ≡ SqliteFailure OutOfMemory }
{
    match fault {
        ReadFault::Store(error) => error,
        ReadFault::NoMemory => Error::SqliteFailure(ErrorCode::OutOfMemory),
        ReadFault::Damaged => Error::SqliteFailure(ErrorCode::DatabaseCorrupt),
    }
}

/// Makes the changes of a command, those of the stored ends among them, and adds its receipt.
fn fill<S: Alter>(
    tx: &mut Transaction<'_, S>,
    alloc: Global,
    court: &Court,
    command: &Command,
    body: &str,
    changes: &Changes,
) -> Result<(), Error>
    requires body { body.now ≡ canonical command.now }
    ensures same_reference { tx.new.conn.ghost_name ≡ tx.old.conn.ghost_name }
    ensures clean { doubt (state S.Store tx.old.conn.now).is_clean ≤ doubt (state S.Store tx.new.conn.now).is_clean }
    ensures inside { (t : Tables) (ends : List Ended) → AreNumbered t.next_row changes.now
        → MayUpdate court.now changes.now.ends (with_changes command.now changes.now t) ends
        → Leads (state S.Store tx.old.conn.now) (state S.Store tx.new.conn.now) (rows_with court.now t ends)
        (written court.now command.now changes.now t ends) result }
    ensures any { (n : ℕ) (stored : List Ended) (rows : Rows) → AreDocketRows court.now n stored rows → AreNumbered n changes.now
        → (next : List Ended) × MayLeave changes.now.ends stored next
        × Leads (state S.Store tx.old.conn.now) (state S.Store tx.new.conn.now) rows (recorded_with court.now n command.now changes.now next rows) result }
    ensures cause { HasCleanDisk (state S.Store tx.new.conn.now) → (t : Tables) (ends : List Ended) → AreNumbered t.next_row changes.now
        → MayUpdate court.now changes.now.ends (with_changes command.now changes.now t) ends → MayWrite court.now command.now changes.now t ends
        → FailsOnlyFor HasChangeCause (state S.Store tx.old.conn.now) (state S.Store tx.new.conn.now) (rows_with court.now t ends) result }
{
    // Its contract bounds the text of the zone: a new row of the calendar is counted in the court's row,
    // which is written anew.
    let _zone = court.zone_text();
    change_with_receipt(tx, command, body, changes)?;
    match update_ends(tx, alloc, court, &changes.ends) {
        Ok(()) => Ok(()),
        Err(fault) => Err(store_error(fault)),
    }
}

/// Makes the changes of an accepted command, those of the stored ends among them, and adds its receipt,
/// in one transaction: all of it, or nothing. `body` is the canonical text of the command. After an error
/// nothing of it stands, except that a power failure after a failed commit may leave either. The connection
/// is as it was, or shut.
pub fn write<S: Alter>(
    conn: &mut Connection<S>,
    alloc: Global,
    court: &Court,
    command: &Command,
    body: &str,
    changes: &Changes,
) -> Result<(), Error>
    requires idle { conn.old.in_transaction ≡ false }
    requires body { body.now ≡ canonical command.now }
    ensures idle { conn.new.in_transaction ≡ false }
    ensures clean { doubt (state S.Store conn.old).is_clean ≤ doubt (state S.Store conn.new).is_clean }
    ensures either { (t : Tables) → AreNumbered t.next_row changes.now → HoldsRows S.Store conn.old (rows_in court.now t)
        → IfClean S.Store conn.old (UpdatesEnds court.now command.now changes.now t)
        → Writes S.Store conn.new (rows_in court.now t) (rows_in court.now (with_changes command.now changes.now t)) result }
    // Whether or not the rows are those of a history: all changes of the command, its receipt, and some ends.
    ensures any { (n : ℕ) (stored : List Ended) (rows : Rows) → AreDocketRows court.now n stored rows → AreNumbered n changes.now → HoldsRows S.Store conn.old rows
        → (next : List Ended) × MayLeave changes.now.ends stored next
        × Writes S.Store conn.new rows (recorded_with court.now n command.now changes.now next rows) result }
    // It stays the same connection, and the count of its faults continues.
    ensures later { HasCleanDisk (state S.Store conn.new) → (t : Tables) → AreNumbered t.next_row changes.now → HoldsRows S.Store conn.old (rows_in court.now t)
        → UpdatesEnds court.now command.now changes.now t → IsLater (state S.Store conn.old) (state S.Store conn.new) }
    // A command that may be written fails only for a cause.
    ensures cause { HasCleanDisk (state S.Store conn.new) → (t : Tables) → AreNumbered t.next_row changes.now → HoldsRows S.Store conn.old (rows_in court.now t)
        → UpdatesEnds court.now command.now changes.now t → MayWrite court.now command.now changes.now t (end_rows court.now t)
        → IfErr result (HasChangeCause (state S.Store conn.old) (state S.Store conn.new)) }
{
    let mut tx = conn.transaction();
    fill(&mut tx, alloc, court, command, body, changes)?;
    tx.commit()
}
