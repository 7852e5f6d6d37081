//! The making of the tables.
ghost use Rattle.std.specs.Prelude.{◌≡◌, ◌≢◌, ◌<◌, ◌≤◌, suc, [], length, get_or, OnOk, IfErr, IsTrue, false};
ghost use Rattle.docket_decisions.specs.Tables.{rows_of};
ghost use Rattle.sqlite.specs.Held.{state};
ghost use Rattle.sqlite.specs.State.{HasCleanDisk};
ghost use Rattle.sqlite.specs.View.{doubt};
ghost use Rattle.docket_tables.specs.Causes.{HasMakingCause, IsCausedMaking};
ghost use Rattle.docket_tables.specs.Creation.{IsMade, no_rows};
ghost use Rattle.docket_tables.specs.Schema.{no_schema};
ghost use Rattle.docket_tables.specs.Tables.{layout_of, tables};
ghost use Rattle.docket_tables.specs.Contents.{rows_in};
ghost use Rattle.docket_tables.specs.Stands.{Makes, Sees, StaysInside};
ghost use Rattle.docket_tables.specs.declared.fault.StoreFault.TheVariants.{NoMemory, StoreFailed};
ghost use Rattle.sqlite.specs.declared.error.Error.TheVariants.{SqliteFailure};
ghost use Rattle.sqlite.specs.declared.error.ErrorCode.TheVariants.{OutOfMemory};

use crate::fault::StoreFault;
use crate::statement::create_text;
use crate::store::{change, insert};
use crate::table::{TABLES, Table};
use court_days::Court;
use docket_columns::court_values;
use sqlite::{Alter, Connection, Error, ErrorCode, Transaction};

/// Makes one more table.
fn define<S: Alter>(tx: &mut Transaction<'_, S>, table: Table) -> Result<(), Error>
    ensures same_reference { tx.new.conn.ghost_name ≡ tx.old.conn.ghost_name }
    ensures inside { StaysInside (state S.Store tx.old.conn.now) (state S.Store tx.new.conn.now) }
    ensures ok { HasCleanDisk (state S.Store tx.new.conn.now) → IsMade (state S.Store tx.old.conn.now) (layout_of table).at
        → OnOk result (IsMade (state S.Store tx.new.conn.now) (suc (layout_of table).at)) }
    ensures cause { HasCleanDisk (state S.Store tx.new.conn.now) → IsMade (state S.Store tx.old.conn.now) (layout_of table).at → IsTrue (state S.Store tx.old.conn.now).in_transaction
        → IfErr result (HasMakingCause (state S.Store tx.old.conn.now) (state S.Store tx.new.conn.now)) }
{
    change(tx, create_text(table), &[])
}

/// The table of a number, counted from 0.
fn table_at(all: &[Table], number: usize) -> Table
    requires { number < length all.now }
    ensures { result ≡ get_or all.now number result }
{
    all[number]
}

/// Makes all tables.
fn define_all<S: Alter>(tx: &mut Transaction<'_, S>, all: &[Table]) -> Result<(), Error>
    requires { all.now ≡ tables }
    ensures same_reference { tx.new.conn.ghost_name ≡ tx.old.conn.ghost_name }
    ensures inside { StaysInside (state S.Store tx.old.conn.now) (state S.Store tx.new.conn.now) }
    ensures ok { HasCleanDisk (state S.Store tx.new.conn.now) → (state S.Store tx.old.conn.now).now.schema ≡ no_schema → OnOk result (Sees (state S.Store tx.new.conn.now) no_rows) }
    ensures cause { HasCleanDisk (state S.Store tx.new.conn.now) → (state S.Store tx.old.conn.now).now.schema ≡ no_schema → IsTrue (state S.Store tx.old.conn.now).in_transaction
        → IfErr result (HasMakingCause (state S.Store tx.old.conn.now) (state S.Store tx.new.conn.now)) }
{
    'tables: for number in 0..all.len() {
        define(tx, table_at(all, number))?;
    }
    Ok(())
}

/// Makes all tables, and the row of the court.
fn define_docket<S: Alter>(tx: &mut Transaction<'_, S>, court: &Court) -> Result<(), Error>
    ensures same_reference { tx.new.conn.ghost_name ≡ tx.old.conn.ghost_name }
    ensures inside { StaysInside (state S.Store tx.old.conn.now) (state S.Store tx.new.conn.now) }
    ensures ok { HasCleanDisk (state S.Store tx.new.conn.now) → (state S.Store tx.old.conn.now).now.schema ≡ no_schema
        → OnOk result (Sees (state S.Store tx.new.conn.now) (rows_in court.now (rows_of court.now []))) }
    ensures cause { HasCleanDisk (state S.Store tx.new.conn.now) → (state S.Store tx.old.conn.now).now.schema ≡ no_schema → IsTrue (state S.Store tx.old.conn.now).in_transaction
        → IfErr result (HasMakingCause (state S.Store tx.old.conn.now) (state S.Store tx.new.conn.now)) }
{
    // Their contracts bound the text of a zone and the minute, so that the store accepts the court's row.
    let _zone = court.zone_text();
    let _close = court.close_minute();
    define_all(tx, &TABLES)?;
    insert(tx, Table::Court, &court_values(court, 1))
}

/// Returns the fault for an error of a transaction that was dropped.
pub fn undone_fault(error: Error) -> StoreFault
    ensures short { error ≡ SqliteFailure OutOfMemory → result ≡ NoMemory }
    ensures other { error ≢ SqliteFailure OutOfMemory → result ≡ StoreFailed }
{
    if error == Error::SqliteFailure(ErrorCode::OutOfMemory) {
        StoreFault::NoMemory
    } else {
        StoreFault::StoreFailed
    }
}

/// Makes the tables of a docket of the court without any record, in a database without any table, in one
/// transaction: all of them, or nothing. If memory ran out nothing was made. If the database failed, a power
/// failure leaves what it could leave before, or the tables. The error of the database is then the `failure`:
/// it came only for a cause, or the connection was shut.
pub fn make<S: Alter>(
    conn: &mut Connection<S>,
    court: &Court,
    failure: &mut Option<Error>,
) -> Result<(), StoreFault>
    requires idle { conn.old.in_transaction ≡ false }
    requires bare { conn.old.schema ≡ no_schema }
    ensures idle { conn.new.in_transaction ≡ false }
    ensures clean { doubt (state S.Store conn.old).is_clean ≤ doubt (state S.Store conn.new).is_clean }
    ensures made { Makes S.Store conn.old conn.new (rows_in court.now (rows_of court.now [])) result }
    ensures cause { HasCleanDisk (state S.Store conn.new)
        → IfErr result (IsCausedMaking (state S.Store conn.old) (state S.Store conn.new) failure.new) }
{
    let mut tx = conn.transaction();
    if let Err(error) = define_docket(&mut tx, court) {
        *failure = Some(error);
        return Err(undone_fault(error));
    }
    match tx.commit() {
        Ok(()) => Ok(()),
        Err(error) => {
            *failure = Some(error);
            Err(StoreFault::StoreFailed)
        }
    }
}
