//! What the tables hold inside the transaction that changes them.
ghost use Rattle.std.specs.Prelude.{◌≡◌, IfOk, OnOk, [], true};
ghost use Rattle.sqlite.specs.Held.{state};
ghost use Rattle.sqlite.specs.State.{HasCleanDisk, IsUnchanged, Survives};
ghost use Rattle.docket_columns.specs.declared.version.Version.TheVariants.{Second};
ghost use Rattle.docket_migration.specs.Keeping.{AreNewEmpty, HoldsCourt};
ghost use Rattle.docket_scan.specs.Scans.{AreRowsOf};
ghost use Rattle.docket_tables.specs.declared.table.Table.TheVariants as table;

use docket_columns::{CourtRow, Version, court_of};
use docket_tables::{Table, scan_text};
use sqlite::{Alter, Error, ErrorCode, Row, Transaction};
use std::alloc::Global;

/// The error where the tables do not hold what they should.
const UNEXPECTED: Error = Error::SqliteFailure(ErrorCode::OperationInterrupted);

/// The rows of a table, inside a transaction.
fn rows_of<S: Alter>(tx: &mut Transaction<'_, S>, table: Table) -> Result<Vec<Row>, Error>
    ensures same_reference { tx.new.conn.ghost_name ≡ tx.old.conn.ghost_name }
    ensures survives { Survives (state S.Store tx.old.conn.now) (state S.Store tx.new.conn.now) (λ _. ⊥) }
    ensures ok { HasCleanDisk (state S.Store tx.new.conn.now) → IfOk result (λ rows. AreRowsOf table (state S.Store tx.old.conn.now) rows.items
        × IsUnchanged (state S.Store tx.old.conn.now) (state S.Store tx.new.conn.now)) }
{
    tx.query_all(scan_text(table), &[])
}

/// Fails if a table that should be empty has a row.
fn check_empty<S: Alter>(tx: &mut Transaction<'_, S>, table: Table) -> Result<(), Error>
    ensures same_reference { tx.new.conn.ghost_name ≡ tx.old.conn.ghost_name }
    ensures survives { Survives (state S.Store tx.old.conn.now) (state S.Store tx.new.conn.now) (λ _. ⊥) }
    ensures ok { HasCleanDisk (state S.Store tx.new.conn.now) → OnOk result (AreRowsOf table (state S.Store tx.old.conn.now) []
        × IsUnchanged (state S.Store tx.old.conn.now) (state S.Store tx.new.conn.now)) }
{
    let rows = rows_of(tx, table)?;
    if rows.is_empty() {
        Ok(())
    } else {
        Err(UNEXPECTED)
    }
}

/// Returns the court of the only row of its table.
pub(crate) fn court_in<S: Alter>(
    tx: &mut Transaction<'_, S>,
    alloc: Global,
    version: Version,
) -> Result<CourtRow, Error>
    ensures same_reference { tx.new.conn.ghost_name ≡ tx.old.conn.ghost_name }
    ensures survives { Survives (state S.Store tx.old.conn.now) (state S.Store tx.new.conn.now) (λ _. ⊥) }
    ensures ok { HasCleanDisk (state S.Store tx.new.conn.now) → IfOk result (λ court. HoldsCourt version court (state S.Store tx.old.conn.now)
        × IsUnchanged (state S.Store tx.old.conn.now) (state S.Store tx.new.conn.now)) }
{
    let rows = rows_of(tx, Table::Court)?;
    if rows.len() != 1 {
        return Err(UNEXPECTED);
    }
    match court_of(alloc, &rows[0], version)? {
        Some(court) => Ok(court),
        None => Err(UNEXPECTED),
    }
}

/// Whether they are one court with one number of the next row.
fn is_same(court: &CourtRow, other: &CourtRow) -> bool
    ensures { result ≡ true → court.now ≡ other.now }
{
    court.zone.same(&other.zone) && court.close == other.close && court.next_row == other.next_row
}

/// Fails if a table that the first version lacks has a row.
fn check_new<S: Alter>(tx: &mut Transaction<'_, S>) -> Result<(), Error>
    ensures same_reference { tx.new.conn.ghost_name ≡ tx.old.conn.ghost_name }
    ensures survives { Survives (state S.Store tx.old.conn.now) (state S.Store tx.new.conn.now) (λ _. ⊥) }
    ensures ok { HasCleanDisk (state S.Store tx.new.conn.now) → OnOk result (AreNewEmpty (state S.Store tx.old.conn.now)
        × IsUnchanged (state S.Store tx.old.conn.now) (state S.Store tx.new.conn.now)) }
{
    check_empty(tx, Table::ShortDays)?;
    check_empty(tx, Table::LocalRules)
}

/// Fails if the tables are not those of this court in the second version.
pub(crate) fn check_changed<S: Alter>(
    tx: &mut Transaction<'_, S>,
    alloc: Global,
    court: &CourtRow,
) -> Result<(), Error>
    ensures same_reference { tx.new.conn.ghost_name ≡ tx.old.conn.ghost_name }
    ensures survives { Survives (state S.Store tx.old.conn.now) (state S.Store tx.new.conn.now) (λ _. ⊥) }
    ensures ok { HasCleanDisk (state S.Store tx.new.conn.now) → OnOk result (HoldsCourt Second court.now (state S.Store tx.old.conn.now) × AreNewEmpty (state S.Store tx.old.conn.now)
        × IsUnchanged (state S.Store tx.old.conn.now) (state S.Store tx.new.conn.now)) }
{
    let now = court_in(tx, alloc, Version::Second)?;
    if !is_same(court, &now) {
        return Err(UNEXPECTED);
    }
    check_new(tx)
}
