//! The change of the version, in one transaction.
ghost use Rattle.std.specs.Prelude.{◌≡◌, ◌≤◌, ◌⊎◌, ℕ, suc, [], ◌∷◌, length, Ok, Err, OnErr, OnOk, false, true};
ghost use Rattle.court_days.specs.Court.{CourtSettings};
ghost use Rattle.docket_columns.specs.Cells.{court_cells, court_cells_of};
ghost use Rattle.docket_columns.specs.declared.version.Version.TheVariants.{First};
ghost use Rattle.sqlite.specs.Held.{state};
ghost use Rattle.sqlite.specs.Effect.{Database};
ghost use Rattle.sqlite.specs.State.{HasCleanDisk, Survives};
ghost use Rattle.sqlite.specs.Tree.{Trees};
ghost use Rattle.sqlite.specs.View.{doubt};
ghost use Rattle.docket_tables.specs.Changing.{Ran};
ghost use Rattle.docket_tables.specs.Layouts.{Rows, with_rows};
ghost use Rattle.docket_tables.specs.Stands.{HoldsRowsIn, MakesNothing, Sees, StaysInside};
ghost use Rattle.docket_tables.specs.Tables.{first_tables, layout_of};
ghost use Rattle.docket_tables.specs.declared.fault.StoreFault.TheVariants.{NoMemory};
ghost use Rattle.docket_tables.specs.declared.table.Table.TheVariants as table;
ghost use Rattle.docket_scan.specs.Shapes.{has_table};
ghost use Rattle.docket_migration.specs.Changing.{Changes};
ghost use Rattle.docket_migration.specs.Growing.{IsGrown, IsNew};
ghost use Rattle.docket_migration.specs.Keeping.{GoesOnWith, HasGone, IsCommitted, IsImageOfGone, KeepsTables, RewritesCourt, is_court_apart};
ghost use Rattle.docket_migration.specs.Moving.{grown, moved, version_text};

use crate::reading::{check_changed, court_in};
use docket_columns::Version;
use docket_tables::{StoreFault, Table, create_text, undone_fault};
use sqlite::{Alter, Connection, Error, Transaction};
use std::alloc::Global;

/// Sets the version in the court's row. By the contract, the number is that of `Version::Second`.
fn version_text() -> &'static str
    ensures { result.now ≡ version_text }
{
    "UPDATE court SET version = 2 WHERE id = 1"
}

/// Runs one statement of a transaction. Only the commit commits it.
fn run<S: Alter>(tx: &mut Transaction<'_, S>, sql: &str) -> Result<(), Error>
    ensures same_reference { tx.new.conn.ghost_name ≡ tx.old.conn.ghost_name }
    ensures inside { StaysInside (state S.Store tx.old.conn.now) (state S.Store tx.new.conn.now) }
    ensures runs { HasCleanDisk (state S.Store tx.new.conn.now) → OnOk result (Ran sql.now [] (state S.Store tx.old.conn.now) (state S.Store tx.new.conn.now)) }
{
    tx.execute(sql, &[])?;
    Ok(())
}

/// Makes a table that the first version lacks.
fn define<S: Alter>(tx: &mut Transaction<'_, S>, table: Table) -> Result<(), Error>
    ensures same_reference { tx.new.conn.ghost_name ≡ tx.old.conn.ghost_name }
    ensures inside { StaysInside (state S.Store tx.old.conn.now) (state S.Store tx.new.conn.now) }
    ensures ok { HasCleanDisk (state S.Store tx.new.conn.now) → IsNew table → (rows : Rows) → IsGrown rows (layout_of table).at (state S.Store tx.old.conn.now)
        → OnOk result (IsGrown rows (suc (layout_of table).at) (state S.Store tx.new.conn.now)) }
    ensures any { HasCleanDisk (state S.Store tx.new.conn.now) → IsNew table → OnOk result (GoesOnWith (λ t. t ≡ table) (state S.Store tx.old.conn.now).now (state S.Store tx.new.conn.now).now) }
{
    run(tx, create_text(table))
}

/// Makes the tables that the first version lacks.
fn add_tables<S: Alter>(tx: &mut Transaction<'_, S>) -> Result<(), Error>
    ensures same_reference { tx.new.conn.ghost_name ≡ tx.old.conn.ghost_name }
    ensures inside { StaysInside (state S.Store tx.old.conn.now) (state S.Store tx.new.conn.now) }
    ensures ok { HasCleanDisk (state S.Store tx.new.conn.now) → (rows : Rows) → IsGrown rows (length first_tables) (state S.Store tx.old.conn.now)
        → OnOk result (Sees (state S.Store tx.new.conn.now) (grown rows)) }
    ensures any { HasCleanDisk (state S.Store tx.new.conn.now) → OnOk result (GoesOnWith IsNew (state S.Store tx.old.conn.now).now (state S.Store tx.new.conn.now).now) }
{
    define(tx, Table::ShortDays)?;
    define(tx, Table::LocalRules)
}

/// Sets the second version in the court's row.
fn set_version<S: Alter>(tx: &mut Transaction<'_, S>) -> Result<(), Error>
    ensures same_reference { tx.new.conn.ghost_name ≡ tx.old.conn.ghost_name }
    ensures inside { StaysInside (state S.Store tx.old.conn.now) (state S.Store tx.new.conn.now) }
    ensures ok { HasCleanDisk (state S.Store tx.new.conn.now) → (court : CourtSettings) (next : ℕ) (rows : Rows) → rows table.Court ≡ court_cells_of First court next ∷ []
        → Sees (state S.Store tx.old.conn.now) rows → OnOk result (Sees (state S.Store tx.new.conn.now) (with_rows table.Court (court_cells court next ∷ []) rows)) }
    ensures any { HasCleanDisk (state S.Store tx.new.conn.now) → (first : Database) → has_table first.schema table.Court ≡ true → is_court_apart first.schema ≡ true
        → GoesOnWith IsNew first (state S.Store tx.old.conn.now).now → OnOk result (RewritesCourt (state S.Store tx.old.conn.now).now (state S.Store tx.new.conn.now).now) }
{
    run(tx, version_text())
}

/// Makes the tables, and sets the version.
fn change_all<S: Alter>(tx: &mut Transaction<'_, S>) -> Result<(), Error>
    ensures same_reference { tx.new.conn.ghost_name ≡ tx.old.conn.ghost_name }
    ensures inside { StaysInside (state S.Store tx.old.conn.now) (state S.Store tx.new.conn.now) }
    ensures ok { HasCleanDisk (state S.Store tx.new.conn.now) → (court : CourtSettings) (next : ℕ) (rows : Rows) → rows table.Court ≡ court_cells_of First court next ∷ []
        → IsGrown rows (length first_tables) (state S.Store tx.old.conn.now) → OnOk result (Sees (state S.Store tx.new.conn.now) (moved court next rows)) }
    ensures any { HasCleanDisk (state S.Store tx.new.conn.now) → has_table (state S.Store tx.old.conn.now).now.schema table.Court ≡ true → is_court_apart (state S.Store tx.old.conn.now).now.schema ≡ true
        → OnOk result (KeepsTables (state S.Store tx.old.conn.now).now (state S.Store tx.new.conn.now).now) }
{
    add_tables(tx)?;
    set_version(tx)
}

/// Makes all changes, and checks them: the court's row is the same but for the version, and the tables that
/// the first version lacks hold nothing.
fn change_checked<S: Alter>(tx: &mut Transaction<'_, S>, alloc: Global) -> Result<(), Error>
    ensures same_reference { tx.new.conn.ghost_name ≡ tx.old.conn.ghost_name }
    ensures survives { Survives (state S.Store tx.old.conn.now) (state S.Store tx.new.conn.now) (λ _. ⊥) }
    ensures ok { HasCleanDisk (state S.Store tx.new.conn.now) → (court : CourtSettings) (next : ℕ) (rows : Rows) → rows table.Court ≡ court_cells_of First court next ∷ []
        → IsGrown rows (length first_tables) (state S.Store tx.old.conn.now) → OnOk result (Sees (state S.Store tx.new.conn.now) (moved court next rows)) }
    ensures any { HasCleanDisk (state S.Store tx.new.conn.now) → has_table (state S.Store tx.old.conn.now).now.schema table.Court ≡ true → is_court_apart (state S.Store tx.old.conn.now).now.schema ≡ true
        → OnOk result (HasGone (state S.Store tx.old.conn.now) (state S.Store tx.new.conn.now)) }
{
    let court = court_in(tx, alloc, Version::First)?;
    change_all(tx)?;
    check_changed(tx, alloc, &court)
}

/// Changes the tables of a docket to the second version, in one transaction: the tables that the first lacks
/// stand and the version is set, or nothing is changed. If memory ran out nothing was changed, in whatever
/// database; if the database failed, a power failure leaves the first version or the second.
pub fn change_version<S: Alter>(conn: &mut Connection<S>, alloc: Global) -> Result<(), StoreFault>
    requires idle { conn.old.in_transaction ≡ false }
    ensures idle { conn.new.in_transaction ≡ false }
    ensures clean { doubt (state S.Store conn.old).is_clean ≤ doubt (state S.Store conn.new).is_clean }
    ensures short { result ≡ Err NoMemory → MakesNothing S.Store conn.old conn.new }
    ensures changed { (court : CourtSettings) (next : ℕ) (rows : Rows) → rows table.Court ≡ court_cells_of First court next ∷ [] → HoldsRowsIn S.Store First conn.old rows
        → Changes S.Store conn.old conn.new rows (moved court next rows) result }
    ensures gone { has_table conn.old.schema table.Court ≡ true → is_court_apart conn.old.schema ≡ true → HasCleanDisk (state S.Store conn.new)
        → OnOk result (HasGone (state S.Store conn.old) (state S.Store conn.new) × IsCommitted (state S.Store conn.new)) }
    ensures may_go { has_table conn.old.schema table.Court ≡ true → is_court_apart conn.old.schema ≡ true → HasCleanDisk (state S.Store conn.new)
        → OnErr result ((db : Trees) → (state S.Store conn.new).may_leave db → (state S.Store conn.old).may_leave db ⊎ IsImageOfGone (state S.Store conn.old) db) }
{
    let mut tx = conn.transaction();
    if let Err(error) = change_checked(&mut tx, alloc) {
        return Err(undone_fault(error));
    }
    match tx.commit() {
        Ok(()) => Ok(()),
        Err(_) => Err(StoreFault::StoreFailed),
    }
}
