//! The docket that a database holds.
ghost use Rattle.std.specs.Prelude.{◌≡◌, ◌⊎◌, ◌≤◌, Err, OnOk, IfErr, IsErrAnd, false};
ghost use Rattle.sqlite.specs.Held.{state};
ghost use Rattle.sqlite.specs.State.{HasCleanDisk, Survives};
ghost use Rattle.sqlite.specs.View.{doubt};
ghost use Rattle.court_days.specs.Court.{CourtSettings};
ghost use Rattle.docket_history.specs.Histories.{History};
ghost use Rattle.docket_scan.specs.Shapes.{has_named};
ghost use Rattle.docket_scan.specs.declared.fault.AdoptFault.TheVariants.{Empty, NoMemory, StoreFailed};
ghost use Rattle.docket_tables.specs.Layouts.{Rows};
ghost use Rattle.docket_tables.specs.Stands.{HoldsRows, Lasts};
ghost use Rattle.docket_tables.specs.declared.table.Table.TheVariants as table;
ghost use Rattle.docket_store.specs.Opening.{PreservesJudged};
ghost use Rattle.docket_applying.specs.Applying.{IsDocket, StandsFor};
ghost use Rattle.docket_store.specs.Causes.{IsCausedOpening, IsShort};
ghost use Rattle.docket_store.specs.Opening.{Finds, IsNotAdopted, IsToldOf};

use docket_columns::Version;
use docket_scan::{AdoptFault, FoundDocket, Watch, find_docket, has_named};
use docket_tables::{StoreFault, Table, fault_of};
use sqlite::{Alter, Connection, Error, ErrorCode};
use std::alloc::Global;

/// The fault for out of memory, which is stored as the last failure. It is `StoreFailed` if the database
/// failed by it.
fn want_of_memory<S: Alter>(conn: &mut Connection<S>, failure: &mut Option<Error>) -> AdoptFault
    requires { conn.old.in_transaction ≡ false }
    ensures clean { doubt (state S.Store conn.old).is_clean ≤ doubt (state S.Store conn.new).is_clean }
    ensures writes_nothing { Survives (state S.Store conn.old) (state S.Store conn.new) (λ _. ⊥) }
    ensures left { (rows : Rows) → Lasts S.Store conn.old rows → IsNotAdopted S.Store conn.new rows result }
    ensures fault { (result ≡ NoMemory) ⊎ (result ≡ StoreFailed) }
    ensures short { IsShort failure.new }
{
    let error = Error::SqliteFailure(ErrorCode::OutOfMemory);
    *failure = Some(error);
    match fault_of(conn, error) {
        StoreFault::NoMemory => AdoptFault::NoMemory,
        StoreFault::StoreFailed => AdoptFault::StoreFailed,
    }
}

/// Returns the docket of a database that has a table of a court.
fn judged_docket<S: Alter, W: Watch>(
    conn: &mut Connection<S>,
    alloc: Global,
    watch: &mut W,
    failure: &mut Option<Error>,
) -> Result<FoundDocket, AdoptFault>
    requires { conn.old.in_transaction ≡ false }
    ensures idle { OnOk result (conn.new.in_transaction ≡ false) }
    ensures clean { doubt (state S.Store conn.old).is_clean ≤ doubt (state S.Store conn.new).is_clean }
    ensures writes_nothing { Survives (state S.Store conn.old) (state S.Store conn.new) (λ _. ⊥) }
    ensures stays { (rows : Rows) → HoldsRows S.Store conn.old rows → PreservesJudged S.Store conn.new rows result }
    ensures found { (court : CourtSettings) (h : History) → IsDocket court h → StandsFor S.Store conn.old court h
        → Finds S.Store conn.new court h result }
    ensures told { IsToldOf S.Store conn.old conn.new result }
    ensures cause { HasCleanDisk (state S.Store conn.new) → IfErr result (IsCausedOpening (state S.Store conn.old) (state S.Store conn.new) failure.new) }
{
    match find_docket(conn, alloc, Version::KEPT, watch) {
        Ok(found) => Ok(found),
        Err(AdoptFault::NoMemory) => Err(want_of_memory(conn, failure)),
        Err(fault) => Err(fault),
    }
}

/// Returns the docket that a database holds, whatever database it is. It looks for the faults in their order
/// and writes nothing. Out of memory is stored as the last failure.
pub(crate) fn adopt_from<S: Alter, W: Watch>(
    conn: &mut Connection<S>,
    alloc: Global,
    watch: &mut W,
    failure: &mut Option<Error>,
) -> Result<FoundDocket, AdoptFault>
    ensures idle { OnOk result (conn.new.in_transaction ≡ false) }
    ensures clean { doubt (state S.Store conn.old).is_clean ≤ doubt (state S.Store conn.new).is_clean }
    ensures writes_nothing { Survives (state S.Store conn.old) (state S.Store conn.new) (λ _. ⊥) }
    ensures stays { (rows : Rows) → HoldsRows S.Store conn.old rows → PreservesJudged S.Store conn.new rows result }
    ensures found { (court : CourtSettings) (h : History) → IsDocket court h → StandsFor S.Store conn.old court h
        → Finds S.Store conn.new court h result }
    ensures told { IsToldOf S.Store conn.old conn.new result }
    ensures cause { HasCleanDisk (state S.Store conn.new) → IfErr result (IsCausedOpening (state S.Store conn.old) (state S.Store conn.new) failure.new) }
    ensures unread { has_named conn.old.schema table.Court ≡ false → IsErrAnd result (λ fault. fault ≡ Empty) × (conn.new ≡ conn.old) }
{
    if !has_named(conn.schema(), Table::Court) {
        return Err(AdoptFault::Empty);
    }
    if !conn.is_autocommit() {
        return Err(AdoptFault::StoreFailed);
    }
    judged_docket(conn, alloc, watch, failure)
}
