//! From the first version to the second.
ghost use Rattle.std.specs.Prelude.{◌≡◌, ◌≤◌, ◌⊎◌, Err, IfErr, IsErrAnd, IsSome, OnErr, OnOk, false, true};
ghost use Rattle.std.specs.List.{AllByRecursion};
ghost use Rattle.civil_time.specs.ZoneText.{zone_at};
ghost use Rattle.court_days.specs.Court.{CourtSettings};
ghost use Rattle.docket_columns.specs.declared.version.Version.TheVariants.{First};
ghost use Rattle.docket_history.specs.Histories.{History};
ghost use Rattle.docket_decisions.specs.Outcomes.{IsHistory};
ghost use Rattle.docket_decisions.specs.Tables.{rows_of};
ghost use Rattle.docket_wire.specs.Valid.{IsCommand};
ghost use Rattle.docket_tables.specs.Orderly.{IsCourtSettings};
ghost use Rattle.sqlite.specs.Held.{state};
ghost use Rattle.sqlite.specs.State.{HasCleanDisk};
ghost use Rattle.sqlite.specs.Tree.{Trees};
ghost use Rattle.sqlite.specs.View.{doubt};
ghost use Rattle.docket_tables.specs.Contents.{rows_by};
ghost use Rattle.docket_tables.specs.Stands.{HoldsRowsIn, MakesNothing};
ghost use Rattle.docket_tables.specs.declared.table.Table.TheVariants as table;
ghost use Rattle.docket_scan.specs.Dockets.{MayHold};
ghost use Rattle.docket_scan.specs.Shapes.{has_named, has_table};
ghost use Rattle.docket_scan.specs.declared.fault.AdoptFault.TheVariants.{Empty, NoMemory, StoreFailed};
ghost use Rattle.docket_migration.specs.Keeping.{HasGone, IsCommitted, IsImageOfGone, is_court_apart};
ghost use Rattle.docket_migration.specs.Migrating.{Migrates, Tells};

use crate::apart::is_court_apart;
use crate::changing::change_version;
use docket_columns::Version;
use docket_scan::{AdoptFault, Watch, find_docket, has_named};
use docket_tables::{StoreFault, Table};
use sqlite::{Alter, Connection};
use std::alloc::Global;

/// Changes the version of tables that were judged.
fn change_judged<S: Alter>(conn: &mut Connection<S>, alloc: Global) -> Result<(), AdoptFault>
    requires { conn.old.in_transaction ≡ false }
    ensures idle { conn.new.in_transaction ≡ false }
    ensures clean { doubt (state S.Store conn.old).is_clean ≤ doubt (state S.Store conn.new).is_clean }
    ensures docket { (court : CourtSettings) (h : History) → MayHold First h → HoldsRowsIn S.Store First conn.old (rows_by First court (rows_of court h))
        → Migrates S.Store conn.old conn.new court h result }
    ensures short { result ≡ Err NoMemory → MakesNothing S.Store conn.old conn.new }
    ensures only { IfErr result (λ fault. (fault ≡ NoMemory) ⊎ (fault ≡ StoreFailed)) }
    ensures gone { has_table conn.old.schema table.Court ≡ true → is_court_apart conn.old.schema ≡ true → HasCleanDisk (state S.Store conn.new)
        → OnOk result (HasGone (state S.Store conn.old) (state S.Store conn.new) × IsCommitted (state S.Store conn.new)) }
    ensures may_go { has_table conn.old.schema table.Court ≡ true → is_court_apart conn.old.schema ≡ true → HasCleanDisk (state S.Store conn.new)
        → OnErr result ((db : Trees) → (state S.Store conn.new).may_leave db → (state S.Store conn.old).may_leave db ⊎ IsImageOfGone (state S.Store conn.old) db) }
{
    match change_version(conn, alloc) {
        Ok(()) => Ok(()),
        Err(StoreFault::NoMemory) => Err(AdoptFault::NoMemory),
        Err(StoreFault::StoreFailed) => Err(AdoptFault::StoreFailed),
    }
}

/// Judges the tables by the first version, and then changes them to the second, if a change of the court's
/// table changes no other.
fn migrate_idle<S: Alter, W: Watch>(
    conn: &mut Connection<S>,
    alloc: Global,
    watch: &mut W,
) -> Result<(), AdoptFault>
    requires { conn.old.in_transaction ≡ false }
    ensures idle { conn.new.in_transaction ≡ false }
    ensures clean { doubt (state S.Store conn.old).is_clean ≤ doubt (state S.Store conn.new).is_clean }
    ensures docket { (court : CourtSettings) (h : History) → IsCourtSettings court → IsSome (zone_at court.zone_text) → IsHistory court h → AllByRecursion IsCommand h
        → MayHold First h → HoldsRowsIn S.Store First conn.old (rows_by First court (rows_of court h)) → Migrates S.Store conn.old conn.new court h result }
    ensures told { Tells S.Store conn.old conn.new result }
{
    if let Err(fault) = find_docket(conn, alloc, Version::First, watch) {
        return Err(fault);
    }
    if !is_court_apart(conn.schema()) {
        return Err(AdoptFault::StoreFailed);
    }
    change_judged(conn, alloc)
}

/// Migrates a docket whose tables are of the first version to the second, whatever database it is in. It
/// judges the tables by the first version, in their order, and then changes them in one transaction. They
/// hold the same court and the same rows then, and are sound by the second version. A fault other than
/// `StoreFailed` leaves everything as it was; after that one a power failure leaves one version or the other.
/// A database in which a foreign key refers to the court's table, or another table has its tree, is not
/// changed (`StoreFailed`). Each row that is read is reported to `watch`.
pub fn migrate<S: Alter, W: Watch>(
    conn: &mut Connection<S>,
    alloc: Global,
    watch: &mut W,
) -> Result<(), AdoptFault>
    ensures idle { OnOk result (conn.new.in_transaction ≡ false) }
    ensures clean { doubt (state S.Store conn.old).is_clean ≤ doubt (state S.Store conn.new).is_clean }
    // The docket of a history becomes the docket of that history in the second version; the first holds no
    // command of the last three kinds.
    ensures docket { (court : CourtSettings) (h : History) → IsCourtSettings court → IsSome (zone_at court.zone_text) → IsHistory court h → AllByRecursion IsCommand h
        → MayHold First h → HoldsRowsIn S.Store First conn.old (rows_by First court (rows_of court h)) → Migrates S.Store conn.old conn.new court h result }
    // Any database whose tables were sound holds the same rows in the second version, or a fault names why not.
    ensures told { Tells S.Store conn.old conn.new result }
    // Without a court there is no docket, and the connection stays as it was.
    ensures empty { has_named conn.old.schema table.Court ≡ false → IsErrAnd result (λ fault. fault ≡ Empty) × (conn.new ≡ conn.old) }
{
    if !has_named(conn.schema(), Table::Court) {
        return Err(AdoptFault::Empty);
    }
    if !conn.is_autocommit() {
        return Err(AdoptFault::StoreFailed);
    }
    migrate_idle(conn, alloc, watch)
}
