//! The local names in the table of local rules, which are read before the deadlines are judged by them.
ghost use Rattle.std.specs.Prelude.{◌≡◌, ◌⊎◌, ℕ, List, false, IfErr, IfOk, IsTrue};
ghost use Rattle.sqlite.specs.Held.{state};
ghost use Rattle.sqlite.specs.State.{HasCleanDisk, Survives};
ghost use Rattle.court_days.specs.Court.{CourtSettings};
ghost use Rattle.docket_columns.specs.declared.version.Version.TheVariants.{Second};
ghost use Rattle.docket_sound.specs.KnownTexts.{is_known};
ghost use Rattle.docket_scan.specs.Causes.{IsCausedFault};
ghost use Rattle.docket_scan.specs.Judging.{fault_in};
ghost use Rattle.docket_scan.specs.Names.{NamesRead};
ghost use Rattle.docket_scan.specs.Reading.{FailsOver, NamesBefore};
ghost use Rattle.docket_scan.specs.Scans.{is_refusal};
ghost use Rattle.docket_scan.specs.declared.fault.AdoptFault.TheVariants.{NoMemory, StoreFailed};
ghost use Rattle.docket_tables.specs.declared.table.Table.TheVariants as table;

use crate::fault::{AdoptFault, fault_in};
use crate::scan::scan;
use crate::taker::Taker;
use crate::watch::Watch;
use docket_columns::{Version, local_name_of};
use docket_sound::KnownTexts;
use docket_tables::Table;
use sqlite::{Alter, Connection, Error, Row};
use std::alloc::{AllocError, Global};

/// Takes every row, and keeps the local names.
#[derive(Drop)]
struct NameTaker {
    names: KnownTexts,
}

impl Taker for NameTaker {
    ghost use Rattle.docket_scan.specs.Names.{AreKnown, names_of};

    ghost HasTaken = { λ taker rows. AreKnown taker.names (names_of rows) };

    ghost Context = { Unit {0} };

    ghost context = { λ _. tt };

    ghost IsSound = { λ _ _. Unit {0} };

    fn take(&mut self, alloc: Global, row: &Row) -> Result<bool, AllocError> {
        if let Some(name) = local_name_of(row) {
            self.names.put(alloc, name)?;
        }
        Ok(true)
    }
}

/// The names if the table was not read to its end: none if no statement can read it.
fn names_unread(alloc: Global, error: Error) -> Result<KnownTexts, AdoptFault>
    ensures ok { IfOk result (λ names. IsTrue (is_refusal error) × ((text : List ℕ) → is_known names text ≡ false)) }
    ensures err { IfErr result (λ fault. (fault ≡ NoMemory) ⊎ (fault ≡ StoreFailed)) }
    ensures which { IfErr result (λ fault. fault ≡ fault_in table.LocalRules error) }
{
    match fault_in(Table::LocalRules, error) {
        AdoptFault::Damaged(_) => Ok(KnownTexts::new(alloc)),
        fault => Err(fault),
    }
}

/// Returns the local names in the table of local rules, whether or not it is sound. A table that is missing,
/// or that no statement can read, has none.
fn names_in<S: Alter, W: Watch>(
    conn: &mut Connection<S>,
    alloc: Global,
    watch: &mut W,
) -> Result<KnownTexts, AdoptFault>
    ensures writes_nothing { Survives (state S.Store conn.old) (state S.Store conn.new) (λ _. ⊥) }
    ensures mode { conn.old.in_transaction ≡ false → conn.new.in_transaction ≡ false }
    ensures cause { HasCleanDisk (state S.Store conn.new) → IfErr result (IsCausedFault (state S.Store conn.old) (state S.Store conn.new)) }
    ensures told { HasCleanDisk (state S.Store conn.new) → NamesRead (state S.Store conn.old) (state S.Store conn.new) result }
{
    let mut taker = NameTaker {
        names: KnownTexts::new(alloc),
    };
    match scan(conn, alloc, Table::LocalRules, &mut taker, watch) {
        Ok(_) => Ok(taker.names),
        Err(error) => names_unread(alloc, error),
    }
}

/// Returns the local names by which the deadlines of a version are judged: the first has no table of local
/// rules.
pub(crate) fn read_names<S: Alter, W: Watch>(
    conn: &mut Connection<S>,
    alloc: Global,
    version: Version,
    watch: &mut W,
) -> Result<KnownTexts, AdoptFault>
    ensures writes_nothing { Survives (state S.Store conn.old) (state S.Store conn.new) (λ _. ⊥) }
    ensures mode { conn.old.in_transaction ≡ false → conn.new.in_transaction ≡ false }
    ensures cause { HasCleanDisk (state S.Store conn.new) → IfErr result (IsCausedFault (state S.Store conn.old) (state S.Store conn.new)) }
    ensures ok { IfOk result (NamesBefore S.Store version conn.old conn.new) }
    ensures err { (court : CourtSettings) (next : ℕ) → IfErr result (FailsOver version (state S.Store conn.old) court next (state S.Store conn.new)) }
{
    match version {
        Version::First => Ok(KnownTexts::new(alloc)),
        Version::Second => names_in(conn, alloc, watch),
    }
}
