//! The docket that a database holds, if it holds one.
ghost use Rattle.std.specs.Prelude.{◌≡◌, ◌⊎◌, IfOk, IfErr, IsSome, IsErrAnd, false};
ghost use Rattle.std.specs.List.{AllByRecursion};
ghost use Rattle.sqlite.specs.Held.{state};
ghost use Rattle.sqlite.specs.State.{HasCleanDisk, Survives};
ghost use Rattle.civil_time.specs.ZoneText.{zone_at};
ghost use Rattle.court_days.specs.Court.{CourtSettings};
ghost use Rattle.docket_history.specs.Histories.{History};
ghost use Rattle.docket_decisions.specs.Outcomes.{IsHistory};
ghost use Rattle.docket_decisions.specs.Tables.{rows_of};
ghost use Rattle.docket_wire.specs.Valid.{IsCommand};
ghost use Rattle.docket_sound.specs.Courts.{IsSoundCourt, settings_of as court_of};
ghost use Rattle.docket_tables.specs.Contents.{rows_by};
ghost use Rattle.docket_tables.specs.Orderly.{IsCourtSettings};
ghost use Rattle.docket_tables.specs.Stands.{HoldsRowsIn};
ghost use Rattle.docket_tables.specs.declared.table.Table.TheVariants as table;
ghost use Rattle.docket_scan.specs.Causes.{IsCausedFault};
ghost use Rattle.docket_scan.specs.Dockets.{IsFoundOfDocket, MayHold};
ghost use Rattle.docket_scan.specs.Finding.{IsTaken, ReadsCourt, court_fault};
ghost use Rattle.docket_scan.specs.Shapes.{has_named};
ghost use Rattle.docket_scan.specs.declared.fault.AdoptFault.TheVariants.{Empty, NoMemory, Damaged};

use crate::court::CourtCheck;
use crate::fault::AdoptFault;
use crate::holdings::Holdings;
use crate::judging::judge_tables;
use crate::scan::scan;
use crate::shape::{has_named, has_table};
use crate::watch::Watch;
use court_days::Court;
use docket_columns::Version;
use docket_sound::{CourtRecord, sound_court};
use docket_tables::Table;
use sqlite::{Alter, Connection, Error, ErrorCode};
use std::alloc::Global;

/// A docket that was found: its court, and how much its tables hold.
#[derive(Drop)]
pub struct FoundDocket {
    pub court: Court,
    pub held: Holdings,
}

/// Returns the fault for an error in the reading of the court's table. A table that no statement can read
/// counts as missing.
fn court_fault(error: Error) -> AdoptFault
    ensures { result ≡ court_fault error }
{
    match error {
        Error::SqlInputError(_) => AdoptFault::Empty,
        Error::SqliteFailure(ErrorCode::TypeMismatch) => AdoptFault::Empty,
        Error::SqliteFailure(ErrorCode::IntegerOverflow) => AdoptFault::Empty,
        Error::SqliteFailure(ErrorCode::OutOfMemory) => AdoptFault::NoMemory,
        _ => AdoptFault::StoreFailed,
    }
}

/// Reads the table of the court.
fn read_court<S: Alter, W: Watch>(
    conn: &mut Connection<S>,
    alloc: Global,
    version: Version,
    watch: &mut W,
) -> Result<CourtRecord, AdoptFault>
    ensures writes_nothing { Survives (state S.Store conn.old) (state S.Store conn.new) (λ _. ⊥) }
    ensures mode { conn.old.in_transaction ≡ false → conn.new.in_transaction ≡ false }
    ensures cause { HasCleanDisk (state S.Store conn.new) → IfErr result (IsCausedFault (state S.Store conn.old) (state S.Store conn.new)) }
    ensures told { HasCleanDisk (state S.Store conn.new) → ReadsCourt version (state S.Store conn.old) (state S.Store conn.new) result }
    ensures unread { has_named conn.old.schema table.Court ≡ false → IsErrAnd result (λ fault. fault ≡ Empty) × (conn.new ≡ conn.old) }
{
    if !has_named(conn.schema(), Table::Court) {
        return Err(AdoptFault::Empty);
    }
    if !has_table(conn.schema(), Table::Court) {
        return Err(AdoptFault::NotADocket);
    }
    let mut check = CourtCheck::new(version);
    match scan(conn, alloc, Table::Court, &mut check, watch) {
        Ok(Some(_)) => check.finish(),
        Ok(None) => Err(AdoptFault::NotADocket),
        Err(error) => Err(court_fault(error)),
    }
}

/// Returns the court of its row, if it is sound.
fn court_in(alloc: Global, row: &CourtRecord) -> Result<Court, AdoptFault>
    ensures ok { IfOk result (λ court. IsSoundCourt row.now × (court ≡ court_of row.now)) }
    ensures err { IfErr result (λ fault. (fault ≡ NoMemory) ⊎ ((fault ≡ Damaged table.Court) × (IsSoundCourt row.now → ⊥))) }
{
    match sound_court(alloc, row)? {
        Some(court) => Ok(court),
        None => Err(AdoptFault::Damaged(Table::Court)),
    }
}

/// Returns the docket that a database holds in the tables of `version`, whatever database it is. It judges
/// the table of the court first, and then the others of that version in their order. An error names the first
/// cause for which the database is not taken for a docket. It is `OtherVersion` if the court is marked with
/// another version. Out of memory may come at any point. So may a failure of the database, but only for a
/// cause: its disk failed or refused, a limit on steps was set, or the connection was shut. The docket of a
/// history in that version is found as it is, without any other error; the first version holds no command of
/// the last three kinds. Nothing is written. Each row that is read is reported to `watch`.
pub fn find_docket<S: Alter, W: Watch>(
    conn: &mut Connection<S>,
    alloc: Global,
    version: Version,
    watch: &mut W,
) -> Result<FoundDocket, AdoptFault>
    ensures writes_nothing { Survives (state S.Store conn.old) (state S.Store conn.new) (λ _. ⊥) }
    ensures mode { conn.old.in_transaction ≡ false → conn.new.in_transaction ≡ false }
    ensures cause { HasCleanDisk (state S.Store conn.new) → IfErr result (IsCausedFault (state S.Store conn.old) (state S.Store conn.new)) }
    ensures told { HasCleanDisk (state S.Store conn.new) → IsTaken version (state S.Store conn.old) (state S.Store conn.new) result }
    ensures docket { HasCleanDisk (state S.Store conn.new)
        → (court : CourtSettings) (h : History) → IsCourtSettings court → IsSome (zone_at court.zone_text) → IsHistory court h → AllByRecursion IsCommand h
        → MayHold version h → HoldsRowsIn S.Store version conn.old (rows_by version court (rows_of court h)) → IsFoundOfDocket court h result }
    ensures unread { has_named conn.old.schema table.Court ≡ false → IsErrAnd result (λ fault. fault ≡ Empty) × (conn.new ≡ conn.old) }
{
    let row = read_court(conn, alloc, version, watch)?;
    let judged = court_in(alloc, &row)?;
    let held = judge_tables(conn, alloc, version, judged, row.next_row, watch)?;
    let court = court_in(alloc, &row)?;
    Ok(FoundDocket { court, held })
}
