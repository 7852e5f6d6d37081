//! Adopting the docket of a database.
ghost use Rattle.std.specs.Prelude.{IfErr, IfOk, MatchResult, ◌≡◌};
ghost use Rattle.sqlite.specs.Held.{state};
ghost use Rattle.sqlite.specs.State.{HasCleanDisk, Survives};
ghost use Rattle.court_days.specs.Court.{CourtSettings};
ghost use Rattle.docket_history.specs.Histories.{History};
ghost use Rattle.docket_scan.specs.Dockets.{holdings_in};
ghost use Rattle.docket_tables.specs.Layouts.{Rows};
ghost use Rattle.docket_tables.specs.Stands.{HoldsRows};
ghost use Rattle.docket_store.specs.Applying.{IsDocket, StandsFor, docket_rows};
ghost use Rattle.docket_store.specs.Causes.{IsCausedOpening};
ghost use Rattle.docket_store.specs.Opening.{IsAdopted, IsNotAdopted, IsRejected, IsSoundWith, PreservesRejected};

use docket_store::{AdoptFault, Docket, Holdings, Returned, Watch};
use sqlite::{Alter, Connection};
use std::alloc::Global;

/// Adopts the docket that a database holds. The watch sees each row that is read, and is then dropped.
pub fn adopt<S: Alter, V: Watch + Drop>(
    alloc: Global,
    conn: Connection<S>,
    mut watch: V,
) -> Result<(Docket<S>, Holdings), Returned<S, AdoptFault>>
    ensures adopted { (court : CourtSettings) (h : History) → IsDocket court h → StandsFor S.Store conn court h
        → MatchResult result (λ found. IsAdopted S.Store found.0 court h)
        (λ returned. IsNotAdopted S.Store returned.connection (docket_rows court h) returned.fault) }
    ensures counted { (court : CourtSettings) (h : History) → IsDocket court h → StandsFor S.Store conn court h
        → IfOk result (λ found. HasCleanDisk (state S.Store found.0.conn) → found.1 ≡ holdings_in court h) }
    // For any database, its tables are sound, or the fault says why there is no docket.
    ensures told { MatchResult result (λ found. IsSoundWith S.Store conn found.0 found.1)
        (λ returned. IsRejected S.Store conn returned.connection returned.fault) }
    ensures cause { IfErr result (λ returned. HasCleanDisk (state S.Store returned.connection)
        → IsCausedOpening (state S.Store conn) (state S.Store returned.connection) returned.failure returned.fault) }
    ensures writes_nothing { MatchResult result
        (λ found. Survives (state S.Store conn) (state S.Store found.0.conn) (λ _. ⊥))
        (λ returned. Survives (state S.Store conn) (state S.Store returned.connection) (λ _. ⊥)) }
    ensures stays { (rows : Rows) → HoldsRows S.Store conn rows → MatchResult result (λ found. HoldsRows S.Store found.0.conn rows)
        (λ returned. PreservesRejected S.Store returned.connection rows returned.fault) }
{
    Docket::adopt_watched(alloc, conn, &mut watch)
}
