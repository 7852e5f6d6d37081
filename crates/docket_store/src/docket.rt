//! The docket of a court in a database.
ghost use Rattle.std.specs.Prelude.{◌≡◌, ◌↔◌, ◌≤◌, ◌<◌, ◌^◌, ℕ, List, [], true, false, None, Ok, Err, IfOk, OnOk, IfErr, IsErrAnd, IsTrue, MatchResult, is_some};
ghost use Rattle.sqlite.specs.Held.{state};
ghost use Rattle.sqlite.specs.State.{HasCleanDisk, Survives};
ghost use Rattle.sqlite.specs.View.{doubt};
ghost use Rattle.court_days.specs.Court.{CourtSettings};
ghost use Rattle.docket_history.specs.Histories.{History};
ghost use Rattle.docket_columns.specs.declared.version.Version.TheVariants.{First};
ghost use Rattle.docket_decisions.specs.Tables.{rows_of};
ghost use Rattle.docket_migration.specs.Migrating.{Migrates, Tells};
ghost use Rattle.docket_scan.specs.Dockets.{MayHold, holdings_in};
ghost use Rattle.docket_scan.specs.Shapes.{has_named};
ghost use Rattle.docket_scan.specs.declared.fault.AdoptFault.TheVariants.{Empty};
ghost use Rattle.docket_tables.specs.Contents.{rows_by};
ghost use Rattle.docket_tables.specs.Recognition.{has_docket_table};
ghost use Rattle.docket_decisions.specs.declared.end_row.StoredEnd.{StoredEnd};
ghost use Rattle.docket_tables.specs.AnyRows.{AreDocketRows};
ghost use Rattle.docket_tables.specs.Causes.{IsLater};
ghost use Rattle.docket_tables.specs.Layouts.{Rows};
ghost use Rattle.docket_tables.specs.Stands.{HoldsRows, HoldsRowsIn};
ghost use Rattle.docket_tables.specs.declared.table.Table.TheVariants as table;
ghost use Rattle.docket_applying.specs.AnyRows.{WritesWhole};
ghost use Rattle.docket_store.specs.Opening.{PreservesRejected};
ghost use Rattle.docket_applying.specs.Applying.{IsDocket, StandsFor, Stands, Applies, docket_rows};
ghost use Rattle.docket_applying.specs.Causes.{IsClosedByWrite, IsClosedForCause, IsNotAccepted};
ghost use Rattle.docket_store.specs.Causes.{IsCausedCreating, IsCausedOpening};
ghost use Rattle.docket_store.specs.Migrating.{cause_of};
ghost use Rattle.docket_store.specs.Opening.{IsAdopted, IsNotAdopted, IsNotMade, IsRejected, IsSoundDocket, IsSoundWith, TakeCommands};
ghost use Rattle.docket_store.specs.declared.creating.CreateFault.TheVariants.{NotEmpty};
ghost use Rattle.docket_applying.specs.declared.fault.Fault.TheVariants as fault;

use crate::adopting::adopt_from;
use crate::creating::{CreateFault, make_docket};
use crate::laws::courts_begin_without_a_record;
use crate::migrating::MigrateFault;
use crate::returned::Returned;
use court_days::Court;
use docket_applying::{Fault, apply_to, closing_error};
use docket_command::{Command, Reply};
use docket_history::StandingCalendar;
use docket_migration::migrate;
use docket_scan::{AdoptFault, FoundDocket, Holdings, Unwatched, Watch};
use sqlite::{Alter, Connection, Error};
use std::alloc::Global;
use std::marker::Model;

/// The docket of a court, kept in a database.
#[derive(Drop)]
pub struct Docket<S: Alter> {
    pub(crate) alloc: Global,
    pub(crate) conn: Connection<S>,
    pub(crate) court: Court,
    // The error of the database, if it failed.
    pub(crate) closed_by: Option<Error>,
    // The calendar, from when it is first read until it changes.
    pub(crate) calendar: Option<StandingCalendar>,
}

impl<S: Alter> Model for Docket<S> {
    ghost use Rattle.std.specs.Prelude.{◌≡◌, false, is_some};
    ghost use Rattle.docket_applying.specs.Dockets.{Docket, docket_code};

    ghost Value = { Docket S };

    ghost coded = { docket_code S.code };

    ghost view = { λ d. record { conn = d.conn; court = d.court; closed = is_some d.closed_by; closed_by = d.closed_by; calendar = d.calendar } };

    ghost invariant = { λ d. d.conn.in_transaction ≡ false };
}

impl<S: Alter> Docket<S> {
    /// Makes the docket of a court, without any record, in an empty database. It fails if the database holds
    /// a docket or something else, or a transaction is open on it. Otherwise the database fails only for a
    /// cause: its disk failed or refused, memory ran out, a limit on steps was set, or the connection was
    /// shut. Its error is then returned as the `failure`.
    pub fn create(
        alloc: Global,
        conn: Connection<S>,
        court: Court,
    ) -> Result<Docket<S>, Returned<S, CreateFault>>
        ensures made { IfOk result (λ docket. Stands S.Store docket [] × (docket.court ≡ court)) }
        ensures empty { OnOk result (has_docket_table conn.schema ≡ false) }
        ensures full { IsTrue (has_docket_table conn.schema) → IsErrAnd result (λ returned. returned.fault ≡ NotEmpty) }
        ensures fault { IfErr result (λ returned. IsNotMade S.Store conn returned.connection court returned.fault) }
        ensures cause { IfErr result (λ returned. HasCleanDisk (state S.Store returned.connection)
            → IsCausedCreating (state S.Store conn) (state S.Store returned.connection) returned.failure returned.fault) }
        ensures clean { MatchResult result
            (λ docket. doubt (state S.Store conn).is_clean ≤ doubt (state S.Store docket.conn).is_clean)
            (λ returned. doubt (state S.Store conn).is_clean ≤ doubt (state S.Store returned.connection).is_clean) }
    {
        let mut connection = conn;
        let mut failure = None;
        courts_begin_without_a_record(&court);
        match make_docket(&mut connection, &court, &mut failure) {
            Ok(()) => Ok(Docket {
                alloc,
                conn: connection,
                court,
                closed_by: None,
                calendar: None,
            }),
            Err(fault) => Err(Returned {
                fault,
                failure,
                connection,
            }),
        }
    }

    /// Adopts the docket that a database holds, whatever database it is. It judges the tables in their order,
    /// each by those before it, in time linear in the rows. Its memory does not grow with the entries, and it
    /// writes nothing. It looks for the faults in their order. Out of memory may come before any of them, and
    /// so may a failure of the database, but only for a cause. The causes are: its disk failed or refused, a
    /// limit on steps was set, the connection was shut, a transaction is open on it, or memory ran out. Out
    /// of memory is then returned as the `failure`.
    pub fn adopt(alloc: Global, conn: Connection<S>) -> Result<Docket<S>, Returned<S, AdoptFault>>
        // The docket of a history is adopted as it is, and there is no other fault.
        ensures adopted { (court : CourtSettings) (h : History) → IsDocket court h → StandsFor S.Store conn court h
            → MatchResult result (λ docket. IsAdopted S.Store docket court h)
            (λ returned. IsNotAdopted S.Store returned.connection (docket_rows court h) returned.fault) }
        // For any database, the docket is that of sound tables, and a fault names why there is none.
        ensures told { MatchResult result (λ docket. IsSoundDocket S.Store conn docket)
            (λ returned. IsRejected S.Store conn returned.connection returned.fault) }
        // Commands can be applied to the rows that the connection held, whether or not they are those of a history.
        ensures rows { (rows : Rows) → HoldsRows S.Store conn rows
            → IfOk result (λ docket. HasCleanDisk (state S.Store docket.conn) → TakeCommands docket.court rows) }
        // Without a court there is no docket, and the connection comes back as it was.
        ensures empty { has_named conn.schema table.Court ≡ false
            → IsErrAnd result (λ returned. (returned.fault ≡ Empty) × (returned.connection ≡ conn)) }
        // The database failed only for a cause.
        ensures cause { IfErr result (λ returned. HasCleanDisk (state S.Store returned.connection)
            → IsCausedOpening (state S.Store conn) (state S.Store returned.connection) returned.failure returned.fault) }
        ensures opened { IfOk result (λ docket. docket.closed ≡ false) }
        // Nothing is written, whatever the answer.
        ensures writes_nothing { MatchResult result
            (λ docket. Survives (state S.Store conn) (state S.Store docket.conn) (λ _. ⊥))
            (λ returned. Survives (state S.Store conn) (state S.Store returned.connection) (λ _. ⊥)) }
        ensures stays { (rows : Rows) → HoldsRows S.Store conn rows → MatchResult result (λ docket. HoldsRows S.Store docket.conn rows)
            (λ returned. PreservesRejected S.Store returned.connection rows returned.fault) }
        ensures clean { MatchResult result
            (λ docket. doubt (state S.Store conn).is_clean ≤ doubt (state S.Store docket.conn).is_clean)
            (λ returned. doubt (state S.Store conn).is_clean ≤ doubt (state S.Store returned.connection).is_clean) }
    {
        let (docket, _) = Docket::adopt_watched(alloc, conn, &mut Unwatched)?;
        Ok(docket)
    }

    /// Adopts the docket that a database holds, as `adopt` does, and returns how much its tables hold. It
    /// reports each row that it reads to `watch`.
    pub fn adopt_watched<W: Watch>(
        alloc: Global,
        conn: Connection<S>,
        watch: &mut W,
    ) -> Result<(Docket<S>, Holdings), Returned<S, AdoptFault>>
        ensures adopted { (court : CourtSettings) (h : History) → IsDocket court h → StandsFor S.Store conn court h
            → MatchResult result (λ found. IsAdopted S.Store found.0 court h)
            (λ returned. IsNotAdopted S.Store returned.connection (docket_rows court h) returned.fault) }
        // For the docket of a history it returns what the history has.
        ensures counted { (court : CourtSettings) (h : History) → IsDocket court h → StandsFor S.Store conn court h
            → IfOk result (λ found. HasCleanDisk (state S.Store found.0.conn) → found.1 ≡ holdings_in court h) }
        ensures told { MatchResult result (λ found. IsSoundWith S.Store conn found.0 found.1)
            (λ returned. IsRejected S.Store conn returned.connection returned.fault) }
        ensures rows { (rows : Rows) → HoldsRows S.Store conn rows
            → IfOk result (λ found. HasCleanDisk (state S.Store found.0.conn) → TakeCommands found.0.court rows) }
        ensures empty { has_named conn.schema table.Court ≡ false
            → IsErrAnd result (λ returned. (returned.fault ≡ Empty) × (returned.connection ≡ conn)) }
        // The database failed only for a cause.
        ensures cause { IfErr result (λ returned. HasCleanDisk (state S.Store returned.connection)
            → IsCausedOpening (state S.Store conn) (state S.Store returned.connection) returned.failure returned.fault) }
        ensures opened { IfOk result (λ found. found.0.closed ≡ false) }
        // Nothing is written, whatever the answer.
        ensures writes_nothing { MatchResult result
            (λ found. Survives (state S.Store conn) (state S.Store found.0.conn) (λ _. ⊥))
            (λ returned. Survives (state S.Store conn) (state S.Store returned.connection) (λ _. ⊥)) }
        ensures stays { (rows : Rows) → HoldsRows S.Store conn rows → MatchResult result (λ found. HoldsRows S.Store found.0.conn rows)
            (λ returned. PreservesRejected S.Store returned.connection rows returned.fault) }
        ensures clean { MatchResult result
            (λ found. doubt (state S.Store conn).is_clean ≤ doubt (state S.Store found.0.conn).is_clean)
            (λ returned. doubt (state S.Store conn).is_clean ≤ doubt (state S.Store returned.connection).is_clean) }
    {
        let mut connection = conn;
        let mut failure = None;
        match adopt_from(&mut connection, alloc, watch, &mut failure) {
            Ok(FoundDocket { court, held }) => {
                let docket = Docket {
                    alloc,
                    conn: connection,
                    court,
                    closed_by: None,
                    calendar: None,
                };
                Ok((docket, held))
            }
            Err(fault) => Err(Returned {
                fault,
                failure,
                connection,
            }),
        }
    }

    /// Migrates the docket of a database from the first version of the tables to the second, whatever database
    /// it is. It judges the tables by the first version, as `adopt` does, and then changes them in one
    /// transaction. That changes no row but the court's, and in it only the version. After a fault a power
    /// failure leaves what it could leave before; if the database failed, it leaves one version or the other.
    pub fn migrate(
        alloc: Global,
        conn: Connection<S>,
    ) -> Result<Connection<S>, Returned<S, MigrateFault>>
        // The docket of a history whose commands are of the first version's kinds becomes the docket of that
        // history in the second. The only faults are out of memory and a failure of the database.
        ensures migrated { (court : CourtSettings) (h : History) → IsDocket court h → MayHold First h
            → HoldsRowsIn S.Store First conn (rows_by First court (rows_of court h))
            → MatchResult result (λ now. StandsFor S.Store now court h)
            (λ returned. Migrates S.Store conn returned.connection court h (Err (cause_of returned.fault))) }
        // Any database whose tables of the first version were sound holds the same rows in the second, which
        // is sound too, or a fault names why not.
        ensures told { MatchResult result (λ now. Tells S.Store conn now (Ok tt))
            (λ returned. Tells S.Store conn returned.connection (Err (cause_of returned.fault))) }
        // Without a court there is no docket, and the connection comes back as it was.
        ensures empty { has_named conn.schema table.Court ≡ false
            → IsErrAnd result (λ returned. (cause_of returned.fault ≡ Empty) × (returned.connection ≡ conn)) }
        ensures clean { MatchResult result
            (λ now. doubt (state S.Store conn).is_clean ≤ doubt (state S.Store now).is_clean)
            (λ returned. doubt (state S.Store conn).is_clean ≤ doubt (state S.Store returned.connection).is_clean) }
    {
        Docket::migrate_watched(alloc, conn, &mut Unwatched)
    }

    /// Migrates the docket of a database, as `migrate` does. It reports each row that it reads to `watch`.
    pub fn migrate_watched<W: Watch>(
        alloc: Global,
        conn: Connection<S>,
        watch: &mut W,
    ) -> Result<Connection<S>, Returned<S, MigrateFault>>
        ensures migrated { (court : CourtSettings) (h : History) → IsDocket court h → MayHold First h
            → HoldsRowsIn S.Store First conn (rows_by First court (rows_of court h))
            → MatchResult result (λ now. StandsFor S.Store now court h)
            (λ returned. Migrates S.Store conn returned.connection court h (Err (cause_of returned.fault))) }
        ensures told { MatchResult result (λ now. Tells S.Store conn now (Ok tt))
            (λ returned. Tells S.Store conn returned.connection (Err (cause_of returned.fault))) }
        ensures empty { has_named conn.schema table.Court ≡ false
            → IsErrAnd result (λ returned. (cause_of returned.fault ≡ Empty) × (returned.connection ≡ conn)) }
        ensures clean { MatchResult result
            (λ now. doubt (state S.Store conn).is_clean ≤ doubt (state S.Store now).is_clean)
            (λ returned. doubt (state S.Store conn).is_clean ≤ doubt (state S.Store returned.connection).is_clean) }
    {
        let mut connection = conn;
        match migrate(&mut connection, alloc, watch) {
            Ok(()) => Ok(connection),
            Err(fault) => Err(Returned {
                fault: MigrateFault::from(fault),
                failure: None,
                connection,
            }),
        }
    }

    /// Applies a command in one transaction. An accepted command stands from then on, past a power failure
    /// too. A repeat returns the reply that it had. A repeat, a refusal and out of memory change nothing. If
    /// the database fails the docket is closed, and a power failure leaves it without the command or with it.
    pub fn apply(&mut self, command: &Command) -> Result<Reply, Fault>
        ensures court { self.new.court ≡ self.old.court }
        ensures answer { (h : History) → Stands S.Store self.old h → Applies S.Store self.new h command.now result }
        // A closed docket returns `Closed`, and stays as it is.
        ensures closed { self.old.closed ≡ true → (result ≡ Err fault.Closed) × (self.new ≡ self.old) }
        // For any docket, the command is written whole, with its receipt, or not at all.
        ensures any { (rows : Rows) (n : ℕ) (stored : List StoredEnd) → AreDocketRows self.old.court n stored rows → n < 2 ^ 62 → HoldsRows S.Store self.old.conn rows
            → WritesWhole S.Store self.new.conn self.new.court n rows command.now result }
        ensures clean { doubt (state S.Store self.old.conn).is_clean ≤ doubt (state S.Store self.new.conn).is_clean }
        ensures closes { self.old.closed ≡ false → (self.new.closed ≡ true) ↔ (result ≡ Err fault.StoreFailed) }
        ensures later { (h : History) → Stands S.Store self.old h → HasCleanDisk (state S.Store self.new.conn) → IsLater (state S.Store self.old.conn) (state S.Store self.new.conn) }
        // The database fails only for a cause, which is that of a question where nothing is written.
        ensures cause { (h : History) → Stands S.Store self.old h → HasCleanDisk (state S.Store self.new.conn)
            → result ≡ Err fault.StoreFailed → IsClosedByWrite S.Store command.now self.old self.new }
        ensures spared { (h : History) → Stands S.Store self.old h → IsNotAccepted self.old.court h command.now → HasCleanDisk (state S.Store self.new.conn)
            → result ≡ Err fault.StoreFailed → IsClosedForCause S.Store self.old self.new }
    {
        if self.closed_by.is_some() {
            return Err(Fault::Closed);
        }
        let conn = &mut self.conn;
        let kept = &mut self.calendar;
        let mut failure = None;
        let answer = apply_to(conn, self.alloc, &self.court, kept, command, &mut failure);
        self.closed_by = closing_error(&answer, failure);
        answer
    }

    /// The court whose docket it is.
    pub fn court(&self) -> &Court
        ensures { result.now ≡ self.now.court }
    {
        &self.court
    }

    /// Whether the database failed. Each call but `court`, `is_closed`, `closed_by` and `close` then returns
    /// `Closed`.
    pub fn is_closed(&self) -> bool
        ensures { result ≡ self.now.closed }
    {
        self.closed_by.is_some()
    }

    /// The error of the database for which the docket is closed.
    pub fn closed_by(&self) -> Option<Error>
        ensures error { result ≡ self.now.closed_by }
        ensures none { self.now.closed ≡ false → result ≡ None }
    {
        self.closed_by
    }

    /// The connection, with whatever it holds.
    pub fn close(self) -> Connection<S>
        ensures conn { result ≡ self.conn }
        ensures idle { result.in_transaction ≡ false }
    {
        let Docket {
            alloc: _,
            conn,
            court: _,
            closed_by: _,
            calendar: _,
        } = self;
        conn
    }
}
