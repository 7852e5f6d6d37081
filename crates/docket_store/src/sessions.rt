//! A session: the docket of a database is adopted, commands are applied, and the connection goes back.
ghost use Rattle.std.specs.Prelude.{◌≡◌, ◌≤◌, [], length, false, None, IfErr, IfOk, IsErrAnd, MatchResult, vec_capacity, vec_len};
ghost use Rattle.line_io.specs.Steps.{Reaches};
ghost use Rattle.sqlite.specs.Held.{state};
ghost use Rattle.sqlite.specs.State.{HasCleanDisk};
ghost use Rattle.sqlite.specs.View.{doubt};
ghost use Rattle.court_days.specs.Court.{CourtSettings};
ghost use Rattle.docket_history.specs.Histories.{History};
ghost use Rattle.docket_scan.specs.Shapes.{has_named};
ghost use Rattle.docket_scan.specs.declared.fault.AdoptFault.TheVariants.{Empty};
ghost use Rattle.docket_tables.specs.declared.table.Table.TheVariants as table;
ghost use Rattle.docket_tables.specs.Layouts.{Rows};
ghost use Rattle.docket_tables.specs.Stands.{HoldsRows};
ghost use Rattle.docket_applying.specs.AnyRows.{WritesAtMostOne};
ghost use Rattle.docket_store.specs.Opening.{PreservesRejected};
ghost use Rattle.docket_applying.specs.Applying.{IsDocket, StandsFor, Stands, docket_rows};
ghost use Rattle.docket_store.specs.Causes.{IsCausedOpening, StopsForCause, IsUnfailed};
ghost use Rattle.docket_applying.specs.Dockets.{Docket as Kept};
ghost use Rattle.docket_store.specs.Opening.{IsNotAdopted, IsRejected, TakeCommands, WasSound};
ghost use Rattle.docket_store.specs.Sessions.{EndsSession};

use crate::docket::Docket;
use crate::returned::Returned;
use crate::sequence::answer;
use docket_applying::Fault;
use docket_command::{Command, Refusal, Reply};
use docket_scan::AdoptFault;
use sqlite::{Alter, Connection, Error};
use std::alloc::Global;

/// How a session ended: the answers to its first commands in order. If a command got none, its place and why.
/// The connection is returned.
#[derive(Drop)]
pub struct SessionEnd<S: Alter> {
    pub replies: Vec<Result<Reply, Refusal>>,
    pub stopped_at: Option<(usize, Fault)>,
    /// The error of the database, if it failed.
    pub failure: Option<Error>,
    pub connection: Connection<S>,
}

/// Answers commands in order, up to the first that gets no answer. Returns its place and why.
fn answer_until<S: Alter>(
    docket: &mut Docket<S>,
    commands: &[Command],
    replies: &mut Vec<Result<Reply, Refusal>>,
) -> Option<(usize, Fault)>
    requires fresh { replies.old.items ≡ [] }
    requires none { vec_len replies.old ≡ 0 }
    requires room { length commands.now ≤ vec_capacity replies.old }
    ensures clean { doubt (state S.Store docket.old.conn).is_clean ≤ doubt (state S.Store docket.new.conn).is_clean }
    ensures court { docket.new.court ≡ docket.old.court }
    ensures steps { Reaches (WritesAtMostOne S.Store) docket.old docket.new }
    ensures ends { (h : History) → Stands S.Store docket.old h
        → EndsSession S.Store docket.new.conn docket.new.court h commands.now replies.new.items result }
    ensures stays_open { docket.old.closed ≡ false → IsUnfailed result → docket.new.closed ≡ false }
    ensures cause { (h : History) → Stands S.Store docket.old h → HasCleanDisk (state S.Store docket.new.conn)
        → StopsForCause commands.now (state S.Store docket.old.conn) (state S.Store docket.new.conn) docket.new.closed_by result }
{
    'commands: for command in commands {
        match answer(docket, command) {
            Ok(reply) => replies.push_reserved(reply),
            Err(fault) => return Some((replies.len(), fault)),
        }
    }
    None
}

/// Adopts the docket that a database holds, whatever database it is, and applies commands in order, each
/// in a transaction of its own. A refusal is an answer; the first other fault stops the session, and then
/// the commands before it stand. The memory for the answers is taken before the first command.
pub fn session<S: Alter>(
    alloc: Global,
    connection: Connection<S>,
    commands: &[Command],
) -> Result<SessionEnd<S>, Returned<S, AdoptFault>>
    ensures ends { (court : CourtSettings) (h : History) → IsDocket court h → StandsFor S.Store connection court h
        → MatchResult result (λ end. EndsSession S.Store end.connection court h commands.now end.replies.items end.stopped_at)
        (λ returned. IsNotAdopted S.Store returned.connection (docket_rows court h) returned.fault) }
    // Without a court there is no docket, and the connection comes back as it was.
    ensures empty { has_named connection.schema table.Court ≡ false
        → IsErrAnd result (λ returned. (returned.fault ≡ Empty) × (returned.connection ≡ connection)) }
    // For any docket, each command wrote nothing, or was written whole, with its receipt.
    ensures steps { IfOk result (λ end. (adopted last : Kept S)
        × ((rows : Rows) → HoldsRows S.Store connection rows
        → HoldsRows S.Store adopted.conn rows × (HasCleanDisk (state S.Store adopted.conn) → TakeCommands adopted.court rows))
        × Reaches (WritesAtMostOne S.Store) adopted last × (last.conn ≡ end.connection)) }
    ensures stays { (rows : Rows) → HoldsRows S.Store connection rows
        → IfErr result (λ returned. PreservesRejected S.Store returned.connection rows returned.fault) }
    // For any database, its tables were sound, or a fault names why it is not a docket.
    ensures told { MatchResult result (λ end. WasSound S.Store connection end.connection)
        (λ returned. IsRejected S.Store connection returned.connection returned.fault) }
    // The database failed only for a cause.
    ensures cause { IfErr result (λ returned. HasCleanDisk (state S.Store returned.connection)
        → IsCausedOpening (state S.Store connection) (state S.Store returned.connection) returned.failure returned.fault) }
    // The same holds where a command of a docket got no answer: the returned error has a cause since the session began.
    ensures stops { (court : CourtSettings) (h : History) → IsDocket court h → StandsFor S.Store connection court h
        → IfOk result (λ end. HasCleanDisk (state S.Store end.connection)
        → StopsForCause commands.now (state S.Store connection) (state S.Store end.connection) end.failure end.stopped_at) }
    // If it did not fail, no error is returned.
    ensures unfailed { IfOk result (λ end. IsUnfailed end.stopped_at → end.failure ≡ None) }
    ensures clean { MatchResult result
        (λ end. doubt (state S.Store connection).is_clean ≤ doubt (state S.Store end.connection).is_clean)
        (λ returned. doubt (state S.Store connection).is_clean ≤ doubt (state S.Store returned.connection).is_clean) }
{
    let mut docket = Docket::adopt(alloc, connection)?;
    match Vec::with_capacity(alloc, commands.len()) {
        Ok(mut replies) => {
            let stopped_at = answer_until(&mut docket, commands, &mut replies);
            Ok(SessionEnd {
                replies,
                stopped_at,
                failure: docket.closed_by(),
                connection: docket.close(),
            })
        }
        Err(_) => Err(Returned {
            fault: AdoptFault::NoMemory,
            failure: None,
            connection: docket.close(),
        }),
    }
}
