//! Commands in order, each in a transaction of its own.
ghost use Rattle.std.specs.Prelude.{◌≡◌, ◌≢◌, ◌≤◌, ◌<◌, ◌^◌, ℕ, List, IfOk, IfErr, Err, true, false};
ghost use Rattle.sqlite.specs.Held.{state};
ghost use Rattle.sqlite.specs.State.{HasCleanDisk};
ghost use Rattle.sqlite.specs.View.{doubt};
ghost use Rattle.docket_history.specs.Histories.{History};
ghost use Rattle.docket_decisions.specs.declared.end_row.StoredEnd.{StoredEnd};
ghost use Rattle.docket_tables.specs.AnyRows.{AreDocketRows};
ghost use Rattle.docket_tables.specs.Causes.{IsLater};
ghost use Rattle.docket_tables.specs.Layouts.{Rows};
ghost use Rattle.docket_tables.specs.Stands.{HoldsRows};
ghost use Rattle.docket_applying.specs.AnyRows.{AnswersWhole};
ghost use Rattle.docket_applying.specs.Applying.{Stands};
ghost use Rattle.docket_applying.specs.Causes.{IsClosedByWrite};
ghost use Rattle.docket_store.specs.Sequence.{Answers, AnswersAll, Halts, BreaksOff};
ghost use Rattle.docket_applying.specs.declared.fault.Fault.TheVariants as fault;

use crate::docket::Docket;
use docket_applying::Fault;
use docket_command::{Command, Refusal, Reply};
use sqlite::Alter;
use std::alloc::Global;

/// Returns the reply to a command, or its refusal: a refusal is an answer, and not a fault of the docket.
pub fn answer<S: Alter>(
    docket: &mut Docket<S>,
    command: &Command,
) -> Result<Result<Reply, Refusal>, Fault>
    ensures court { docket.new.court ≡ docket.old.court }
    ensures closed { docket.old.closed ≡ true → (result ≡ Err fault.Closed) × (docket.new ≡ docket.old) }
    ensures clean { doubt (state S.Store docket.old.conn).is_clean ≤ doubt (state S.Store docket.new.conn).is_clean }
    ensures any { (rows : Rows) (n : ℕ) (stored : List StoredEnd) → AreDocketRows docket.old.court n stored rows → n < 2 ^ 62 → HoldsRows S.Store docket.old.conn rows
        → AnswersWhole S.Store docket.new.conn docket.new.court n rows command.now result }
    ensures answer { (h : History) → Stands S.Store docket.old h → IfOk result (Answers S.Store docket.new h command.now) }
    ensures halts { (h : History) → Stands S.Store docket.old h → IfErr result (Halts S.Store docket.new h command.now) }
    ensures closes { result ≡ Err fault.StoreFailed → docket.new.closed ≡ true }
    ensures stays_open { docket.old.closed ≡ false → result ≢ Err fault.StoreFailed → docket.new.closed ≡ false }
    ensures later { (h : History) → Stands S.Store docket.old h → HasCleanDisk (state S.Store docket.new.conn) → IsLater (state S.Store docket.old.conn) (state S.Store docket.new.conn) }
    ensures cause { (h : History) → Stands S.Store docket.old h → HasCleanDisk (state S.Store docket.new.conn)
        → result ≡ Err fault.StoreFailed → IsClosedByWrite S.Store command.now docket.old docket.new }
{
    match docket.apply(command) {
        Ok(reply) => Ok(Ok(reply)),
        Err(Fault::Refused(refusal)) => Ok(Err(refusal)),
        Err(fault) => Err(fault),
    }
}

/// Returns the replies to commands in order, each judged in the docket that those before it left. A refused
/// command does not stop the others; another fault does, and then the commands before it stand.
pub fn apply_all<S: Alter>(
    alloc: Global,
    docket: &mut Docket<S>,
    commands: &[Command],
) -> Result<Vec<Result<Reply, Refusal>>, Fault>
    ensures court { docket.new.court ≡ docket.old.court }
    ensures clean { doubt (state S.Store docket.old.conn).is_clean ≤ doubt (state S.Store docket.new.conn).is_clean }
    ensures answers { (h : History) → Stands S.Store docket.old h
        → IfOk result (λ replies. AnswersAll S.Store docket.new h commands.now replies.items) }
    ensures halts { (h : History) → Stands S.Store docket.old h → IfErr result (BreaksOff S.Store docket.new h commands.now) }
{
    let mut replies = Vec::new(alloc);
    'commands: for command in commands {
        let reply = answer(docket, command)?;
        replies.push(reply)?;
    }
    Ok(replies)
}
