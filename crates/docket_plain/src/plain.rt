//! The docket in vectors.
ghost use Rattle.std.specs.Prelude.{◌≡◌, [], Err, OnOk, IfOk};
ghost use Rattle.docket_decisions.specs.Outcomes.{outcome, run, answers};
ghost use Rattle.std.specs.Option.{option_map};
ghost use Rattle.docket_history.specs.Records.{case_record, deadline_lines};
ghost use Rattle.docket_decisions.specs.declared.decision.DecideFault.TheVariants as Fault;
ghost use Rattle.docket_plain.specs.Dockets.{history_of, IsDocket, IsReply, AreReplies, history_after, docket_after};

use crate::reading::{case_record, lines_of_case};
use crate::vectors::{Vectors, enter};
use crate::viewing::view_of;
use court_days::Court;
use docket_command::{Command, Reply};
use docket_decisions::{DecideFault, Decision, decide};
use docket_history::{CaseRecord, DeadlineLine};
use std::alloc::{AllocError, Global};
use std::marker::Model;

/// Answers a command.
fn apply_to(
    alloc: Global,
    court: &Court,
    tables: &mut Vectors,
    command: &Command,
) -> Result<Reply, DecideFault>
    requires { IsDocket court.now tables.old }
    ensures docket { IsDocket court.now tables.new }
    ensures answer { IsReply result (outcome court.now (history_of tables.old.receipts.items) command.now) }
    ensures history { history_of tables.new.receipts.items
        ≡ history_after result court.now (history_of tables.old.receipts.items) command.now }
{
    let view = view_of(alloc, tables, command)?;
    match decide(alloc, &view, court, command)? {
        Decision::Repeat(reply) => Ok(reply),
        Decision::Change(changes) => Ok(enter(tables, command, changes)?),
    }
}

/// A docket in vectors. A contract sees its court and its history of commands.
#[derive(Drop)]
pub struct Plain {
    alloc: Global,
    court: Court,
    tables: Vectors,
}

impl Model for Plain {
    ghost use Rattle.docket_plain.specs.Dockets.{Docket, history_of, IsDocket};

    ghost Value = { Docket };

    ghost view = { λ p. record { court = p.court; history = history_of p.tables.receipts.items } };

    ghost invariant = { λ p. IsDocket p.court p.tables };
}

impl Plain {
    /// A docket of the court, without any record.
    pub fn new(alloc: Global, court: Court) -> Plain
        ensures { result ≡ record { court = court; history = [] } }
    {
        Plain {
            alloc,
            court,
            tables: Vectors::new(alloc),
        }
    }

    /// Answers a command. An accepted command is part of the history from then on; a repeat, a refusal
    /// and running out of memory change nothing.
    pub fn apply(&mut self, command: &Command) -> Result<Reply, DecideFault>
        ensures answer { IsReply result (outcome self.old.court self.old.history command.now) }
        ensures docket { self.new ≡ docket_after result self.old command.now }
    {
        apply_to(self.alloc, &self.court, &mut self.tables, command)
    }

    /// The case of a number, with its parties and its entries.
    pub fn case(&self, number: u32) -> Result<Option<CaseRecord>, AllocError>
        ensures { IfOk result (λ found. found ≡ case_record self.now.history number) }
    {
        case_record(self.alloc, &self.tables, number)
    }

    /// The deadlines of the case of a number, and where each stands by the calendar of the docket.
    pub fn deadlines(&self, number: u32) -> Result<Option<Vec<DeadlineLine>>, AllocError>
        ensures { IfOk result (λ found. option_map (λ lines. lines.items) found
            ≡ deadline_lines self.now.court self.now.history number) }
    {
        lines_of_case(self.alloc, &self.court, &self.tables, number)
    }
}

/// The reply or the refusal. It fails where memory ran out.
fn said(reply: Result<Reply, DecideFault>) -> Result<Result<Reply, DecideFault>, AllocError>
    ensures { IfOk result (λ said. (said ≡ reply) × ¬ (reply ≡ Err Fault.NoMemory)) }
{
    match reply {
        Ok(reply) => Ok(Ok(reply)),
        Err(DecideFault::Refused(refusal)) => Ok(Err(DecideFault::Refused(refusal))),
        Err(DecideFault::NoMemory) => Err(AllocError),
    }
}

/// The replies to commands in order, each judged in the history before it; a refused command does not
/// stop the others.
pub fn apply_all(
    alloc: Global,
    docket: &mut Plain,
    commands: &[Command],
) -> Result<Vec<Result<Reply, DecideFault>>, AllocError>
    ensures history { OnOk result (docket.new ≡ record { court = docket.old.court; history = run docket.old.court docket.old.history commands.now }) }
    ensures replies { IfOk result (λ replies. AreReplies replies.items (answers docket.old.court docket.old.history commands.now)) }
{
    let mut replies = Vec::new(alloc);
    for command in commands {
        let reply = said(docket.apply(command))?;
        replies.push(reply)?;
    }
    Ok(replies)
}
