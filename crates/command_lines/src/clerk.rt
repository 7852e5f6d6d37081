//! Who answers commands.
ghost use Rattle.std.specs.Prelude.{◌≡◌, ◌++◌, ◌∷◌, [], IfOk, IfErr, OnErr, OnOk, string_bytes, true};
ghost use Rattle.sqlite.specs.Held.{state};
ghost use Rattle.sqlite.specs.State.{HasCleanDisk};
ghost use Rattle.docket_decisions.specs.Outcomes.{outcome};
ghost use Rattle.docket_wire.specs.Texts.{fault_text};
ghost use Rattle.docket_applying.specs.AnyRows.{WritesAtMostOne};
ghost use Rattle.docket_applying.specs.CourtDockets.{StandsAs};
ghost use Rattle.command_lines.specs.Ending.{FailsAt};
ghost use Rattle.docket_applying.specs.CourtDockets.{CourtDocket as Told};
ghost use Rattle.command_lines.specs.Lines.{IsSaid, docket_with};

use docket_command::{Command, Refusal, Reply};
use docket_store::{Docket, Fault};
use docket_wire::{WireFault, read_command, reply_text, wire_fault_text};
use line_io::Answerer;
use sqlite::Alter;
use std::alloc::{AllocError, Global};
use std::marker::Model;

/// Keeps a docket in a database and answers the commands for it. A contract sees the docket.
pub struct Clerk<S: Alter> {
    alloc: Global,
    docket: Docket<S>,
}

impl<S: Alter> Model for Clerk<S> {
    ghost use Rattle.docket_applying.specs.Dockets.{Docket, docket_code};

    ghost Value = { Docket S };

    ghost coded = { docket_code S.code };

    ghost view = { λ clerk. clerk.docket };
}

impl<S: Alter + Drop> Drop for Clerk<S> {
    fn drop(self) {
        let _ = self.into_docket().close();
    }
}

/// Appends the text and a line feed.
fn push_line(out: &mut Vec<u8>, mut text: String) -> Result<(), AllocError>
    ensures ok { OnOk result (out.new.items ≡ out.old.items ++ (string_bytes text ++ 10 ∷ [])) }
    ensures err { OnErr result (out.new.items ≡ out.old.items) }
{
    text.push('\n')?;
    out.extend_from_slice(text.as_bytes())
}

/// Appends the text of a fault, which counts as bad.
fn push_fault(alloc: Global, out: &mut Vec<u8>, fault: WireFault) -> Result<bool, AllocError>
    ensures ok { IfOk result (λ bad. (out.new.items ≡ out.old.items ++ (fault_text fault ++ 10 ∷ [])) × (bad ≡ true)) }
    ensures err { OnErr result (out.new.items ≡ out.old.items) }
{
    let text = wire_fault_text(alloc, &fault)?;
    push_line(out, text)?;
    Ok(true)
}

impl<S: Alter> Clerk<S> {
    /// A clerk who keeps the docket.
    pub fn new(alloc: Global, docket: Docket<S>) -> Clerk<S>
        ensures { result ≡ docket }
    {
        Clerk { alloc, docket }
    }

    /// Whether the docket is closed since its database failed.
    pub fn is_closed(&self) -> bool
        ensures { result ≡ self.now.closed }
    {
        self.docket.is_closed()
    }

    /// The docket as the commands left it.
    pub fn into_docket(self) -> Docket<S>
        ensures { result ≡ self }
    {
        let Clerk { alloc: _, docket } = self;
        docket
    }

    /// The reply to a command, or its refusal.
    fn apply(&mut self, command: &Command) -> Result<Result<Reply, Refusal>, Fault>
        ensures trust { HasCleanDisk (state S.Store self.new.conn) → HasCleanDisk (state S.Store self.old.conn) }
        ensures steps { WritesAtMostOne S.Store self.old self.new }
        ensures said { IfOk result (λ said. (docket : Told) → StandsAs S.Store self.old docket
            → HasCleanDisk (state S.Store self.new.conn)
            → IsSaid said (outcome docket.court docket.history command.now)
            × StandsAs S.Store self.new (docket_with docket command.now)) }
        ensures fails { IfErr result (λ fault. (docket : Told) → StandsAs S.Store self.old docket
            → HasCleanDisk (state S.Store self.new.conn)
            → FailsAt S.Store self.new fault docket (docket_with docket command.now)) }
    {
        match self.docket.apply(command) {
            Ok(reply) => Ok(Ok(reply)),
            Err(Fault::Refused(refusal)) => Ok(Err(refusal)),
            Err(Fault::NoMemory) => Err(Fault::NoMemory),
            Err(Fault::StoreFailed) => Err(Fault::StoreFailed),
            Err(Fault::Closed) => Err(Fault::Closed),
            Err(Fault::Damaged) => Err(Fault::Damaged),
        }
    }
}

impl<S: Alter> Answerer for Clerk<S> {
    ghost use Rattle.sqlite.specs.Held.{state};
    ghost use Rattle.sqlite.specs.State.{HasCleanDisk};
    ghost use Rattle.docket_applying.specs.AnyRows.{WritesAtMostOne};
    ghost use Rattle.docket_applying.specs.CourtDockets.{StandsAs};
    ghost use Rattle.command_lines.specs.Ending.{FailsAt};
    ghost use Rattle.docket_applying.specs.CourtDockets.{CourtDocket as Docket};
    ghost use Rattle.command_lines.specs.Lines.{line_answer, long_line_answer};

    type Fault = Fault;

    const LIMIT: u32 = 1_048_576;

    // Each answer is written before the next command is applied.
    const MAX_PENDING: u32 = 0;

    ghost LIMIT = { 1_048_576 };

    ghost MAX_PENDING = { 0 };

    ghost State = { Docket };

    ghost Shows = { λ clerk docket. StandsAs S.Store clerk docket };

    ghost Trusts = { λ clerk. HasCleanDisk (state S.Store clerk.conn) };

    ghost Fails = { λ clerk fault before next. FailsAt S.Store clerk fault before next };

    ghost Steps = { λ before next. WritesAtMostOne S.Store before next };

    ghost answer_to = { line_answer };

    ghost too_long = { long_line_answer };

    fn answer(&mut self, line: &[u8], out: &mut Vec<u8>) -> Result<bool, Fault> {
        match read_command(self.alloc, line) {
            Ok(command) => {
                let answer = self.apply(&command)?;
                let text = reply_text(self.alloc, &answer)?;
                push_line(out, text)?;
                Ok(answer.is_err())
            }
            Err(WireFault::NoMemory) => Err(Fault::NoMemory),
            Err(fault) => Ok(push_fault(self.alloc, out, fault)?),
        }
    }

    fn answer_long(&mut self, out: &mut Vec<u8>) -> Result<bool, Fault> {
        Ok(push_fault(self.alloc, out, WireFault::NotJson)?)
    }
}
