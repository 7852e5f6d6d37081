//! The engine of `run`: commands in, one answer each out.
ghost use Rattle.std.specs.Prelude.{◌≡◌, true, Err, IfOk, IfErr, OnErr, IfSome};
ghost use Rattle.sqlite.specs.Held.{state};
ghost use Rattle.sqlite.specs.State.{HasCleanDisk};
ghost use Rattle.line_io.specs.Lines.{lines_of};
ghost use Rattle.line_io.specs.Output.{HasFront};
ghost use Rattle.line_io.specs.Ending.{BreaksOff};
ghost use Rattle.line_io.specs.Report.{TellsAll};
ghost use Rattle.line_io.specs.Steps.{Reaches};
ghost use Rattle.docket_applying.specs.AnyRows.{WritesAtMostOne};
ghost use Rattle.docket_applying.specs.declared.fault.Fault.TheVariants as fault;
ghost use Rattle.docket_applying.specs.CourtDockets.{StandsAs};
ghost use Rattle.command_lines.specs.Ending.{Leaves};
ghost use Rattle.command_lines.specs.declared.fault.RunFault.TheVariants as run;
ghost use Rattle.docket_applying.specs.CourtDockets.{CourtDocket as Docket};
ghost use Rattle.command_lines.specs.Lines.{run_text, answer_to_line};

use crate::clerk::Clerk;
use crate::fault::RunFault;
use docket_store::Fault;
use line_io::{CountEnd, run_lines};
use sqlite::Alter;
use std::alloc::Global;
use std::io::{Read, Write};

/// Answers each line of the reader: a command of the docket with its reply or its refusal, and any other line
/// with its fault. Counts the lines, and the refusals and faults among the answers. Writes each answer before
/// it applies the next command. On a fault a front of the answers was written, and no further line was
/// answered. Where the docket is closed at the start, fails with `Store(Closed)` and reads nothing.
///
/// All this holds where the disk gives back what it took when the run ends; then it did from the start.
pub fn command_run<R: Read, W: Write, S: Alter>(
    alloc: Global,
    reader: &mut R,
    writer: &mut W,
    clerk: &mut Clerk<S>,
) -> Result<CountEnd, RunFault>
    ensures whole { IfOk result (λ end. (docket : Docket) → StandsAs S.Store clerk.old docket
        → HasCleanDisk (state S.Store clerk.new.conn) → IfSome (R.remaining reader.old) (λ input.
        TellsAll answer_to_line (StandsAs S.Store clerk.new) docket (lines_of input) (W.contents writer.old) (W.contents writer.new) end)) }
    ensures trust { HasCleanDisk (state S.Store clerk.new.conn) → HasCleanDisk (state S.Store clerk.old.conn) }
    ensures front { OnErr result ((docket : Docket) → StandsAs S.Store clerk.old docket
        → HasCleanDisk (state S.Store clerk.new.conn) → IfSome (R.remaining reader.old) (λ input.
        HasFront (W.contents writer.old) (W.contents writer.new) (run_text docket input))) }
    // The docket is that of the lines answered, and of at most one line more.
    ensures left { IfErr result (λ fault. (docket : Docket) → StandsAs S.Store clerk.old docket
        → HasCleanDisk (state S.Store clerk.new.conn) → IfSome (R.remaining reader.old) (λ input.
        BreaksOff answer_to_line (Leaves S.Store clerk.new fault) 0 docket (lines_of input)
        (W.contents writer.old) (W.contents writer.new))) }
    // Whatever docket it was: each line wrote nothing, or one command whole, with its receipt.
    ensures steps { Reaches (WritesAtMostOne S.Store) clerk.old clerk.new }
    // A closed docket answers nothing: no line is read, and nothing is written.
    ensures closed { clerk.old.closed ≡ true
        → (result ≡ Err (run.Store fault.Closed)) × (clerk.new ≡ clerk.old) × (reader.new ≡ reader.old) × (writer.new ≡ writer.old) }
{
    if clerk.is_closed() {
        return Err(RunFault::Store(Fault::Closed));
    }
    match run_lines(alloc, reader, writer, clerk) {
        Ok(end) => Ok(end),
        Err(fault) => Err(RunFault::from(fault)),
    }
}
