//! What a job prints on its writers.
ghost use Rattle.std.specs.Prelude.{◌≡◌, IfOk, IfSome, string_bytes};
ghost use Rattle.line_io.specs.Output.{AppendsFront};
ghost use Rattle.job_ends.specs.Ends.{SaysFault, Writes, error_line, no_memory_error, no_memory_line};

use crate::status::Status;
use line_io::write_bytes;
use std::alloc::{AllocError, Global};
use std::fmt;
use std::io::{ErrorKind, Write};

/// Writes the text, and prints a fault where that fails.
pub fn write_text<W: Write, E: Write>(
    alloc: Global,
    text: &str,
    done: Status,
    w: &mut W,
    e: &mut E,
) -> Status
    ensures { Writes text.now done (W.contents w.old) (W.contents w.new) result }
{
    match write_bytes(w, text.as_bytes()) {
        Ok(()) => done,
        Err(_) => failed(alloc, e, &"the output could not be written"),
    }
}

/// Returns the line that reports a fault.
fn line_of<F: fmt::Display>(alloc: Global, fault: &F) -> Result<String, AllocError>
    ensures { IfOk result (λ line. IfSome (error_line (F.output fault.now)) (λ bytes. string_bytes line ≡ bytes)) }
{
    format!(in alloc; "docketctl: {fault}\n")
}

/// Prints in one line why the program failed. Where that can't be printed, only the status shows it.
pub fn failed<E: Write, F: fmt::Display>(alloc: Global, e: &mut E, fault: &F) -> Status
    ensures status { result ≡ Status.Failed }
    ensures told { SaysFault (F.output fault.now) (E.contents e.old) (E.contents e.new) }
{
    let Ok(line) = line_of(alloc, fault) else {
        return no_memory(e);
    };
    let _ = write_bytes(e, line.as_bytes());
    Status::Failed
}

/// Prints in one line that there is not enough memory. It needs none itself.
pub fn no_memory<E: Write>(e: &mut E) -> Status
    ensures status { result ≡ Status.Failed }
    ensures told { AppendsFront (E.contents e.old) (E.contents e.new) no_memory_error }
{
    let _ = write_bytes(e, b"docketctl: there is not enough memory\n");
    Status::Failed
}

/// Prints in one line that this could not be done, or that memory ran out.
pub fn failed_by<E: Write>(alloc: Global, e: &mut E, kind: ErrorKind, what: &str) -> Status
    ensures { result ≡ Status.Failed }
{
    match kind {
        ErrorKind::OutOfMemory => no_memory(e),
        _ => failed(alloc, e, &what),
    }
}

/// Writes to the output, in place of an answer, that there is not enough memory.
pub fn out_of_memory<W: Write>(w: &mut W) -> Status
    ensures status { result ≡ Status.Failed }
    ensures told { AppendsFront (W.contents w.old) (W.contents w.new) no_memory_line }
{
    let _ = write_bytes(w, b"{\"error\":\"no-memory\"}\n");
    Status::Failed
}
