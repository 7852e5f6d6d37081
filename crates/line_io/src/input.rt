//! The input, read piece after piece.
ghost use Rattle.std.specs.Prelude.{◌≡◌, ◌+◌, ◌<◌, ◌≤◌, ◌^◌, [], length, IfOk, IfErr, OnOk, OnErr, IfSome, vec_len};
ghost use Rattle.line_io.specs.Ending.{BreaksOff, Leaves};
ghost use Rattle.line_io.specs.Lines.{lines_of};
ghost use Rattle.line_io.specs.Report.{TellsAll, within, text_of};
ghost use Rattle.line_io.specs.Output.{HasFront};
ghost use Rattle.line_io.specs.Steps.{Reaches};
ghost use Rattle.line_io.specs.Progress.{FromKept, StopsIn, StopsOn, TakesPiece, TellsOf};

use crate::answerer::Answerer;
use crate::ending::{CountEnd, LineFault};
use crate::lines::{Progress, finish, keep, take_line};
use crate::output::{WriteFailed, send};
use memchr::memchr;
use std::alloc::Global;
use std::io::{Read, Write};

/// The most bytes of a read.
const PIECE: usize = 16_384;

/// Answers the lines that end in this piece of the input, and keeps what follows them.
fn take_piece<W: Write, A: Answerer>(
    answerer: &mut A,
    progress: &mut Progress,
    piece: &[u8],
    writer: &mut W,
) -> Result<(), LineFault<A::Fault>>
    requires kept { vec_len progress.old.kept ≤ A.LIMIT + 2 }
    requires pending { length progress.old.pending.items ≤ A.MAX_PENDING }
    requires counts { progress.old.counts.bad ≤ progress.old.counts.lines
        × progress.old.counts.lines + length piece.now < 2 ^ 64 }
    ensures takes { OnOk result (
        FromKept (A.Trusts answerer.new) (A.Shows answerer.old) A.LIMIT progress.old (λ s part.
        TakesPiece A.LIMIT A.answer_to A.too_long (A.Shows answerer.new) s part piece.now progress.old progress.new
        (W.contents writer.old) (W.contents writer.new))) }
    ensures trust { A.Trusts answerer.new → A.Trusts answerer.old }
    ensures steps { Reaches A.Steps answerer.old answerer.new }
    ensures kept { OnOk result (vec_len progress.new.kept ≤ A.LIMIT + 2) }
    ensures counts { OnOk result ((progress.new.counts.bad ≤ progress.new.counts.lines)
        × (progress.new.counts.lines ≤ progress.old.counts.lines + length piece.now)) }
    ensures pending { OnOk result (length progress.new.pending.items ≤ A.MAX_PENDING) }
    ensures stops { IfErr result (λ why.
        FromKept (A.Trusts answerer.new) (A.Shows answerer.old) A.LIMIT progress.old (λ s part.
        StopsIn A.LIMIT A.answer_to A.too_long (Leaves (A.Shows answerer.new) (A.Fails answerer.new) why) A.MAX_PENDING s part
        piece.now progress.old progress.new (W.contents writer.old) (W.contents writer.new))) }
{
    let mut rest = piece;
    'lines: while let Some(at) = memchr(b'\n', rest) {
        take_line(answerer, progress, &rest[..at], writer)?;
        rest = &rest[at + 1..];
    }
    match keep(&mut progress.kept, A::LIMIT as usize + 2, rest) {
        Ok(()) => Ok(()),
        Err(_) => Err(LineFault::NoMemory),
    }
}

/// Answers the lines. What is pending at the end, or at a fault, is still to be written.
fn answer_lines<R: Read, W: Write, A: Answerer>(
    reader: &mut R,
    writer: &mut W,
    answerer: &mut A,
    progress: &mut Progress,
) -> Result<(), LineFault<A::Fault>>
    requires kept { progress.old.kept.items ≡ [] }
    requires len { vec_len progress.old.kept ≡ 0 }
    requires pending { progress.old.pending.items ≡ [] }
    requires counts { progress.old.counts.bad ≡ 0 × progress.old.counts.lines ≡ 0 }
    ensures whole { OnOk result ((s : A.State) → A.Shows answerer.old s → A.Trusts answerer.new
        → IfSome (R.remaining reader.old) (λ input.
        TellsOf A.LIMIT A.answer_to A.too_long (A.Shows answerer.new) s input progress.new
        (W.contents writer.old) (W.contents writer.new))) }
    ensures trust { A.Trusts answerer.new → A.Trusts answerer.old }
    ensures steps { Reaches A.Steps answerer.old answerer.new }
    ensures stops { IfErr result (λ why. (s : A.State) → A.Shows answerer.old s → A.Trusts answerer.new
        → IfSome (R.remaining reader.old) (λ input.
        StopsOn A.LIMIT A.answer_to A.too_long (Leaves (A.Shows answerer.new) (A.Fails answerer.new) why) A.MAX_PENDING s input
        progress.new (W.contents writer.old) (W.contents writer.new))) }
{
    let mut piece = [0u8; PIECE];
    'reads: for _ in 0..u32::MAX {
        let Ok(count) = reader.read(&mut piece) else {
            return Err(LineFault::ReadFailed);
        };
        if count == 0 {
            return finish(answerer, progress);
        }
        take_piece(answerer, progress, &piece[..count], writer)?;
        let Ok(()) = send(writer, &mut progress.pending) else {
            return Err(LineFault::WriteFailed);
        };
    }
    Err(LineFault::ReadFailed)
}

/// Answers each line that the reader gives, in whatever pieces it gives them, and writes the answers
/// to the writer. A line ends with a line feed, which the last one may lack, and a carriage return
/// before the line feed is dropped. The answers are written whenever more than `A::MAX_PENDING` bytes
/// of them are pending, before each read, and before the run ends, also by a fault. No read or write
/// is tried again after it failed.
///
/// After a fault the answerer is in the state that the answered lines left, or one line more. Of the
/// answers without that line's, at most `A::MAX_PENDING` bytes were not written.
///
/// All this holds where the answerer still has what it relies on when the run ends. In any case, only answers
/// to lines changed the answerer.
pub fn run_lines<R: Read, W: Write, A: Answerer>(
    alloc: Global,
    reader: &mut R,
    writer: &mut W,
    answerer: &mut A,
) -> Result<CountEnd, LineFault<A::Fault>>
    ensures whole { IfOk result (λ end. (s : A.State) → A.Shows answerer.old s → A.Trusts answerer.new
        → IfSome (R.remaining reader.old) (λ input.
        TellsAll (within A.LIMIT A.answer_to A.too_long) (A.Shows answerer.new) s (lines_of input)
        (W.contents writer.old) (W.contents writer.new) end)) }
    ensures trust { A.Trusts answerer.new → A.Trusts answerer.old }
    ensures steps { Reaches A.Steps answerer.old answerer.new }
    ensures front { OnErr result ((s : A.State) → A.Shows answerer.old s → A.Trusts answerer.new
        → IfSome (R.remaining reader.old) (λ input.
        HasFront (W.contents writer.old) (W.contents writer.new)
        (text_of (within A.LIMIT A.answer_to A.too_long) s (lines_of input)))) }
    ensures left { IfErr result (λ why. (s : A.State) → A.Shows answerer.old s → A.Trusts answerer.new
        → IfSome (R.remaining reader.old) (λ input.
        BreaksOff (within A.LIMIT A.answer_to A.too_long)
        (Leaves (A.Shows answerer.new) (A.Fails answerer.new) why) A.MAX_PENDING s
        (lines_of input) (W.contents writer.old) (W.contents writer.new))) }
{
    let mut progress = Progress {
        kept: Vec::new(alloc),
        pending: Vec::new(alloc),
        counts: CountEnd { lines: 0, bad: 0 },
    };
    match answer_lines(reader, writer, answerer, &mut progress) {
        Ok(()) => match send(writer, &mut progress.pending) {
            Ok(()) => Ok(progress.counts),
            Err(WriteFailed) => Err(LineFault::WriteFailed),
        },
        Err(fault) => {
            let _ = send(writer, &mut progress.pending);
            Err(fault)
        }
    }
}
