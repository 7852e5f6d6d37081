//! Lines, from their first byte to their answer.
ghost use Rattle.std.specs.Prelude.{◌≡◌, ◌+◌, ◌<◌, ◌≤◌, ◌^◌, ◌++◌, [], length, take, IfOk, IfErr, OnOk, OnErr, if◌then◌else◌, vec_len, ◌-◌};
ghost use Rattle.line_io.specs.Ending.{Leaves};
ghost use Rattle.line_io.specs.Lines.{fed, without_cr, last_line, HasNoFeed};
ghost use Rattle.line_io.specs.Report.{Answers, within, after_of};
ghost use Rattle.line_io.specs.Steps.{Reaches};
ghost use Rattle.line_io.specs.Progress.{EndsIn, FromKept, StopsIn, TakesPiece};

use crate::answerer::Answerer;
use crate::ending::{CountEnd, LineFault};
use crate::output::{WriteFailed, send};
use std::alloc::AllocError;
use std::io::Write;

/// How far a run has come between two bytes of its input.
#[derive(Drop)]
pub(crate) struct Progress {
    /// What has come of an unfinished line, but only as much as shows whether it is too long.
    pub(crate) kept: Vec<u8>,
    /// The answers that were not written yet.
    pub(crate) pending: Vec<u8>,
    /// What was answered so far.
    pub(crate) counts: CountEnd,
}

/// The line without the carriage return at its end.
fn trimmed(line: &[u8]) -> &[u8]
    ensures { result.now ≡ without_cr line.now }
{
    let len = line.len();
    if len > 0 && line[len - 1] == b'\r' {
        &line[..len - 1]
    } else {
        line
    }
}

/// Appends the bytes to what was kept, up to `most` bytes in all.
pub(crate) fn keep(kept: &mut Vec<u8>, most: usize, bytes: &[u8]) -> Result<(), AllocError>
    requires { vec_len kept.old ≤ most }
    ensures { OnOk result (kept.new.items ≡ take most (kept.old.items ++ bytes.now)) }
{
    let room = most - kept.len();
    if bytes.len() <= room {
        kept.extend_from_slice(bytes)
    } else {
        kept.extend_from_slice(&bytes[..room])
    }
}

/// Answers a line, given without its end.
fn answer_line<A: Answerer>(
    answerer: &mut A,
    line: &[u8],
    pending: &mut Vec<u8>,
) -> Result<bool, LineFault<A::Fault>>
    ensures ok { IfOk result (λ bad. (s : A.State) → A.Shows answerer.old s → A.Trusts answerer.new
        → Answers (A.Shows answerer.new) pending.old.items pending.new.items bad
        (within A.LIMIT A.answer_to A.too_long s line.now)) }
    ensures trust { A.Trusts answerer.new → A.Trusts answerer.old }
    ensures steps { A.Steps answerer.old answerer.new }
    ensures err { OnErr result (pending.new.items ≡ pending.old.items) }
    ensures fails { IfErr result (λ fault. (s : A.State) → A.Shows answerer.old s → A.Trusts answerer.new
        → Leaves (A.Shows answerer.new) (A.Fails answerer.new) fault s
        (within A.LIMIT A.answer_to A.too_long s line.now).after) }
{
    let answered = if line.len() <= A::LIMIT as usize {
        answerer.answer(line, pending)
    } else {
        answerer.answer_long(pending)
    };
    match answered {
        Ok(bad) => Ok(bad),
        Err(fault) => Err(LineFault::Unanswered(fault)),
    }
}

/// Answers the line that ends after these bytes.
fn end_line<A: Answerer>(
    answerer: &mut A,
    progress: &mut Progress,
    bytes: &[u8],
) -> Result<bool, LineFault<A::Fault>>
    requires { vec_len progress.old.kept ≤ A.LIMIT + 2 }
    ensures ok { IfOk result (λ bad.
        FromKept (A.Trusts answerer.new) (A.Shows answerer.old) A.LIMIT progress.old (λ s part.
        Answers (A.Shows answerer.new) progress.old.pending.items progress.new.pending.items bad
        (within A.LIMIT A.answer_to A.too_long s (without_cr (part ++ bytes.now))))) }
    ensures kept { OnOk result (progress.new.kept.items ≡ []) }
    ensures len { OnOk result (vec_len progress.new.kept ≡ 0) }
    ensures counts { progress.new.counts ≡ progress.old.counts }
    ensures trust { A.Trusts answerer.new → A.Trusts answerer.old }
    ensures steps { Reaches A.Steps answerer.old answerer.new }
    ensures err { OnErr result (progress.new.pending.items ≡ progress.old.pending.items) }
    ensures fails { IfErr result (λ fault.
        FromKept (A.Trusts answerer.new) (A.Shows answerer.old) A.LIMIT progress.old (λ s part.
        Leaves (A.Shows answerer.new) (A.Fails answerer.new) fault s
        (within A.LIMIT A.answer_to A.too_long s (without_cr (part ++ bytes.now))).after)) }
{
    if progress.kept.is_empty() {
        return answer_line(answerer, trimmed(bytes), &mut progress.pending);
    }
    let Ok(()) = keep(&mut progress.kept, A::LIMIT as usize + 2, bytes) else {
        return Err(LineFault::NoMemory);
    };
    let bad = answer_line(answerer, trimmed(&progress.kept), &mut progress.pending)?;
    progress.kept.clear();
    Ok(bad)
}

/// The counts with one more line.
fn counted(counts: CountEnd, bad: bool) -> CountEnd
    requires { counts.bad ≤ counts.lines × counts.lines < 2 ^ 64 - 1 }
    ensures lines { result.lines ≡ counts.lines + 1 }
    ensures bad { result.bad ≡ counts.bad + (if bad then 1 else 0) }
{
    CountEnd {
        lines: counts.lines + 1,
        bad: if bad { counts.bad + 1 } else { counts.bad },
    }
}

/// Takes the rest of a line, whose line feed has come, and answers it.
pub(crate) fn take_line<W: Write, A: Answerer>(
    answerer: &mut A,
    progress: &mut Progress,
    bytes: &[u8],
    writer: &mut W,
) -> Result<(), LineFault<A::Fault>>
    requires kept { vec_len progress.old.kept ≤ A.LIMIT + 2 }
    requires counts { progress.old.counts.bad ≤ progress.old.counts.lines
        × progress.old.counts.lines < 2 ^ 64 - 1 }
    requires pending { length progress.old.pending.items ≤ A.MAX_PENDING }
    requires free { HasNoFeed bytes.now }
    ensures takes { OnOk result (
        FromKept (A.Trusts answerer.new) (A.Shows answerer.old) A.LIMIT progress.old (λ s part.
        TakesPiece A.LIMIT A.answer_to A.too_long (A.Shows answerer.new) s part (fed bytes.now) progress.old progress.new
        (W.contents writer.old) (W.contents writer.new))) }
    ensures trust { A.Trusts answerer.new → A.Trusts answerer.old }
    ensures steps { Reaches A.Steps answerer.old answerer.new }
    ensures kept { OnOk result (vec_len progress.new.kept ≡ 0) }
    ensures counts { OnOk result ((progress.new.counts.bad ≤ progress.new.counts.lines)
        × (progress.new.counts.lines ≡ progress.old.counts.lines + 1)) }
    ensures pending { OnOk result (length progress.new.pending.items ≤ A.MAX_PENDING) }
    ensures stops { IfErr result (λ why.
        FromKept (A.Trusts answerer.new) (A.Shows answerer.old) A.LIMIT progress.old (λ s part.
        StopsIn A.LIMIT A.answer_to A.too_long (Leaves (A.Shows answerer.new) (A.Fails answerer.new) why) A.MAX_PENDING s part
        (fed bytes.now) progress.old progress.new (W.contents writer.old) (W.contents writer.new))) }
{
    let bad = end_line(answerer, progress, bytes)?;
    progress.counts = counted(progress.counts, bad);
    if progress.pending.len() <= A::MAX_PENDING as usize {
        return Ok(());
    }
    match send(writer, &mut progress.pending) {
        Ok(()) => Ok(()),
        Err(WriteFailed) => Err(LineFault::WriteFailed),
    }
}

/// Answers a last line, which has no line feed.
pub(crate) fn finish<A: Answerer>(
    answerer: &mut A,
    progress: &mut Progress,
) -> Result<(), LineFault<A::Fault>>
    requires counts { progress.old.counts.bad ≤ progress.old.counts.lines
        × progress.old.counts.lines < 2 ^ 64 - 1 }
    ensures ok { OnOk result (
        FromKept (A.Trusts answerer.new) (A.Shows answerer.old) A.LIMIT progress.old (λ s part.
        EndsIn A.LIMIT A.answer_to A.too_long (A.Shows answerer.new) s (last_line part) progress.old progress.new)) }
    ensures trust { A.Trusts answerer.new → A.Trusts answerer.old }
    ensures steps { Reaches A.Steps answerer.old answerer.new }
    ensures err { OnErr result (progress.new.pending.items ≡ progress.old.pending.items) }
    ensures fails { IfErr result (λ fault.
        FromKept (A.Trusts answerer.new) (A.Shows answerer.old) A.LIMIT progress.old (λ s part.
        Leaves (A.Shows answerer.new) (A.Fails answerer.new) fault s
        (after_of (within A.LIMIT A.answer_to A.too_long) s (last_line part)))) }
{
    if progress.kept.is_empty() {
        return Ok(());
    }
    let bad = answer_line(answerer, &progress.kept, &mut progress.pending)?;
    progress.counts = counted(progress.counts, bad);
    Ok(())
}
