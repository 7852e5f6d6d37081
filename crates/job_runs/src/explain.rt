//! The reasons for the ends that lines of days ask for.
ghost use Rattle.std.specs.Prelude.{IfSome};
ghost use Rattle.job_runs.specs.Jobs.{Explains};

use explain_lines::explain_run;
use job_ends::{Status, failed};
use std::alloc::Global;
use std::io::{Read, Write};

/// Answers lines of days. A line that asks for an end is answered by the reasons for it.
pub(crate) fn explain_all<R: Read, W: Write, E: Write>(
    alloc: Global,
    r: &mut R,
    w: &mut W,
    e: &mut E,
) -> Status
    ensures { IfSome (R.remaining r.old) (λ input. Explains input (W.contents w.old) (W.contents w.new) result) }
{
    match explain_run(alloc, r, w) {
        Ok(end) if end.bad == 0 => Status::Done,
        Ok(_) => Status::SomeBad,
        Err(fault) => failed(alloc, e, &fault),
    }
}
