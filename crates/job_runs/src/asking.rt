//! What a job asks of the docket in a file.
ghost use Rattle.std.specs.Prelude.{◌≡◌, IfErr, MatchResult, OnOk};
ghost use Rattle.std.specs.Cow.{cow_str_bytes};
ghost use Rattle.sqlite_wal.specs.Files.{image_at};
ghost use Rattle.job_ends.specs.Ends.{TellsNothing};
ghost use Rattle.job_runs.specs.Asked.{IsAnswered};
ghost use Rattle.job_runs.specs.Jobs.{OfDocket};
ghost use Rattle.job_runs.specs.Spares.{SparesAsked, WereAsked};

use crate::opening::ready;
use file_questions::{Inquiry, ask_on_file};
use job_ends::{JobEnd, done_on_docket};
use sqlite::{FileFrom, Leftover, Start};
use std::io::Write;

/// Opens the file at a path, asks its docket and closes that. Returns the answer and what is left of the
/// files. Where there is no answer, prints why and returns how the job ends.
pub(crate) fn ask<S: Start, P: Write + Drop, W, Q: Inquiry<W>, E: Write>(
    rt: &HostRuntime,
    start: S,
    screen: Option<P>,
    path: &str,
    inquiry: &Q,
    w: &mut W,
    e: &mut E,
) -> Result<(Q::Answer, Leftover<FileFrom<S>>), JobEnd<FileFrom<S>>>
    ensures told { OfDocket (image_at S.Start) (λ docket. IsAnswered docket (Q.Tells inquiry.now docket.court docket.history w.old w.new) result) }
    ensures spared { MatchResult result (WereAsked (image_at S.Start)) (SparesAsked path.now (image_at S.Start) (E.contents e.old) (E.contents e.new)) }
    ensures failed { IfErr result (λ end. TellsNothing (cow_str_bytes end.text) end.status) }
    ensures unwritten { IfErr result (λ _. w.new ≡ w.old) }
    ensures silent { OnOk result (e.new ≡ e.old) }
{
    let rows = match ready(rt, path, screen, e) {
        Ok(rows) => rows,
        Err(status) => return Err(JobEnd::of(status)),
    };
    let ended = ask_on_file(rt, path, start, rows, inquiry, w);
    done_on_docket(rt.alloc(), path, ended, e)
}
