//! A copy of the docket in a file.
ghost use Rattle.std.specs.Prelude.{◌≡◌, codes, None};
ghost use Rattle.std.specs.Cow.{cow_str_bytes};
ghost use Rattle.sqlite_wal.specs.Files.{image_at};
ghost use Rattle.job_runs.specs.Tells.{TellsText};
ghost use Rattle.job_runs.specs.Jobs.{OfDocket, TellsOf};
ghost use Rattle.job_runs.specs.Spares.{SparesAsked};

use crate::asking::ask;
use file_copies::{copy_file, is_free};
use file_questions::Judgment;
use job_ends::{AtPath, JobEnd, Status, failed};
use sqlite::{FileFrom, Leftover, Start};
use sqlite_disk::Disk;
use std::borrow::CowStr;
use std::io::Write;

/// Copies the file of a docket that is closed, while its files are still held. Fails where its log could not
/// be copied into the file: the file alone is then not the docket.
fn copied<D: Disk + Drop, E: Write>(
    rt: &HostRuntime,
    path: &str,
    to: &str,
    left: &Leftover<D>,
    e: &mut E,
) -> JobEnd<D>
    ensures told { TellsText (codes "copied\n") (cow_str_bytes result.text) result.status }
    ensures left { result.left ≡ None }
{
    if matches!(left, Leftover::Store(_)) {
        let fault = "its log could not be copied into it";
        return JobEnd::of(failed(rt.alloc(), e, &AtPath { path, fault }));
    }
    match copy_file(rt, path, to) {
        Ok(()) => JobEnd {
            text: CowStr::Borrowed("copied\n"),
            status: Status::Done,
            left: None,
        },
        Err(fault) => JobEnd::of(failed(rt.alloc(), e, &AtPath { path: to, fault })),
    }
}

/// Copies the docket in a file to another, once its tables are judged sound. No other program writes to the
/// file meanwhile.
pub(crate) fn back_up<S: Start, P: Write + Drop, E: Write>(
    rt: &HostRuntime,
    start: S,
    screen: Option<P>,
    path: &str,
    to: &str,
    e: &mut E,
) -> JobEnd<FileFrom<S>>
    ensures told { OfDocket (image_at S.Start) (λ docket. TellsOf docket (TellsText (codes "copied\n")) result) }
    ensures spared { SparesAsked path.now (image_at S.Start) (E.contents e.old) (E.contents e.new) result }
{
    if let Err(fault) = is_free(rt, path, to) {
        return JobEnd::of(failed(rt.alloc(), e, &AtPath { path: to, fault }));
    }
    match ask(rt, start, screen, path, &Judgment, &mut (), e) {
        Ok((_, left)) => copied(rt, path, to, &left, e).with(Some(left)),
        Err(end) => end,
    }
}
