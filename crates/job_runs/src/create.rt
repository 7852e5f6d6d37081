//! A new docket in a file.
ghost use Rattle.std.specs.Cow.{cow_str_bytes};
ghost use Rattle.sqlite_wal.specs.Files.{image_at};
ghost use Rattle.job_ends.specs.Ends.{SaysUnopened};
ghost use Rattle.job_runs.specs.Jobs.{FailsOr, IfUnopened, Makes};
ghost use Rattle.job_runs.specs.Spares.{TellsMade};

use court_days::Court;
use file_changes::create_on_file;
use job_ends::{AtPath, FileFault, JobEnd, Status, done_on_docket, failed, test_file};
use sqlite::{FileFrom, Start};
use std::borrow::CowStr;
use std::fs::OpenOptions;
use std::io::{ErrorKind, Write};
use std::os::unix::fs::OpenOptionsExt;

/// Makes an empty file that only its owner may read and write, where the path leads to none. The kit would
/// give it the rights that the umask leaves. The kit gives the log the rights of the file. A name that is no
/// file's, or a link that leads nowhere, is left to the open, which refuses it.
fn make_private(rt: &HostRuntime, path: &str) -> Result<(), FileFault> {
    if path == ":memory:" || path.starts_with("file:") {
        return Ok(());
    }
    let made = OpenOptions::new()
        .write(true)
        .create_new(true)
        .mode(0o600)
        .open(rt, path);
    match made {
        Ok(_) => Ok(()),
        Err(error) if error.kind() == ErrorKind::AlreadyExists => Ok(()),
        Err(error) if error.kind() == ErrorKind::OutOfMemory => Err(FileFault::NoMemory),
        Err(_) => Err(FileFault::CannotOpen),
    }
}

/// Tests the file in which a docket is to be made, or makes it where there is none.
fn ready_file(rt: &HostRuntime, path: &str) -> Result<(), FileFault> {
    match test_file(rt, path) {
        Err(FileFault::Missing) => make_private(rt, path),
        tested => tested,
    }
}

/// Makes a docket of the court in a file that holds none. A docket that is there stays as it is.
pub(crate) fn create_docket<S: Start, E: Write>(
    rt: &HostRuntime,
    start: S,
    path: &str,
    court: Court,
    e: &mut E,
) -> JobEnd<FileFrom<S>>
    ensures made { FailsOr result (λ left. Makes (image_at S.Start) court left (cow_str_bytes result.text) result.status) }
    ensures unopened { IfUnopened result (SaysUnopened path.now (E.contents e.old) (E.contents e.new)) }
    ensures told { FailsOr result (λ left. TellsMade path.now (image_at S.Start) (E.contents e.old) (E.contents e.new) result.status) }
{
    match ready_file(rt, path) {
        Ok(()) => {}
        Err(fault) => return JobEnd::of(failed(rt.alloc(), e, &AtPath { path, fault })),
    }
    match done_on_docket(rt.alloc(), path, create_on_file(rt, path, start, court), e) {
        Ok((_, left)) => JobEnd {
            text: CowStr::Borrowed("created\n"),
            status: Status::Done,
            left: Some(left),
        },
        Err(end) => end,
    }
}
