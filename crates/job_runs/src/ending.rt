//! The end of the program.
ghost use Rattle.std.specs.Prelude.{◌≡◌, ◌⊎◌, IfErr, IfOk};
ghost use Rattle.std.specs.Cow.{cow_str_bytes};
ghost use Rattle.clap.specs.Values.{kind_of};
ghost use Rattle.job_ends.specs.Ends.{Exits, exit_code};
ghost use Rattle.job_ends.specs.declared.status.Status.{Status as Ended};
ghost use Rattle.job_runs.specs.Words.{ExplainsWords, status_of};

use clap::Error;
use clap::error::ErrorKind;
use job_ends::{JobEnd, Status, failed_by, no_memory, write_text};
use line_io::write_bytes;
use sqlite_disk::Disk;
use std::alloc::Global;
use std::io;
use std::io::Write;

/// Returns how the program ends for an error of its command line. Help and version count as errors.
fn status_of(kind: ErrorKind) -> Status
    ensures { result ≡ status_of kind }
{
    match kind {
        ErrorKind::DisplayHelp => Status::Done,
        ErrorKind::DisplayVersion => Status::Done,
        ErrorKind::OutOfMemory => Status::Failed,
        _ => Status::BadLine,
    }
}

/// Prints what is wrong with a command line that asks for no job.
fn tell_mistake<E: Write>(text: &str, e: &mut E) -> Status
    ensures { (result ≡ Status.BadLine) ⊎ (result ≡ Status.Failed) }
{
    match write_bytes(e, text.as_bytes()) {
        Ok(()) => Status::BadLine,
        Err(_) => Status::Failed,
    }
}

/// Prints what is wrong with a command line that asks for no job, or the help that it asks for.
fn explain_words<W: Write, E: Write>(alloc: Global, error: &Error, w: &mut W, e: &mut E) -> Status
    ensures { ExplainsWords (kind_of error.now) (W.contents w.old) (W.contents w.new) result }
{
    let Ok(text) = format!(in alloc; "{error}") else {
        return no_memory(e);
    };
    match status_of(error.kind()) {
        Status::Done => write_text(alloc, text.as_str(), Status::Done, w, e),
        Status::BadLine => tell_mistake(text.as_str(), e),
        Status::SomeBad | Status::Failed => no_memory(e),
    }
}

/// Ends the program as its job ended, or prints why its command line asks for no job. Returns its exit
/// status. Drops the files of the job before it writes the job's text.
pub fn finish<D: Disk + Drop, W: Write, E: Write>(
    alloc: Global,
    end: Result<JobEnd<D>, Error>,
    w: &mut W,
    e: &mut E,
) -> u8
    ensures job { IfOk end (λ end. Exits (cow_str_bytes end.text) end.status (W.contents w.old) (W.contents w.new) result) }
    ensures words { IfErr end (λ error. (ended : Ended) × ExplainsWords (kind_of error) (W.contents w.old) (W.contents w.new) ended × (result ≡ exit_code ended)) }
{
    match end {
        Ok(end) => end.finish(alloc, w, e),
        Err(error) => explain_words(alloc, &error, w, e).code(),
    }
}

/// Prints that the command line could not be read, and returns the exit status of the program.
pub fn fail_unread<E: Write>(alloc: Global, fault: &io::Error, e: &mut E) -> u8
    ensures { result ≡ exit_code Status.Failed }
{
    failed_by(alloc, e, fault.kind(), "the command line could not be read").code()
}
