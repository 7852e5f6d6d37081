//! Working on the docket in the files at a path.
//!
//! The work is a method of a trait, so that only `work_and_leave` calls it at the store of files. A proof
//! there takes the prover long.
ghost use Rattle.std.specs.Prelude.{◌≡◌, IfErr, IfOk, MatchResult, Option, Result};
ghost use Rattle.sqlite.specs.Files.{over_files};
ghost use Rattle.sqlite.specs.Held.{Held};
ghost use Rattle.sqlite.specs.Store.{Ghosts};
ghost use Rattle.sqlite.specs.declared.error.Error.{Error};
ghost use Rattle.sqlite_wal.specs.Files.{image_at};
ghost use Rattle.sqlite_wal.specs.Recovery.{Image};
ghost use Rattle.docket_columns.specs.declared.version.Version.{Version};
ghost use Rattle.docket_tables.specs.Layouts.{Rows};
ghost use Rattle.docket_tables.specs.Stands.{HoldsRowsIn, IsImageIn};
ghost use Rattle.docket_store.specs.Left.{IsUnharmed};
ghost use Rattle.docket_store.specs.Reopening.{HoldRows};
ghost use Rattle.file_dockets.specs.Working.{IsDoneOn};

use crate::ended::{Ended, OnFile, Worked};
use crate::leaving::leave;
use docket_store::reopen_from;
use sqlite::{Alter, Connection, FileStore, Start};
use sqlite_disk::Disk;
use std::alloc::Global;
use std::rt::HostRuntime;

/// A work on the docket of a database, which may read from `R` and write to `W`.
pub trait Work<R, W> {
    /// What the work returns where it was done. `Fault` is why it was not done.
    type Done;

    type Fault;

    // What the work comes to, by the connection, the input and the output, each before and after it, and by
    // the error that is reported with a fault.
    ghost Comes: { Self → {S : Type 0} → Ghosts S → Held S → Held S → R → R → W → W → Option Error → Result Self.Done Self.Fault → Type 0 };

    /// Does the work over a connection, and returns the connection.
    fn work<S: Alter>(
        self,
        alloc: Global,
        conn: Connection<S>,
        reader: &mut R,
        writer: &mut W,
    ) -> Worked<S, Self::Done, Self::Fault>
        ensures comes { Comes self S.Store conn result.connection reader.old reader.new writer.old writer.new result.failure result.outcome }
        // Where it was not done nothing was read or written.
        ensures unread { IfErr result.outcome (λ _. (reader.new ≡ reader.old) × (writer.new ≡ writer.old)) };
}

/// Does the work over the files of a database, which held `start`, and lets them go.
fn work_and_leave<D: Disk + Drop, R, W, J: Work<R, W>>(
    alloc: Global,
    conn: Connection<FileStore<D>>,
    job: J,
    reader: &mut R,
    writer: &mut W,
) -> Ended<D, J::Done, J::Fault>
    ensures done { (start : Image) → ((v : Version) (rows : Rows) → HoldRows v start rows → HoldsRowsIn over_files v conn rows)
        → IsDoneOn start (λ opened back. J.Comes job over_files opened back reader.old reader.new writer.old writer.new result.failure) result.outcome result.left }
    ensures unread { IfErr result.outcome (λ _. (reader.new ≡ reader.old) × (writer.new ≡ writer.old)) }
{
    leave(job.work(alloc, conn, reader, writer))
}

/// Opens the files at a path, does the work over them and lets them go.
///
/// `start` represents what the two files hold when they are opened.
pub fn work_on_file<S: Start, R, W, J: Work<R, W> + Drop>(
    rt: &HostRuntime,
    path: &str,
    start: S,
    job: J,
    reader: &mut R,
    writer: &mut W,
) -> OnFile<S, J::Done, J::Fault>
    ensures done { IfOk result (λ done. IsDoneOn (image_at S.Start)
        (λ opened back. J.Comes job over_files opened back reader.old reader.new writer.old writer.new done.failure) done.outcome done.left) }
    ensures unopened { (v : Version) (rows : Rows) → HoldRows v (image_at S.Start) rows
        → IfErr result (IsUnharmed (image_at S.Start) (IsImageIn v rows)) }
    ensures unread { MatchResult result (λ done. IfErr done.outcome (λ _. (reader.new ≡ reader.old) × (writer.new ≡ writer.old)))
        (λ _. (reader.new ≡ reader.old) × (writer.new ≡ writer.old)) }
{
    let conn = reopen_from(rt, path, start)?;
    Ok(work_and_leave(rt.alloc(), conn, job, reader, writer))
}
