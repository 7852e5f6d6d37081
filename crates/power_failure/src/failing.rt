//! A power failure, between one run and the next.
ghost use Rattle.std.specs.Prelude.{IsTrue};
ghost use Rattle.sqlite_store.specs.declared.store.FileStore.{FileStore as Stopped};
ghost use Rattle.sqlite_wal.specs.Reads.{AreClean};
ghost use Rattle.sqlite.specs.Files.{over_files, image_of};
ghost use Rattle.sqlite.specs.Held.{state};
ghost use Rattle.sqlite.specs.State.{HasCleanDisk};
ghost use Rattle.court_days.specs.Court.{CourtSettings};
ghost use Rattle.docket_history.specs.Histories.{History};
ghost use Rattle.docket_tables.specs.Stands.{LastsAsEither};
ghost use Rattle.docket_applying.specs.Applying.{StandsFor, docket_rows};
ghost use Rattle.docket_store.specs.Reopening.{HoldDocket, HoldEither};
ghost use Rattle.power_failure.specs.PowerFailures.{IsStopOf};

use docket_store::{power_failures_leave_dockets, stop};
use sqlite::{Connection, FileStore, Files};
use sqlite_disk::Crash;

/// The power fails: the process is gone with all that it held, and each of the two files is left with
/// bytes that its disk may leave.
pub fn fail_power<D: Crash + Drop>(conn: Connection<FileStore<D>>) -> Files<D>
    ensures log { IsTrue (D.Disk.is_usable result.log) }
    ensures db { IsTrue (D.Disk.is_usable result.db) }
    ensures clean { AreClean D.Disk result.log result.db → HasCleanDisk (state over_files conn) }
    ensures settled { (court : CourtSettings) (h : History) → StandsFor over_files conn court h
        → AreClean D.Disk result.log result.db → HoldDocket (image_of D.Disk result) court h }
    ensures either { (court : CourtSettings) (h next : History) → LastsAsEither over_files conn (docket_rows court h) (docket_rows court next)
        → AreClean D.Disk result.log result.db → HoldEither (image_of D.Disk result) court h next }
    // A disk may also leave all that was written, so the clause holds for whatever the disks may leave.
    ensures every { (last : Stopped D D.Disk) × IsStopOf conn result last }
{
    power_failures_leave_dockets::<D>();
    let mut files = stop(conn).close();
    files.log.crash();
    files.db.crash();
    files
}
