//! The docket of two files, in one.
ghost use Rattle.std.specs.Prelude.{◌≤◌, IfOk, IsTrue};
ghost use Rattle.sqlite_wal.specs.Reads.{AreClean};
ghost use Rattle.sqlite.specs.Files.{HoldsDatabase, image_of};
ghost use Rattle.sqlite.specs.Held.{state};
ghost use Rattle.sqlite.specs.State.{HasCleanDisk};
ghost use Rattle.sqlite.specs.Tree.{Trees};
ghost use Rattle.sqlite.specs.View.{doubt};
ghost use Rattle.court_days.specs.Court.{CourtSettings};
ghost use Rattle.docket_history.specs.Histories.{History};
ghost use Rattle.docket_scan.specs.Judging.{Rows};
ghost use Rattle.docket_store.specs.Opening.{HoldsSound};
ghost use Rattle.docket_store.specs.Reopening.{HoldDocket};
ghost use Rattle.memory_file.specs.Files.{bytes_of};
ghost use Rattle.docket_copies.specs.Copies.{IsSoundFile, alone, with_log};

use crate::fault::NoCopy;
use docket_store::Docket;
use memory_file::MemoryFile;
use sqlite::{Alter, Connection, Options};
use sqlite_disk::{Disk, Files};
use std::alloc::Global;

/// The seed of a log in memory, to which nobody else writes.
const SEED: u64 = 0;

/// Returns the connection of a database, if that holds a docket whose tables are sound.
fn judged<S: Alter + Drop>(alloc: Global, conn: Connection<S>) -> Result<Connection<S>, NoCopy>
    ensures clean { IfOk result (λ now. doubt (state S.Store conn).is_clean ≤ doubt (state S.Store now).is_clean) }
    ensures sound { IfOk result (λ now. HasCleanDisk (state S.Store now)
        → (court : CourtSettings) × (rows : Rows) × HoldsSound S.Store conn now court rows) }
{
    match Docket::adopt(alloc, conn) {
        Ok(docket) => Ok(docket.close()),
        Err(_) => Err(NoCopy),
    }
}

/// Returns a database file and its log, where the file alone holds what both held. It fails unless that is a
/// docket whose tables are judged sound.
fn merged<D: Disk + Drop>(alloc: Global, files: Files<D>) -> Result<Files<D>, NoCopy>
    requires log { IsTrue (D.Disk.is_usable files.log) }
    requires db { IsTrue (D.Disk.is_usable files.db) }
    ensures same { (db : Trees) → HoldsDatabase (image_of D.Disk files) db
        → IfOk result (λ left. AreClean D.Disk left.log left.db → ∥ HoldsDatabase (alone (D.Disk.seen left.db)) db ∥₁) }
    ensures sound { IfOk result (λ left. AreClean D.Disk left.log left.db → IsSoundFile (D.Disk.seen left.db)) }
{
    let Ok(conn) = Connection::open_files(alloc, files, Options::new(SEED)) else {
        return Err(NoCopy);
    };
    let conn = judged(alloc, conn)?;
    match conn.close_files() {
        Ok(left) => Ok(left),
        Err((_, store)) => {
            drop(store.close());
            Err(NoCopy)
        }
    }
}

/// Returns a database file that alone holds what a file and its log hold. It fails unless that is a docket
/// whose tables are judged sound.
pub fn sound_copy(alloc: Global, files: Files<MemoryFile>) -> Result<MemoryFile, NoCopy>
    // It holds the same database, and so the same docket.
    ensures same { (db : Trees) → HoldsDatabase (with_log (bytes_of files.db) (bytes_of files.log)) db
        → IfOk result (λ copy. ∥ HoldsDatabase (alone (bytes_of copy)) db ∥₁) }
    ensures docket { (court : CourtSettings) (h : History) → HoldDocket (with_log (bytes_of files.db) (bytes_of files.log)) court h
        → IfOk result (λ copy. HoldDocket (alone (bytes_of copy)) court h) }
    // This holds whatever the bytes were.
    ensures sound { IfOk result (λ copy. IsSoundFile (bytes_of copy)) }
{
    let left = merged(alloc, files)?;
    Ok(left.db)
}
