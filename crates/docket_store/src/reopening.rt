//! Opening the files that a run left, also one that a power failure stopped.
ghost use Rattle.std.specs.Prelude.{◌≡◌, ◌⊎◌, ℕ, IsTrue, IfOk, IfErr, false};
ghost use Rattle.sqlite_wal.specs.Files.{image_at};
ghost use Rattle.sqlite_wal.specs.PageSize.{IsPageSize};
ghost use Rattle.sqlite_wal.specs.Reads.{AreClean};
ghost use Rattle.sqlite_wal.specs.Recovery.{Image};
ghost use Rattle.sqlite_store.specs.declared.store.FileStore.{FileStore};
ghost use Rattle.sqlite_store.specs.FileStore.{view};
ghost use Rattle.sqlite.specs.View.{IsClean};
ghost use Rattle.sqlite.specs.Files.{over_files, image_of, IsCleanLeft, FailsToOpenFiles, LeavesFiles};
ghost use Rattle.sqlite.specs.Held.{state};
ghost use Rattle.sqlite.specs.Opening.{HoldsIn};
ghost use Rattle.sqlite.specs.State.{HasCleanDisk};
ghost use Rattle.sqlite.specs.Tree.{Trees};
ghost use Rattle.court_days.specs.Court.{CourtSettings};
ghost use Rattle.docket_columns.specs.declared.version.Version.{Version};
ghost use Rattle.docket_history.specs.Histories.{History};
ghost use Rattle.docket_tables.specs.Layouts.{Rows};
ghost use Rattle.docket_tables.specs.Stands.{HoldsRowsIn, IsImage, IsImageIn, LastsAsEither};
ghost use Rattle.docket_applying.specs.Applying.{StandsFor, docket_rows};
ghost use Rattle.docket_store.specs.Left.{HaveSums, IsUnharmed};
ghost use Rattle.docket_store.specs.Reopening.{HoldDocket, HoldEither, HoldRows, LeavesEither, MayLeave, StandsForEither};

use crate::files::open_at;
use sqlite::{Connection, Error, FileFrom, FileStore, Files, Leftover, Options, Start};
use sqlite_disk::Disk;
use std::alloc::Global;
use std::rt::HostRuntime;

/// Whatever bytes a power failure leaves in the two files, they hold the docket of before or of after.
pub fn power_failures_leave_dockets<D: Disk>()
    ensures { (it : FileStore D D.Disk) (court : CourtSettings) (h next : History) (files : Image)
        → LeavesEither it court h next → MayLeave it files → HoldEither files court h next }
{}

/// Files whose pages end without checksums lack none.
pub fn plain_files_have_sums()
    ensures { (files : Image) (size : ℕ) (db : Trees) → IsPageSize size → HoldsIn size files db → HaveSums files }
{}

/// Ends a run without closing the files: what is not committed is rolled back. Before and after it, a power
/// failure leaves only what the view of the connection allows.
pub fn stop<D: Disk + Drop>(conn: Connection<FileStore<D>>) -> FileStore<D>
    ensures settled { (court : CourtSettings) (h : History) → StandsFor over_files conn court h
        → IsClean (view result) → LeavesEither conn.store court h h × LeavesEither result court h h }
    ensures either { (court : CourtSettings) (h next : History) → LastsAsEither over_files conn (docket_rows court h) (docket_rows court next)
        → IsClean (view result) → LeavesEither conn.store court h next × LeavesEither result court h next }
    ensures clean { IsClean (view result) → HasCleanDisk (state over_files conn) }
{
    conn.into_store()
}

/// Opens the database file and its log, whatever a run left in them. An error returns what is left of the
/// files.
pub fn reopen<D: Disk + Drop>(
    alloc: Global,
    files: Files<D>,
    options: Options,
) -> Result<Connection<FileStore<D>>, (Error, Leftover<D>)>
    requires log { IsTrue (D.Disk.is_usable files.log) }
    requires db { IsTrue (D.Disk.is_usable files.db) }
    ensures idle { IfOk result (λ conn. conn.in_transaction ≡ false) }
    ensures clean { IfOk result (λ conn. HasCleanDisk (state over_files conn) → AreClean D.Disk files.log files.db) }
    ensures docket { (court : CourtSettings) (h : History) → HoldDocket (image_of D.Disk files) court h
        → IfOk result (λ conn. StandsFor over_files conn court h) }
    ensures either { (it : FileStore D D.Disk) (court : CourtSettings) (h next : History) → LeavesEither it court h next
        → MayLeave it (image_of D.Disk files) → IfOk result (λ conn. StandsForEither over_files conn court h next) }
    ensures cause { IfErr result (λ e. IsCleanLeft e.1 → FailsToOpenFiles files e.1 e.0) }
    ensures unharmed { IfErr result (λ e. IsCleanLeft e.1 → LeavesFiles files e.1) }
{
    Connection::open_files(alloc, files, options)
}

/// Opens the files at a path, where `start` represents what they hold. An error returns what is left of them,
/// once they were opened; they still hold what they held, also past a power failure.
pub fn reopen_from<S: Start>(
    rt: &HostRuntime,
    path: &str,
    start: S,
) -> Result<Connection<FileStore<FileFrom<S>>>, (Error, Option<Leftover<FileFrom<S>>>)>
    ensures idle { IfOk result (λ conn. conn.in_transaction ≡ false) }
    ensures rows { (v : Version) (rows : Rows) → HoldRows v (image_at S.Start) rows
        → IfOk result (λ conn. HoldsRowsIn over_files v conn rows) }
    ensures docket { (court : CourtSettings) (h : History) → HoldDocket (image_at S.Start) court h
        → IfOk result (λ conn. StandsFor over_files conn court h) }
    ensures either { (court : CourtSettings) (h next : History) → HoldEither (image_at S.Start) court h next
        → IfOk result (λ conn. StandsForEither over_files conn court h next) }
    ensures unharmed { (v : Version) (rows : Rows) → HoldRows v (image_at S.Start) rows
        → IfErr result (IsUnharmed (image_at S.Start) (IsImageIn v rows)) }
    ensures either_unharmed { (court : CourtSettings) (h next : History) → HoldEither (image_at S.Start) court h next
        → IfErr result (λ failed. ∥ IsUnharmed (image_at S.Start) (IsImage (docket_rows court h)) failed
        ⊎ IsUnharmed (image_at S.Start) (IsImage (docket_rows court next)) failed ∥₁) }
{
    open_at(rt, path, start)
}
