//! Making an empty database with small pages.
ghost use Rattle.std.specs.Prelude.{◌≡◌, ◌≤◌, [], IfErr, IfOk, IsTrue};
ghost use Rattle.sqlite_pool.specs.Opening.{IsBlankFile};
ghost use Rattle.sqlite_store.specs.FileStore.{faults, state as store_state, view};
ghost use Rattle.sqlite_store.specs.Unopened.{AreUsable, Creates, files_of, state_of, wanted_by};
ghost use Rattle.sqlite_trees.specs.View.{IsClean};
ghost use Rattle.sqlite_wal.specs.PageSize.{bytes_of};
ghost use Rattle.sqlite_wal.specs.Reads.{AreClean, OnlyReads};
ghost use Rattle.sqlite.specs.Files.{FailsToOpenAs, FailsToOpenFiles, IsCleanLeft, IsEmpty, IsOpened, file_state, image_of, tally_left};
ghost use Rattle.sqlite.specs.Held.{IsNew};
ghost use Rattle.sqlite.specs.Opening.{FailsToMake, IsMade, blurred, renamed, reported};
ghost use Rattle.sqlite.specs.State.{HasCleanDisk, store_error};
ghost use Rattle.sqlite_trees.specs.declared.error.StoreError.TheVariants as kinds;
ghost use Rattle.database_files.specs.Making.{HoldsNone, IsMadeIn, LeavesNew, new_page};

use sqlite::{Connection, Error, ErrorCode, FileStore, Files, Leftover, Options};
use sqlite_disk::{Disk, Tally};
use sqlite_pager::Pager;
use sqlite_pool::probe_blank;
use sqlite_store::{OpenError, Unopened, name_fault};
use sqlite_trees::error::StoreError;
use sqlite_wal::PageSize;
use std::alloc::{AllocFailed, Global};

/// The bytes of a page of a database that is made.
const NEW_PAGE: usize = 1024;

const NO_MEMORY: Error = Error::SqliteFailure(ErrorCode::OutOfMemory);

pub(crate) fn page_size() -> PageSize
    ensures { bytes_of result ≡ new_page }
{
    PageSize::new(NEW_PAGE).unwrap()
}

/// Whether the files hold no database, or what a stop left of making one with such pages. Nothing is written.
/// Where a read fails, the open meets that failure and names it.
pub(crate) fn is_blank<D: Disk>(alloc: Global, files: &mut Files<D>, size: PageSize) -> bool
    requires log { IsTrue (D.Disk.is_usable files.old.log) }
    requires db { IsTrue (D.Disk.is_usable files.old.db) }
    ensures blank { AreClean D.Disk files.new.log files.new.db → IsTrue result → IsBlankFile (bytes_of size) (image_of D.Disk files.old) }
    ensures log { OnlyReads D.Disk files.old.log files.new.log }
    ensures db { OnlyReads D.Disk files.old.db files.new.db }
{
    match probe_blank(alloc, files, size, false) {
        Ok(is_blank) => is_blank,
        Err(_) => false,
    }
}

fn store_error(error: StoreError) -> Error
    ensures { result ≡ store_error error }
{
    Error::SqliteFailure(match error {
        StoreError::OutOfMemory => ErrorCode::OutOfMemory,
        StoreError::Io => ErrorCode::SystemIoFailure,
        StoreError::Corrupt => ErrorCode::DatabaseCorrupt,
        StoreError::Full => ErrorCode::DiskFull,
        StoreError::Broken => ErrorCode::Closed,
        StoreError::Unstorable => ErrorCode::TooBig,
    })
}

fn open_error(error: OpenError) -> Error
    ensures { result ≡ reported error }
{
    Error::SqliteFailure(match error {
        OpenError::OutOfMemory => ErrorCode::OutOfMemory,
        OpenError::Io => ErrorCode::SystemIoFailure,
        OpenError::Full => ErrorCode::DiskFull,
        OpenError::Refused => ErrorCode::DatabaseCorrupt,
    })
}

/// Returns each failure of the disk as one kind of error.
fn blurred(error: Error) -> Error
    ensures { result ≡ blurred error }
{
    match error {
        Error::SqliteFailure(ErrorCode::DatabaseCorrupt | ErrorCode::DiskFull) => {
            Error::SqliteFailure(ErrorCode::SystemIoFailure)
        }
        other => other,
    }
}

/// Replaces that one kind by the name of the failure.
fn renamed(kind: StoreError, error: Error) -> Error
    ensures { result ≡ renamed kind error }
{
    match error {
        Error::SqliteFailure(ErrorCode::SystemIoFailure) => store_error(kind),
        other => other,
    }
}

fn tally<D: Disk>(left: &Leftover<D>) -> Tally
    ensures { result ≡ tally_left left.now }
{
    match left {
        Leftover::Files(files) => files.tally(),
        Leftover::Unopened(files) => files.tally(),
        Leftover::Store(store) => store.tally(),
    }
}

fn unopened<D: Disk>(
    alloc: Global,
    files: Files<D>,
    size: PageSize,
    options: Options,
) -> Result<Unopened<D>, Files<D>>
    ensures back { IfErr result (λ left. (left.log ≡ files.log) × (left.db ≡ files.db)) }
    ensures files { IfOk result (λ it. files_of it ≡ (files.log, files.db)) }
    ensures size { IfOk result (λ it. (state_of it).page_size ≡ bytes_of size) }
    ensures none { IfOk result (λ it. wanted_by it ≡ []) }
{
    let pager = match Pager::new(alloc, files, size, options) {
        Ok(pager) => pager,
        Err(AllocFailed { value }) => return Err(value),
    };
    match Unopened::new(alloc, pager, &[]) {
        Ok(fresh) => Ok(fresh),
        Err(AllocFailed { value }) => Err(value.close()),
    }
}

/// Makes an empty database in files that hold none.
fn store_in<D: Disk>(files: Unopened<D>) -> Result<FileStore<D>, (Error, Unopened<D>)>
    requires usable { AreUsable files }
    requires none { wanted_by files ≡ [] }
    ensures honest { IfOk result (λ store. IsTrue (view store).is_clean → IsTrue (state_of files).is_clean) }
    ensures falls { IfErr result (λ e. IsTrue (state_of e.1).is_clean → IsTrue (state_of files).is_clean) }
    ensures ok { IfOk result (λ store. IsTrue (view store).is_clean → IsMade files store) }
    ensures size { IfOk result (λ store. IsTrue (view store).is_clean → (store_state store).page_size ≡ (state_of files).page_size) }
    ensures cause { IfErr result (λ e. IsTrue (state_of e.1).is_clean → FailsToMake files e.1 e.0) }
    ensures counts { IfErr result (λ e. IsTrue (state_of e.1).is_clean → (state_of files).faults ≤ (state_of e.1).faults) }
    ensures kept { IfErr result (λ e. IsTrue (state_of e.1).is_clean → Creates files (state_of e.1)) }
{
    match files.create() {
        Ok(store) => Ok(store),
        Err((error, left)) => Err((open_error(error), left)),
    }
}

/// Does the same, and connects to the database.
fn connect<D: Disk + Drop>(
    alloc: Global,
    files: Files<D>,
    size: PageSize,
    options: Options,
) -> Result<Connection<FileStore<D>>, (Error, Leftover<D>)>
    requires log { IsTrue (D.Disk.is_usable files.log) }
    requires db { IsTrue (D.Disk.is_usable files.db) }
    requires blank { AreClean D.Disk files.log files.db → HoldsNone (image_of D.Disk files) }
    requires size { bytes_of size ≡ new_page }
    ensures opened { IfOk result (λ c. HasCleanDisk (file_state c) → IsOpened c) }
    ensures found { IfOk result (λ c. HasCleanDisk (file_state c) → IsMadeIn files c) }
    ensures fresh { IfOk result IsNew }
    ensures cause { IfErr result (λ e. IsCleanLeft e.1 → FailsToOpenAs kinds.Io files e.1 e.0) }
    ensures unharmed { IfErr result (λ e. IsCleanLeft e.1 → LeavesNew files e.1) }
{
    let fresh = match unopened(alloc, files, size, options) {
        Ok(fresh) => fresh,
        Err(left) => return Err((NO_MEMORY, Leftover::Files(left))),
    };
    let store = match store_in(fresh) {
        Ok(store) => store,
        Err((error, left)) => return Err((error, Leftover::Unopened(left))),
    };
    match Connection::over(alloc, store) {
        Ok(conn) => Ok(conn),
        Err((error, store)) => Err((blurred(error), Leftover::Store(store))),
    }
}

/// Makes an empty database in files that hold none, with pages of this size. Names a failure of the disk by
/// what the files met.
pub(crate) fn make<D: Disk + Drop>(
    alloc: Global,
    files: Files<D>,
    size: PageSize,
    options: Options,
) -> Result<Connection<FileStore<D>>, (Error, Leftover<D>)>
    requires log { IsTrue (D.Disk.is_usable files.log) }
    requires db { IsTrue (D.Disk.is_usable files.db) }
    requires blank { AreClean D.Disk files.log files.db → HoldsNone (image_of D.Disk files) }
    requires size { bytes_of size ≡ new_page }
    ensures opened { IfOk result (λ c. HasCleanDisk (file_state c) → IsOpened c) }
    ensures found { IfOk result (λ c. HasCleanDisk (file_state c) → IsMadeIn files c) }
    ensures fresh { IfOk result IsNew }
    ensures cause { IfErr result (λ e. IsCleanLeft e.1 → FailsToOpenFiles files e.1 e.0) }
    ensures unharmed { IfErr result (λ e. IsCleanLeft e.1 → LeavesNew files e.1) }
{
    let before = files.tally();
    match connect(alloc, files, size, options) {
        Ok(conn) => Ok(conn),
        Err((error, left)) => {
            let kind = name_fault(before, tally(&left));
            Err((renamed(kind, error), left))
        }
    }
}
