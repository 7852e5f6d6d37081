//! The two files at a path, opened with a log that is seldom copied into the database.
ghost use Rattle.std.specs.Prelude.{◌≡◌, true, false, IsTrue, IfOk, IfErr, IfSome};
ghost use Rattle.sqlite_std_file.specs.File.{file_is_usable, IsFresh};
ghost use Rattle.sqlite_wal.specs.Files.{image_at};
ghost use Rattle.sqlite.specs.Files.{file_state, IsOpened, HoldsDatabase};
ghost use Rattle.sqlite.specs.Held.{IsNew};
ghost use Rattle.sqlite.specs.State.{HasCleanDisk};
ghost use Rattle.sqlite.specs.Tree.{Trees};
ghost use Rattle.database_files.specs.Making.{IsNotOpened};

use database_files::open_files;
use sqlite::{Connection, Error, ErrorCode, FileFrom, FileStore, Files, Leftover, Options, Start};
use sqlite_std_file::OpenError;
use std::hash::{BuildHasher, RandomState};
use std::io::ErrorKind;
use std::rt::HostRuntime;

/// The most pages that the log may have before it is copied into the database. A copy syncs both files, and
/// the commit behind it syncs twice. Some 150 commands reach the kit's own number, 1,000.
const LOG_PAGES: usize = 8000;

/// How many read pages are kept in memory: 8 MB of pages of 1,024 bytes. The kit's own number, 2,000, is for pages
/// of 4,096.
const CACHE_PAGES: usize = 8000;

const NO_MEMORY: Error = Error::SqliteFailure(ErrorCode::OutOfMemory);

const CANNOT_OPEN: Error = Error::SqliteFailure(ErrorCode::CannotOpen);

/// The files at the path. `:memory:` and a URI name none.
fn pair_at<S: Start>(rt: &HostRuntime, path: &str, start: S) -> Result<Files<FileFrom<S>>, Error>
    ensures usable { IfOk result (λ files. IsTrue (file_is_usable S.Start files.log) × IsTrue (file_is_usable S.Start files.db)) }
    ensures fresh { IfOk result (λ files. IsFresh true files.log × IsFresh false files.db) }
{
    if path == ":memory:" || path.starts_with("file:") {
        return Err(CANNOT_OPEN);
    }
    match sqlite_std_file::open(rt, path, start) {
        Ok(files) => Ok(files),
        Err(OpenError::OutOfMemory) => Err(NO_MEMORY),
        Err(OpenError::Busy) => Err(Error::SqliteFailure(ErrorCode::DatabaseBusy)),
        Err(OpenError::Io(error)) if error.kind() == ErrorKind::OutOfMemory => Err(NO_MEMORY),
        Err(_) => Err(CANNOT_OPEN),
    }
}

fn options(rt: &HostRuntime) -> Result<Options, Error> {
    match RandomState::new(rt) {
        Ok(state) => {
            let mut options = Options::new(state.hash_one(&0u8));
            options.checkpoint_frames = LOG_PAGES;
            options.cache_pages = CACHE_PAGES;
            Ok(options)
        }
        Err(_) => Err(CANNOT_OPEN),
    }
}

/// Opens the files. An error returns what is left of them, once they were opened.
pub(crate) fn open_at<S: Start>(
    rt: &HostRuntime,
    path: &str,
    start: S,
) -> Result<Connection<FileStore<FileFrom<S>>>, (Error, Option<Leftover<FileFrom<S>>>)>
    ensures opened { IfOk result (λ c. HasCleanDisk (file_state c) → IsOpened c) }
    ensures found { IfOk result (λ c. HasCleanDisk (file_state c) → (db : Trees) → HoldsDatabase (image_at S.Start) db → (file_state c).committed.trees ≡ db) }
    ensures fresh { IfOk result IsNew }
    ensures failed { IfErr result (λ e. IfSome e.1 (λ left. (files : _) × IsFresh true files.log × IsFresh false files.db × IsNotOpened files (e.0, left))) }
{
    let files = match pair_at(rt, path, start) {
        Ok(files) => files,
        Err(error) => return Err((error, None)),
    };
    let options = match options(rt) {
        Ok(options) => options,
        Err(error) => return Err((error, None)),
    };
    match open_files(rt.alloc(), files, options) {
        Ok(conn) => Ok(conn),
        Err((error, left)) => Err((error, Some(left))),
    }
}
