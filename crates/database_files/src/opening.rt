//! Opening the two files of a database.
ghost use Rattle.std.specs.Prelude.{IfErr, IfOk, IsTrue};
ghost use Rattle.sqlite.specs.Files.{IsOpened, file_state};
ghost use Rattle.sqlite.specs.Held.{IsNew};
ghost use Rattle.sqlite.specs.State.{HasCleanDisk};
ghost use Rattle.database_files.specs.Making.{Finds, IsNotOpened};

use crate::making::{is_blank, make, page_size};
use sqlite::{Connection, Error, FileStore, Files, Leftover, Options};
use sqlite_disk::Disk;
use std::alloc::Global;

/// Opens a database file and its log, whatever a run left in them. Where they hold no database, or what a
/// stop left of making one, an empty one is made.
pub fn open_files<D: Disk + Drop>(
    alloc: Global,
    files: Files<D>,
    options: Options,
) -> Result<Connection<FileStore<D>>, (Error, Leftover<D>)>
    requires log { IsTrue (D.Disk.is_usable files.log) }
    requires db { IsTrue (D.Disk.is_usable files.db) }
    ensures opened { IfOk result (λ c. HasCleanDisk (file_state c) → IsOpened c) }
    ensures found { IfOk result (λ c. HasCleanDisk (file_state c) → Finds files c) }
    ensures fresh { IfOk result IsNew }
    ensures failed { IfErr result (IsNotOpened files) }
{
    let mut files = files;
    let size = page_size();
    if is_blank(alloc, &mut files, size) {
        return make(alloc, files, size, options);
    }
    Connection::open_files(alloc, files, options)
}
