//! The two files of a docket that is open.
ghost use Rattle.std.specs.Prelude.{IfOk};
ghost use Rattle.docket_copies.specs.Copies.{IsSoundFile};

use crate::copying::sound_copy;
use crate::fault::NoCopy;
use file_copies::name_beside;
use memory_file::MemoryFile;
use sqlite_disk::Files;
use std::fs;

/// The database file at a path and its log, which this program holds open. They are read between two commands;
/// nothing is locked or changed. No clause can state what they hold.
#[derive(Clone, Copy)]
pub struct DocketFiles<'a> {
    rt: &'a HostRuntime,
    path: &'a str,
}

impl<'a> DocketFiles<'a> {
    /// The files at the path by which the docket was opened.
    pub fn new(rt: &'a HostRuntime, path: &'a str) -> DocketFiles<'a> {
        DocketFiles { rt, path }
    }

    /// Returns what both hold now. The log is beside the file to which the path leads.
    fn read(&self) -> Result<Files<MemoryFile>, NoCopy> {
        let db_path = fs::canonicalize(self.rt, self.path)?;
        let log_path = name_beside(self.rt.alloc(), db_path.as_str(), "-wal")?;
        let db = fs::read(self.rt, db_path.as_str())?;
        let log = fs::read(self.rt, log_path.as_str())?;
        Ok(Files {
            log: MemoryFile::from(log),
            db: MemoryFile::from(db),
        })
    }

    /// Returns the bytes of a file that alone is the docket that both hold, judged sound.
    pub fn copy(&self) -> Result<Vec<u8>, NoCopy>
        ensures { IfOk result (λ copy. IsSoundFile copy.items) }
    {
        let copy = sound_copy(self.rt.alloc(), self.read()?)?;
        Ok(copy.into_bytes())
    }
}
