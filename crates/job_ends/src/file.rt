//! The files of dockets.

use sqlite::{Error, ErrorCode};
use std::io::{ErrorKind, Read};
use std::{fmt, fs};

/// What a database of SQLite begins with.
const MAGIC: &[u8; 16] = b"SQLite format 3\0";

/// Why no database was opened.
#[derive(Clone, Copy)]
pub enum FileFault {
    Missing,
    NotAFile,
    /// It begins as no database of SQLite does.
    NotADatabase,
    /// Another process has it open.
    InUse,
    /// It may not be read or written, or a link to it leads nowhere.
    CannotOpen,
    /// What it holds is no sound database.
    Damaged,
    Failed,
    Full,
    NoMemory,
}

impl fmt::Display for FileFault {
    ghost use Rattle.std.specs.Prelude.{Some};
    ghost use Rattle.job_ends.specs.Ends.{unopened_text};

    ghost output = { λ it. Some (unopened_text it) };

    fn fmt<W: fmt::Write>(&self, f: &mut fmt::Formatter<W>) -> fmt::Result {
        f.write_str(match self {
            FileFault::Missing => "there is no such file",
            FileFault::NotAFile => "it is no regular file",
            FileFault::NotADatabase => "it is no database of SQLite",
            FileFault::InUse => "it is in use by another process",
            FileFault::CannotOpen => "it can't be opened for reading and writing",
            FileFault::Damaged => "it is damaged, or no database of SQLite",
            FileFault::Failed => "it could not be read or written",
            FileFault::Full => "the disk is full",
            FileFault::NoMemory => "there is not enough memory",
        })
    }
}

impl From<Error> for FileFault {
    fn from(error: Error) -> FileFault {
        match error {
            Error::SqliteFailure(ErrorCode::DatabaseBusy) => FileFault::InUse,
            Error::SqliteFailure(ErrorCode::CannotOpen) => FileFault::CannotOpen,
            Error::SqliteFailure(ErrorCode::SystemIoFailure) => FileFault::Failed,
            Error::SqliteFailure(ErrorCode::DiskFull) => FileFault::Full,
            Error::SqliteFailure(ErrorCode::OutOfMemory) => FileFault::NoMemory,
            _ => FileFault::Damaged,
        }
    }
}

impl From<std::io::Error> for FileFault {
    fn from(error: std::io::Error) -> FileFault {
        match error.kind() {
            ErrorKind::NotFound => FileFault::Missing,
            ErrorKind::PermissionDenied => FileFault::CannotOpen,
            ErrorKind::OutOfMemory => FileFault::NoMemory,
            _ => FileFault::Failed,
        }
    }
}

/// Whether a log stands beside the file. SQLite keeps there what is not in the file yet.
fn has_log(rt: &HostRuntime, path: &str) -> Result<bool, FileFault> {
    let Ok(log) = format!(in rt.alloc(); "{path}-wal") else {
        return Err(FileFault::NoMemory);
    };
    match fs::metadata(rt, log.as_str()) {
        Ok(found) => Ok(found.len() > 0),
        Err(error) if error.kind() == ErrorKind::NotFound => Ok(false),
        Err(error) => Err(FileFault::from(error)),
    }
}

/// Whether the file is empty, or begins as SQLite's do.
fn begins_well(rt: &HostRuntime, path: &str) -> Result<bool, FileFault> {
    let mut file = fs::open(rt, path)?;
    let mut first = [0u8; 16];
    let count = file.read(&mut first)?;
    Ok(count == 0 || first[..count] == MAGIC[..])
}

/// Tests the file, so that nothing is written beside one that is no database.
pub fn test_file(rt: &HostRuntime, path: &str) -> Result<(), FileFault> {
    if !fs::metadata(rt, path)?.is_file() {
        return Err(FileFault::NotAFile);
    }
    if !has_log(rt, path)? && !begins_well(rt, path)? {
        return Err(FileFault::NotADatabase);
    }
    Ok(())
}
