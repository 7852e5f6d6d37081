//! Why a copy was not made.
ghost use Rattle.std.specs.Prelude.{◌≡◌};
ghost use Rattle.std.specs.IoError.{error_kind};

use std::io::{Error, ErrorKind};
use std::{fmt, io};

/// Why a copy was not made. Under its name there is then only what was there before, and what `LeftPart`
/// and `NotSynced` describe.
#[derive(Clone, Copy, Debug, PartialEq, Eq)]
pub enum CopyFault {
    /// Something has the name of the copy.
    Exists,
    /// The file to copy has the name of the copy, or one of those that belong to it.
    IsSource,
    /// Something has the name of the unfinished copy, such as one that a kill left.
    PartExists,
    /// By its name SQLite would take the copy for the log or the journal of a file.
    IsLog,
    /// Something has the name of its log or of its journal, which SQLite would read into the copy.
    LogExists,
    /// The folder of the copy is missing, or is no folder.
    NoFolder,
    /// Nothing may be made in the folder.
    NotAllowed,
    /// The disk of the copy knows no hard links.
    NoLinks,
    /// Another program took the unfinished copy away, or put another file in its place.
    Disturbed,
    /// The file that is copied could not be read.
    ReadFailed,
    WriteFailed,
    Full,
    NoMemory,
    /// The copy is whole under its name, and has a second name.
    LeftPart,
    /// The copy is whole under its name, which a power failure may still remove.
    NotSynced,
}

impl CopyFault {
    /// Why the copy could not be made or written.
    pub(crate) fn of_writing(error: &Error) -> CopyFault
        ensures full { error_kind error.now ≡ ErrorKind.StorageFull → result ≡ CopyFault.Full }
        ensures memory { error_kind error.now ≡ ErrorKind.OutOfMemory → result ≡ CopyFault.NoMemory }
    {
        match error.kind() {
            ErrorKind::StorageFull | ErrorKind::QuotaExceeded => CopyFault::Full,
            ErrorKind::OutOfMemory => CopyFault::NoMemory,
            ErrorKind::NotFound | ErrorKind::NotADirectory => CopyFault::NoFolder,
            ErrorKind::PermissionDenied | ErrorKind::ReadOnlyFilesystem => CopyFault::NotAllowed,
            _ => CopyFault::WriteFailed,
        }
    }

    /// Why the finished copy could not be given its name.
    pub(crate) fn of_naming(error: &Error) -> CopyFault
        ensures taken { error_kind error.now ≡ ErrorKind.AlreadyExists → result ≡ CopyFault.Exists }
    {
        match error.kind() {
            ErrorKind::AlreadyExists => CopyFault::Exists,
            ErrorKind::PermissionDenied | ErrorKind::Unsupported => CopyFault::NoLinks,
            _ => CopyFault::of_writing(error),
        }
    }
}

impl fmt::Display for CopyFault {
    fn fmt<W: fmt::Write>(&self, f: &mut fmt::Formatter<W>) -> fmt::Result {
        f.write_str(match self {
            CopyFault::Exists => "it is there already, and nothing is copied over it",
            CopyFault::IsSource => {
                "the file to copy has this name, or this name with .part, -wal or -journal behind it"
            }
            CopyFault::PartExists => {
                "something has its name, with .part behind it, perhaps left by a copy that was killed"
            }
            CopyFault::IsLog => {
                "by its name SQLite would take it for a log or a journal of a file that is there"
            }
            CopyFault::LogExists => {
                "a log or a journal of SQLite has its name, with -wal or -journal behind it"
            }
            CopyFault::NoFolder => "there is no such folder",
            CopyFault::NotAllowed => "it may not be made there",
            CopyFault::NoLinks => "its disk knows no hard links",
            CopyFault::Disturbed => "another program changed the unfinished copy",
            CopyFault::ReadFailed => "the file to copy could not be read",
            CopyFault::WriteFailed => "it could not be written",
            CopyFault::Full => "the disk is full",
            CopyFault::NoMemory => "there is not enough memory",
            CopyFault::LeftPart =>
                "it is copied, but its second name, with .part behind it, stands",
            CopyFault::NotSynced => "it is copied, but a power failure may take it away",
        })
    }
}
