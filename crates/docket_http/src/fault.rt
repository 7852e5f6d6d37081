//! Why a connection was not answered whole.
use std::fmt;

/// Why no answer went out, or not a whole one.
#[derive(Clone, Copy, PartialEq, Eq)]
pub enum ServeFault {
    /// A read failed. Nothing was written.
    ReadFailed,
    /// A write failed, or wrote nothing. A front of the answer went out.
    WriteFailed,
    /// The input ended before the request did. Nothing was written.
    EndedEarly,
    /// A calendar stopped in the middle because memory ran out.
    NoMemory,
    /// A calendar stopped in the middle because the database failed.
    StoreFailed,
    /// The request asks for a copy of the file in which the docket is kept. Nothing was written: the caller
    /// sends the copy (`send_copy`).
    CopyWanted,
}

impl fmt::Display for ServeFault {
    fn fmt<W: fmt::Write>(&self, f: &mut fmt::Formatter<W>) -> fmt::Result {
        f.write_str(match self {
            ServeFault::ReadFailed => "a request could not be read",
            ServeFault::WriteFailed => "an answer could not be written",
            ServeFault::EndedEarly => "a request ended early",
            ServeFault::NoMemory => "there was not enough memory for the rest of an answer",
            ServeFault::StoreFailed => "the database failed in the middle of an answer",
            ServeFault::CopyWanted => "a copy of the docket is asked for",
        })
    }
}
