//! Why a run ended early.

use line_io::LineFault;
use std::alloc::AllocError;
use std::fmt;

/// Why a run ended before its input did. What was written is a front of its answers.
#[derive(Clone, Copy, PartialEq, Eq)]
pub enum RunFault {
    /// A read failed, or 4,294,967,295 reads came to no end.
    ReadFailed,
    /// A write failed or took nothing.
    WriteFailed,
    NoMemory,
}

impl From<LineFault<AllocError>> for RunFault {
    fn from(fault: LineFault<AllocError>) -> RunFault {
        match fault {
            LineFault::ReadFailed => RunFault::ReadFailed,
            LineFault::WriteFailed => RunFault::WriteFailed,
            LineFault::NoMemory | LineFault::Unanswered(_) => RunFault::NoMemory,
        }
    }
}

impl fmt::Display for RunFault {
    fn fmt<W: fmt::Write>(&self, f: &mut fmt::Formatter<W>) -> fmt::Result {
        f.write_str(match self {
            RunFault::ReadFailed => "the input could not be read",
            RunFault::WriteFailed => "the output could not be written",
            RunFault::NoMemory => "there is not enough memory",
        })
    }
}
