//! Why a run ended early.
ghost use Rattle.std.specs.Prelude.{◌≡◌};
ghost use Rattle.line_io.specs.declared.ending.LineFault.TheVariants as line;
ghost use Rattle.command_lines.specs.Ending.{run_fault};

use docket_store::Fault;
use line_io::LineFault;
use std::fmt;

/// Why a run ended before its input did. What was written is a front of its answers.
#[derive(Clone, Copy)]
pub enum RunFault {
    /// A read failed, or 4,294,967,295 reads came to no end.
    ReadFailed,
    /// A write failed or took nothing.
    WriteFailed,
    NoMemory,
    /// The docket failed: `StoreFailed`, `Closed` or `Damaged`.
    Store(Fault),
}

/// Returns why a run ends at a line that was not answered.
fn unanswered(fault: Fault) -> RunFault
    ensures { result ≡ run_fault (line.Unanswered fault) }
{
    match fault {
        Fault::NoMemory => RunFault::NoMemory,
        Fault::Refused(refusal) => RunFault::Store(Fault::Refused(refusal)),
        Fault::StoreFailed => RunFault::Store(Fault::StoreFailed),
        Fault::Closed => RunFault::Store(Fault::Closed),
        Fault::Damaged => RunFault::Store(Fault::Damaged),
    }
}

impl From<LineFault<Fault>> for RunFault {
    ghost use Rattle.std.specs.Prelude.{◌≡◌};
    ghost use Rattle.command_lines.specs.Ending.{run_fault};

    ghost from_gives = { λ fault result. result ≡ run_fault fault };

    fn from(fault: LineFault<Fault>) -> RunFault {
        match fault {
            LineFault::ReadFailed => RunFault::ReadFailed,
            LineFault::WriteFailed => RunFault::WriteFailed,
            LineFault::NoMemory => RunFault::NoMemory,
            LineFault::Unanswered(fault) => unanswered(fault),
        }
    }
}

impl fmt::Display for RunFault {
    fn fmt<W: fmt::Write>(&self, f: &mut fmt::Formatter<W>) -> fmt::Result {
        match self {
            RunFault::ReadFailed => f.write_str("the input could not be read"),
            RunFault::WriteFailed => f.write_str("the output could not be written"),
            RunFault::NoMemory => f.write_str("there is not enough memory"),
            RunFault::Store(fault) => fault.fmt(f),
        }
    }
}
