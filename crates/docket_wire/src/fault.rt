//! Why a text is no command.

ghost use Rattle.std.specs.Prelude.{◌≡◌};
ghost use Rattle.docket_wire.specs.Faults.{in_rows};
ghost use Rattle.docket_wire.specs.declared.fault.WireFault.TheVariants.{NoMemory};

use docket_command::Field;
use std::alloc::{AllocError, AllocFailed};

/// Why a text is no command: the first of these that is true of it, or that memory ran out.
#[derive(Clone, Copy)]
pub enum WireFault {
    /// It is no JSON: not UTF-8, nested deeper than 127, or outside the grammar of RFC 8259.
    NotJson,
    /// It is another JSON value than an object.
    NotAnObject,
    /// Its member `do` is absent or no name of a command.
    UnknownCommand,
    /// The first of the fields that must be there which is absent or null.
    MissingField(Field),
    /// The first of the fields that is of another type, form or word.
    WrongField(Field),
    /// It has a member that is no field of the command.
    UnknownField,
    /// Memory ran out.
    NoMemory,
}

impl WireFault {
    /// The fault of a list of rows one of which has this fault.
    pub(crate) fn in_rows(self) -> WireFault
        ensures { result ≡ in_rows self }
    {
        match self {
            WireFault::NoMemory => WireFault::NoMemory,
            _ => WireFault::WrongField(Field::Rows),
        }
    }
}

impl From<AllocError> for WireFault {
    ghost from_gives = { λ _ e. e ≡ NoMemory };

    fn from(_e: AllocError) -> WireFault {
        WireFault::NoMemory
    }
}

impl<T: Drop> From<AllocFailed<T>> for WireFault {
    ghost from_gives = { λ _ e. e ≡ NoMemory };

    fn from(_e: AllocFailed<T>) -> WireFault {
        WireFault::NoMemory
    }
}
