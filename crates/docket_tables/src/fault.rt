//! Why a question got no answer, and why a transaction did not stand.
use sqlite::Error;
use std::alloc::{AllocError, AllocFailed};

/// Why a question got no answer.
#[derive(Clone, Copy)]
pub enum ReadFault {
    /// The database failed, or memory ran out in it.
    Store(Error),
    NoMemory,
    /// A row is not one of a docket.
    Damaged,
}

/// Why a transaction did not stand.
#[derive(Clone, Copy)]
pub enum StoreFault {
    NoMemory,
    /// The database failed. It may be shut.
    StoreFailed,
}

impl From<Error> for ReadFault {
    ghost use Rattle.std.specs.Prelude.{◌≡◌};
    ghost use Rattle.docket_tables.specs.declared.fault.ReadFault.TheVariants.{Store};

    ghost from_gives = { λ e fault. fault ≡ Store e };

    fn from(error: Error) -> ReadFault {
        ReadFault::Store(error)
    }
}

impl From<AllocError> for ReadFault {
    ghost use Rattle.std.specs.Prelude.{◌≡◌};
    ghost use Rattle.docket_tables.specs.declared.fault.ReadFault.TheVariants.{NoMemory};

    ghost from_gives = { λ _ fault. fault ≡ NoMemory };

    fn from(_: AllocError) -> ReadFault {
        ReadFault::NoMemory
    }
}

impl<T: Drop> From<AllocFailed<T>> for ReadFault {
    ghost use Rattle.std.specs.Prelude.{◌≡◌};
    ghost use Rattle.docket_tables.specs.declared.fault.ReadFault.TheVariants.{NoMemory};

    ghost from_gives = { λ _ fault. fault ≡ NoMemory };

    fn from(_: AllocFailed<T>) -> ReadFault {
        ReadFault::NoMemory
    }
}
