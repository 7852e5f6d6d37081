//! Why a database is not taken for a docket.
ghost use Rattle.std.specs.Prelude.{◌≡◌};
ghost use Rattle.docket_scan.specs.Judging.{fault_in};

use docket_tables::Table;
use sqlite::{Error, ErrorCode};
use std::alloc::AllocError;

/// Why a database was not adopted.
#[derive(Clone, Copy)]
pub enum AdoptFault {
    /// There is no table of a court, or none that can be read.
    Empty,
    /// The table of the court lacks a column, or does not hold one row with a docket's mark.
    NotADocket,
    /// The tables are laid out in another version.
    OtherVersion,
    /// The first table, in their order, that is unsound.
    Damaged(Table),
    NoMemory,
    /// The database failed, or a transaction is open on it.
    StoreFailed,
}

impl From<AllocError> for AdoptFault {
    ghost use Rattle.std.specs.Prelude.{◌≡◌};
    ghost use Rattle.docket_scan.specs.declared.fault.AdoptFault.TheVariants.{NoMemory};

    ghost from_gives = { λ _ fault. fault ≡ NoMemory };

    fn from(_: AllocError) -> AdoptFault {
        AdoptFault::NoMemory
    }
}

/// Returns the fault for an error in the reading of a table. A table that no statement can read is unsound.
pub(crate) fn fault_in(table: Table, error: Error) -> AdoptFault
    ensures { result ≡ fault_in table error }
{
    match error {
        Error::SqlInputError(_) => AdoptFault::Damaged(table),
        Error::SqliteFailure(ErrorCode::TypeMismatch) => AdoptFault::Damaged(table),
        Error::SqliteFailure(ErrorCode::IntegerOverflow) => AdoptFault::Damaged(table),
        Error::SqliteFailure(ErrorCode::OutOfMemory) => AdoptFault::NoMemory,
        _ => AdoptFault::StoreFailed,
    }
}
