//! A docket, taken from the first version of the tables to the second.
ghost use Rattle.std.specs.Prelude.{◌≡◌};

use docket_scan::AdoptFault;
use docket_tables::{Table, table_name};
use std::fmt;

/// Why a docket was not migrated.
#[derive(Clone, Copy)]
pub enum MigrateFault {
    /// There is no table of a court, or none that can be read.
    Empty,
    /// The table of the court lacks a column, or does not hold one row with a docket's mark.
    NotADocket,
    /// The tables are not laid out in the first version.
    OtherVersion,
    /// The first table, in their order, that is unsound.
    Damaged(Table),
    /// Nothing was changed.
    NoMemory,
    /// The database failed, or a transaction is open on it. A power failure leaves the docket in the first
    /// version or in the second.
    StoreFailed,
}

impl From<AdoptFault> for MigrateFault {
    ghost use Rattle.std.specs.Prelude.{◌≡◌};
    ghost use Rattle.docket_store.specs.Migrating.{cause_of};

    ghost from_gives = { λ fault result. cause_of result ≡ fault };

    fn from(fault: AdoptFault) -> MigrateFault {
        match fault {
            AdoptFault::Empty => MigrateFault::Empty,
            AdoptFault::NotADocket => MigrateFault::NotADocket,
            AdoptFault::OtherVersion => MigrateFault::OtherVersion,
            AdoptFault::Damaged(table) => MigrateFault::Damaged(table),
            AdoptFault::NoMemory => MigrateFault::NoMemory,
            AdoptFault::StoreFailed => MigrateFault::StoreFailed,
        }
    }
}

impl fmt::Display for MigrateFault {
    fn fmt<W: fmt::Write>(&self, f: &mut fmt::Formatter<W>) -> fmt::Result {
        match self {
            MigrateFault::Empty => f.write_str("the database holds no docket"),
            MigrateFault::NotADocket => f.write_str("the database is not that of a docket"),
            MigrateFault::OtherVersion => f.write_str("the docket is not in version 1"),
            MigrateFault::Damaged(table) => write!(
                f,
                "the table {} is not sound",
                table_name(*table)
            ),
            MigrateFault::NoMemory => f.write_str("there is not enough memory"),
            MigrateFault::StoreFailed => f.write_str(
                "the docket could not be migrated in the database",
            ),
        }
    }
}
