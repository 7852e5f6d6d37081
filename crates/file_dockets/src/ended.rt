//! How a job on a docket ended.

use docket_store::{AdoptFault, Returned};
use sqlite::{Alter, Connection, Error, FileFrom, Leftover};
use sqlite_disk::Disk;

/// How a job on the docket of a database ended, and the connection that it returns.
#[derive(Drop)]
pub struct Worked<S: Alter, T, F> {
    pub outcome: Result<T, F>,
    /// The error of the database, where it is reported with a fault.
    pub failure: Option<Error>,
    pub connection: Connection<S>,
}

impl<S: Alter, T, F> From<Returned<S, F>> for Worked<S, T, F> {
    ghost use Rattle.std.specs.Prelude.{◌≡◌, Err};

    ghost from_gives = { λ returned worked. (worked.outcome ≡ Err returned.fault) × (worked.connection ≡ returned.connection) × (worked.failure ≡ returned.failure) };

    fn from(returned: Returned<S, F>) -> Worked<S, T, F> {
        Worked {
            outcome: Err(returned.fault),
            failure: returned.failure,
            connection: returned.connection,
        }
    }
}

/// How a job on the docket in two files ended, and what is left of the files.
#[derive(Drop)]
pub struct Ended<D: Disk, T, F> {
    pub outcome: Result<T, F>,
    /// The error of the database, where it is reported with a fault.
    pub failure: Option<Error>,
    pub left: Leftover<D>,
}

/// How a job ended, or why the files were not opened.
pub type OnFile<S, T, F = AdoptFault> = Result<
    Ended<FileFrom<S>, T, F>,
    (Error, Option<Leftover<FileFrom<S>>>),
>;
