//! A new docket in a database.
ghost use Rattle.std.specs.Prelude.{◌≡◌, ◌≤◌, [], false, None, Err, IsTrue, OnOk, IfErr};
ghost use Rattle.sqlite.specs.Held.{state};
ghost use Rattle.sqlite.specs.State.{HasCleanDisk};
ghost use Rattle.sqlite.specs.View.{doubt};
ghost use Rattle.docket_tables.specs.Recognition.{has_docket_table};
ghost use Rattle.docket_applying.specs.Applying.{StandsFor};
ghost use Rattle.docket_store.specs.Causes.{IsCausedCreating};
ghost use Rattle.docket_store.specs.Opening.{IsNotMade};
ghost use Rattle.docket_store.specs.declared.creating.CreateFault.TheVariants as fault;

use court_days::Court;
use docket_tables::{StoreFault, has_docket_table, is_bare, make};
use sqlite::{Alter, Connection, Error};
use std::fmt;

/// Why no docket was made.
#[derive(Clone, Copy)]
pub enum CreateFault {
    /// There is a table of a docket. Nothing was done.
    NotEmpty,
    /// Nothing was made.
    NoMemory,
    /// The database failed, or it holds something that is not a docket, or a transaction is open on it. A
    /// power failure leaves it as it was, or with the docket.
    StoreFailed,
}

impl fmt::Display for CreateFault {
    fn fmt<W: fmt::Write>(&self, f: &mut fmt::Formatter<W>) -> fmt::Result {
        f.write_str(match self {
            CreateFault::NotEmpty => "the database holds a docket",
            CreateFault::NoMemory => "there is not enough memory",
            CreateFault::StoreFailed => "the docket could not be made in the database",
        })
    }
}

/// Makes the tables of a docket without any record. If the database fails or memory runs out, the error of
/// the database is stored in the failure.
pub(crate) fn make_docket<S: Alter>(
    conn: &mut Connection<S>,
    court: &Court,
    failure: &mut Option<Error>,
) -> Result<(), CreateFault>
    requires { failure.old ≡ None }
    ensures idle { OnOk result (conn.new.in_transaction ≡ false) }
    ensures clean { doubt (state S.Store conn.old).is_clean ≤ doubt (state S.Store conn.new).is_clean }
    ensures made { OnOk result (StandsFor S.Store conn.new court.now []) }
    ensures empty { OnOk result (has_docket_table conn.old.schema ≡ false) }
    ensures full { IsTrue (has_docket_table conn.old.schema) → result ≡ Err fault.NotEmpty }
    ensures fault { IfErr result (IsNotMade S.Store conn.old conn.new court.now) }
    ensures cause { HasCleanDisk (state S.Store conn.new)
        → IfErr result (IsCausedCreating (state S.Store conn.old) (state S.Store conn.new) failure.new) }
{
    if has_docket_table(conn.schema()) {
        return Err(CreateFault::NotEmpty);
    }
    if !conn.is_autocommit() || !is_bare(conn.schema()) {
        return Err(CreateFault::StoreFailed);
    }
    match make(conn, court, failure) {
        Ok(()) => Ok(()),
        Err(StoreFault::NoMemory) => Err(CreateFault::NoMemory),
        Err(StoreFault::StoreFailed) => Err(CreateFault::StoreFailed),
    }
}
