//! A connection that comes back with a fault.

use sqlite::{Alter, Connection, Error};

/// Why a call that takes a connection did not keep it, and the connection.
#[derive(Drop)]
pub struct Returned<S: Alter, F> {
    pub fault: F,
    /// The error of the database. The making of a docket returns any by which it failed; making and adoption
    /// return out of memory; a migration returns none.
    pub failure: Option<Error>,
    pub connection: Connection<S>,
}
