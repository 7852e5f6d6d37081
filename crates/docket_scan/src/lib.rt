//! The tables of a docket, read from any database whose store is clean, and judged in their order.
//!
//! A table is read by one statement, row by row, and each row is passed to the check of that table
//! (`docket_sound`), so that no row is kept. `find_docket` returns the court and how much the sound tables of
//! a version hold, or the first cause for which a database is not a docket. The causes are: there is no
//! court, it lacks a docket's mark, or its version is another. Or a table of the version is missing, lacks a
//! column, can't be read or is unsound by those before it. A deadline may have a local name that is in the
//! table of local rules, whether or not that table is sound. So the names in it are read before. It writes
//! nothing. A docket of this program is found as it is.
#![tactic(auto)]

mod check;
mod checks;
mod court;
mod fault;
mod finding;
mod holdings;
mod judging;
mod names;
mod reading;
mod receipt;
mod scan;
mod shape;
mod taker;
mod watch;

pub use fault::AdoptFault;
pub use finding::{FoundDocket, find_docket};
pub use holdings::Holdings;
pub use receipt::StoredReceipt;
pub use shape::{has_named, has_table};
pub use watch::{Unwatched, Watch};
