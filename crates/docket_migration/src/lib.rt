//! Migrates a docket whose tables are of the first version to the second, in one transaction.
//!
//! `migrate` judges the tables by the first version, as `docket_scan` does, and then changes them. The tables
//! that the first version lacks stand then and hold nothing. The court's row is of the second version, which
//! is the one that is kept (`Version::KEPT`). `change_version` is the change alone. A power failure at any
//! moment leaves the docket in one version or the other (`IsEitherVersion`).
//!
//! For a database whose rows are those of no history, whatever its schema is, the same follows from two
//! checks at run time. Before the transaction no foreign key acts on the court's table; inside it the court's
//! row is the same but for the version. No other row is read twice (`HasMoved`).
#![tactic(auto)]

mod apart;
mod changing;
mod migrating;
mod reading;

pub use changing::change_version;
pub use migrating::migrate;
