//! A docket in vectors, as a history of commands. Rows are found by linear search.
#![tactic(auto)]

mod plain;
mod reading;
mod vectors;
mod viewing;

pub use plain::{Plain, apply_all};
