//! Stored commands played over the docket in vectors, and where their deadlines stand, in words. Tests
//! compare the answers of the docket in a database with these.
#![tactic(auto)]

mod court;
mod deadlines;
pub mod vectors;

pub use court::{ZONE, court_of, eastern_court};
pub use deadlines::{ASKED, CASE, push_deadlines};
