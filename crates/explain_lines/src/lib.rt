//! The lines of `explain`: those of `count`, each that asks for an end answered by the steps by
//! which that end is found.
#![tactic(auto)]

mod explain;
mod laws;
mod start;

pub use count_lines::{CountEnd, RunFault};
pub use explain::explain_run;
pub use laws::ends_are_those_of_count;
