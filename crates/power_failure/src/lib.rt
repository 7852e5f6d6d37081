//! The promise of a docket over whole runs. Stopped before or within any write and reopened, the docket is
//! the one that a prefix of the accepted commands defines. This prefix holds every acknowledged command, and
//! at most the one under way besides.
#![tactic(auto)]

mod failing;
mod running;
mod telling;

pub use failing::fail_power;
pub use running::{
    Interrupted, NotReopened, Reopened, reopen_after_power_failure, run_until_power_fails,
};
pub use telling::{Question, TellFault, Told, Untold, tell, tell_after_power_failure};
