//! A docket in files that is adopted for a job, and let go once the job is done.
#![tactic(auto)]

mod adopting;
mod ended;
mod leaving;
mod working;

pub use adopting::adopt;
pub use docket_store::AdoptFault;
pub use ended::{Ended, OnFile, Worked};
pub use leaving::leave;
pub use working::{Work, work_on_file};
