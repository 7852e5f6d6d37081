//! The lines of `run`: commands of the docket as JSON, each answered by the docket that the lines
//! before it left.
#![tactic(auto)]

mod clerk;
mod fault;
mod run;

pub use clerk::Clerk;
pub use fault::RunFault;
pub use line_io::CountEnd;
pub use run::command_run;
