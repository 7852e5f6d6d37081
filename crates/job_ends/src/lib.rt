//! How a job of `docketctl` ends: its exit status, what it still has to print, and the line that says why it
//! failed.
#![tactic(auto)]

mod end;
mod fault;
mod file;
mod messages;
mod outcome;
mod status;

pub use end::JobEnd;
pub use fault::Told;
pub use file::{FileFault, test_file};
pub use messages::{failed, failed_by, no_memory, out_of_memory, write_text};
pub use outcome::{AtPath, done_on_docket};
pub use status::Status;
