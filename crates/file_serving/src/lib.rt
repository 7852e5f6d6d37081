//! The job of `docketctl` that serves the docket in files, from the open to the last connection, as one call:
//! its contract says what is left of the files.
#![tactic(auto)]

mod file;
mod serving;

pub use docket_serving::Place;
pub use file::serve_on_file;
pub use serving::{ServeEnd, Service, Shown};
