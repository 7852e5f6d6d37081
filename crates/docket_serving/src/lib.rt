//! A docket served on a listener: one connection after the other, one request each.
//!
//! No peer holds the docket: a connection is attended to once its request has come, and the others wait beside
//! it, at most ten seconds from the first byte on. Writing an answer to a peer may take as long. A fault of one
//! connection is reported in a line, and the next is served. Where pages are shown, copies of the docket are sent
//! too. Each connection has a number: the nanoseconds of the clock, or one more than the last number where the
//! clock does not go on. A page of today takes its day from that, and a form its key.
#![tactic(auto)]

mod caller;
mod connections;
mod copying;
mod desk;
mod laws;
mod listening;
mod number;
mod parting;
mod serving;
mod waiting;

pub use connections::{Attendant, Connections};
pub use desk::Desk;
pub use docket_copies::DocketFiles;
pub use docket_http::Routes;
pub use laws::who_changes_a_docket_is_let_through;
pub use listening::Listening;
pub use patient_stream::{Listener, Place};
pub use serving::{ServingFault, serve_run};
