//! Connections of this machine, taken at a port or at the socket of a file, that wait for a peer only so
//! long. A reader and a writer each have a patience of their own for all that they read or write. So nobody
//! who is slow or silent holds up those behind.
#![tactic(auto)]

mod listener;
mod patience;
mod place;
mod reader;
mod socket_file;
mod stream;
mod writer;

pub use listener::Listener;
pub use place::Place;
pub use reader::PatientReader;
pub use stream::{Stream, TimedStream};
pub use writer::PatientWriter;
