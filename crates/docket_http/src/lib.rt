//! One connection to a docket: one request of HTTP/1.0 or 1.1, one answer.
//!
//! A command comes as a line of JSON or in a form of a browser. Both are applied by one function: a program gets
//! the outcome as JSON, and a browser is led to the page of what has changed (status 303), or gets its form again.
//! A preview gets its form again with what the command would do, and writes nothing.
//!
//! The bytes written are the answer to the bytes read, in whatever pieces the request came. The docket then
//! holds the history that the answer reports. A request that is refused by its head asks nothing of the
//! docket. The answer to it takes no memory, except for a page.
#![tactic(auto)]

mod answering;
mod asking;
mod calendar;
mod commands;
mod copies;
mod dues;
mod failure;
mod fault;
mod head;
mod laws;
mod moment;
mod place;
mod previews;
mod problem;
mod refusing;
mod reply;
mod sending;
mod serve;
mod writing;

pub use copies::send_copy;
pub use docket_store::Docket;
pub use fault::ServeFault;
pub use http_request::Routes;
pub use laws::commands_are_let_through;
pub use sending::Served;
pub use serve::serve_one;
