//! The lines of `count`: days entered, and the ends of periods, each line answered by what the
//! lines before it entered.
#![tactic(auto)]

mod answer;
mod count;
mod fault;
mod laws;
mod request;

pub use count::{Counter, count_run, may_begin};
pub use fault::RunFault;
pub use laws::lines_are_read_as_spelled;
pub use line_io::CountEnd;
pub use request::{Request, read_request};
