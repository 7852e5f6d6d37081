//! The line of a command that a person enters in words, and what it would do.
//!
//! A case may be named by its label, and a party by its name. The docket says which are meant. The line is one that
//! `run` reads, and a key is made for it where none is given.
#![tactic(auto)]

mod digits;
mod entry;
mod fields;
mod key;
mod laws;
mod line;
mod parties;
mod preparing;
mod sentences;

pub use entry::{Entry, Prepared, Unnamed, Would};
pub use laws::commands_have_their_lines;
pub use preparing::prepared;
pub use sentences::said;
