//! The order of the rows of a docket, whatever holds them. Each row holds what its type holds. The cases are
//! numbered from 1 without gaps, so are the parties, entries and deadlines of a case, the acts of a deadline
//! and the local rules. The numbers of calendar rows rise. A key has one receipt at most, a name one local
//! rule.
//!
//! A function that reads the rows from tables relies on it: the answer to a question in the order of a key is
//! then the list that a history has.
#![tactic(auto)]

mod laws;

pub use laws::dockets_are_orderly;
