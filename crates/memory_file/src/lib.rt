//! A file in memory, as a database sees one.
//!
//! What is written is kept at once, so that a sync has nothing to do: a docket that is kept nowhere is served
//! from here. `sqlite_disk::Memory` keeps beside its bytes those of the last sync, which tests of power
//! failures go back to, and copies the whole file at each. A file in memory survives no power failure, and
//! its clauses describe none: it ends with the process that holds it.
#![tactic(auto)]

mod bytes;
mod file;

pub use file::MemoryFile;
