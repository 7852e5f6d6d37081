//! The two files of a database. Where they hold none yet, one is made, with pages of 1,024 bytes. A commit
//! writes whole pages, and takes a digest of each, so smaller pages make it faster. The kit makes pages of
//! 4,096 bytes alone. Files that hold a database are opened as they are, whatever its pages.
#![tactic(auto)]

mod making;
mod opening;

pub use opening::open_files;
