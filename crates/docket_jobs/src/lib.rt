//! The command line of `docketctl`: what its words ask for, and what `--help` prints.
#![tactic(auto)]

mod argument;
mod command_line;
mod day_jobs;
mod entering;
mod entry_line;
mod help;
mod job;
mod line;
mod number;
mod serving;
mod value;
mod value_name;
mod verb;

pub use job::{Job, read_job};
