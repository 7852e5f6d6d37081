//! The jobs of `docketctl`, each over any reader and writers in the place of the standard streams.
#![tactic(auto)]

mod asking;
mod backup;
mod calendar;
mod cases;
mod check;
mod clock;
mod command;
mod create;
mod ending;
mod entering;
mod explain;
mod holdings;
mod holiday;
mod import;
mod job;
mod kinds;
mod migrate;
mod opening;
mod progress;
mod rules;
mod serving;
mod text;

pub use ending::{fail_unread, finish};
pub use job::run_job;
pub use job_ends::{JobEnd, Status};
pub use progress::Progress;
