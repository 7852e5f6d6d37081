//! The jobs of `docketctl` that make the docket in files, change it or answer lines of commands by it, each
//! from the open to the last byte that it leaves. A job is one call. Its contract says what it writes, by
//! what the files held, and what is left of them.
#![tactic(auto)]

mod creating;
mod entering;
mod file;
mod importing;
mod migrating;
mod running;

pub use entering::Entered;
pub use file::{apply_on_file, create_on_file, enter_on_file, migrate_on_file, run_on_file};
