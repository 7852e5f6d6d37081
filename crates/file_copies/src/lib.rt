//! Copies of a file under a name that is free, for back-ups. The copy is whole under its name, or nothing is
//! there, also after a kill or a power failure. No clause can describe the bytes of files. That a copy holds
//! those of its file, and what a kill leaves, is tested by `checks/backup` and not proved. The proofs cover
//! the names of the files, and that `pour` writes all that its reader had, where the bytes of both are known.
#![tactic(auto)]

mod copying;
mod fault;
mod names;
mod pouring;

pub use copying::{copy_file, is_free};
pub use fault::CopyFault;
pub use names::{file_of_log, folder_of, name_beside};
pub use pouring::pour;
