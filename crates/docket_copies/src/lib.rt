//! A copy of a docket that is open: the bytes of one file, which alone is that docket.
//!
//! While a docket is served its two files, the database and its log, are locked, and the last commands may be
//! in the log alone. So both are read as they are between two commands, and opened once more in memory, as
//! after a kill. The log is copied into the database, whose tables are judged as by `adopt`. The docket that is
//! served is not touched.
#![tactic(auto)]

mod copying;
mod fault;
mod files;

pub use copying::sound_copy;
pub use fault::NoCopy;
pub use files::DocketFiles;
