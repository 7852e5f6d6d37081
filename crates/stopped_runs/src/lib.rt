//! Commands over two disks in memory, each of which stops at a call. The next run continues from what is
//! left, and the text of its docket is compared with that of the docket in vectors. The migration of a docket
//! is stopped in the same way; after it the docket has the text that it has without a stop.
#![tactic(auto)]

mod disks;
mod going_on;
mod making;
mod migrating;
mod session;
mod stopping;
mod sweeping;
mod trial;
mod whole_text;

pub use migrating::migrations;
pub use session::sessions;
pub use stopping::stopped;
pub use sweeping::Tally;

/// How many frames of the log are copied into the database at a time where a checkpoint is to be stopped
/// too.
const FEW: usize = 2;

/// A log that is copied into the database after a few frames, so that checkpoints are stopped too.
pub const SHORT_LOG: [usize; 1] = [FEW];

/// The same, and one that is not copied at all.
pub const EACH_LOG: [usize; 2] = [FEW, 1000];

/// More calls than any run here asks of a disk.
const CALLS: u64 = 100_000;
