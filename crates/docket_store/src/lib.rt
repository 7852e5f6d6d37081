//! The docket of a court in a database, from its making or its adoption to its end. `Docket` has the
//! connection, the court calendar in memory, and why it closed; each command and question is that of
//! `docket_applying`. What a power failure leaves of the database is a docket. Any database whose tables are
//! all sound is adopted; one of the first version of the tables is migrated to the second.
#![tactic(auto)]

mod adopting;
mod creating;
mod docket;
mod files;
mod laws;
mod migrating;
mod questions;
mod recovering;
mod reopening;
mod returned;
mod sequence;
mod sessions;

pub use creating::CreateFault;
pub use docket::Docket;
pub use docket_applying::{CalendarEnd, Fault, Grounds, ListingEnd};
pub use docket_columns::Version;
pub use docket_scan::{AdoptFault, Holdings, Unwatched, Watch};
pub use laws::courts_begin_without_a_record;
pub use migrating::MigrateFault;
pub use recovering::{RecoverFault, apply_again, recover};
pub use reopening::{
    plain_files_have_sums, power_failures_leave_dockets, reopen, reopen_from, stop,
};
pub use returned::Returned;
pub use sequence::{answer, apply_all};
pub use sessions::{SessionEnd, session};
