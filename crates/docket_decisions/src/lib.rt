//! The decision on a command: the refusals in their order, the rows that an accepted command changes,
//! where the stored ends of deadlines move by it, and its reply.
#![tactic(auto)]

mod changes;
mod deadline;
mod decision;
mod end_row;
mod lacking;
mod laws;
mod moving;
mod refusals;

pub use decision::{Changes, DecideFault, Decision, decide};
pub use end_row::{
    EndChange, EndTime, StoredEnd, after_first, due_changes, end_running, first_end,
};
pub use laws::{
    acts_are_in_order, limits_are_kept, rows_are_numbered_in_order, rows_stand_until_withdrawn,
    short_days_move_no_deadline,
};
pub use moving::EndUpdate;
