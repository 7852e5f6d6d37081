//! Whether the rows of a docket's tables are sound, whatever database they come from.
//!
//! There is a check for each table. It takes the rows one after another, in the order of their keys, and
//! keeps what it needs of them. These are each case's row count, labels of cases, names of local rules, the
//! calendar, the acts of one deadline, and the ends of the deadlines whose time runs. A check that refuses a
//! row shows that no table with the rows so far, and that row next, is sound. One that took all rows shows
//! that they are sound; the checks of acts and of ends return this at the end, since a row may be missing.
#![tactic(auto)]

mod act;
mod calendar;
mod cases;
mod court;
mod deadline;
mod due;
mod entry;
mod known_texts;
mod laws;
mod local_rule;
mod numbering;
mod party;
mod receipt;
mod short_day;
mod standings;

pub use act::ActCheck;
pub use calendar::CalendarCheck;
pub use cases::CaseCheck;
pub use court::{CourtRecord, sound_court};
pub use deadline::DeadlineCheck;
pub use due::DueCheck;
pub use entry::EntryCheck;
pub use known_texts::KnownTexts;
pub use laws::{
    histories_are_sound, short_days_move_nothing, sorted_histories_are_sound,
    stored_ends_are_expected,
};
pub use local_rule::{LocalRuleCheck, is_local_rule};
pub use numbering::{Key, Numbering};
pub use party::PartyCheck;
pub use receipt::{ReceiptCheck, ReceiptRecord};
pub use short_day::ShortDayCheck;
pub use standings::Standings;
