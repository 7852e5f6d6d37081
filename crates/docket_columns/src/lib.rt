//! How each row of the docket's tables is laid out in columns of SQL.
#![tactic(auto)]

mod act;
mod calendar;
mod cases;
mod cell;
mod codes;
mod court;
mod deadline;
mod end;
mod entry;
mod local_rule;
mod party;
mod receipt;
mod short_day;
mod stored;
mod version;

pub use act::{act_of, act_values};
pub use calendar::{calendar_of, calendar_values};
pub use cases::{case_of, case_values};
pub use cell::{count_at, text_at};
pub use court::{CourtRow, court_of, court_values, has_word, is_of_version};
pub use deadline::{deadline_of, deadline_values};
pub use end::{end_of, end_time_at, end_values};
pub use entry::{entry_of, entry_values};
pub use local_rule::{local_name_of, local_rule_of, local_rule_values};
pub use party::{party_of, party_values};
pub use receipt::{kept_by, receipt_values, reply_of};
pub use short_day::{short_day_of, short_day_values};
pub use stored::StoredRow;
pub use version::Version;
