//! The docket of a history of commands: its rows, its records and what it shows about a command.
//!
//! The history itself is ghost (specs/Histories): which cases, parties, entries, deadlines and acts it
//! has, and which rows the calendar has. This crate has the types of its rows and of the answers about
//! them. It also has what an action names and asks about, the calendar of the present rows, and the
//! lines of a case's deadlines.
#![tactic(auto)]

mod calendar_rows;
mod case_lines;
mod item;
mod record;
mod row;
mod standing;
mod subject;
mod view;

pub use calendar_rows::{calendar_of, rows_added};
pub use case_lines::{close_of_end, close_of_standing, deadline_lines, line_of};
pub use item::{CalendarItem, NewRow, stands_among};
pub use record::{CaseRecord, DeadlineLine, DueRow, EntryRows, PartyRows};
pub use row::{
    ActRow, CalendarRow, CaseRow, Change, DeadlineRow, EntryRow, LocalRuleRow, NewDeadline,
    PartyRow, Receipt, ShortDayRow,
};
pub use standing::StandingCalendar;
pub use subject::{Asks, Subject, row_entered};
pub use view::{Acts, CaseView, DeadlineView, Kept, View, is_served_among, rule_name_asked};
