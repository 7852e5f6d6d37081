//! The calendar of a docket: the deadlines whose time runs, over a range of days, written row by row
//! while the question for them is open.
//!
//! `calendar` asks one question, whose rows come in the order of the calendar. It writes each line before it
//! reads the next row, so its memory does not grow with the lines. By its contract it writes `docket_text`'s
//! calendar of the deadlines of the history that the tables hold. `due_rows` returns the same deadlines as
//! values.
#![tactic(auto)]

mod calendar_of_days;
mod gathering;
mod laws;
mod next;
mod row;
mod sending;
mod stop;

pub use calendar_of_days::calendar;
pub use gathering::due_rows;
pub use laws::calendars_are_in_order;
pub use stop::Stop;
