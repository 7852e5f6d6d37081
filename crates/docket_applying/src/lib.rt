//! What a docket's tables answer, and all that a command changes in them, on a connection.
//!
//! A command is three steps. `view` shows a docket as the command needs it, where `is_sound` tests whether a
//! history can show that. Then the command is decided. `write` makes the changes of an accepted one, adds its
//! receipt and updates the stored ends of deadlines in one transaction, all of it or nothing. `apply_to` does
//! the three, and `decide_on` only decides. `case_record`, `lines_numbered`, `due_days`, `grounds_of` and `list_days` answer questions
//! about a case, a deadline and the calendar. The tables and their statements are those of `docket_tables`;
//! `docket_store` keeps the connection, from its opening to its end.
//!
//! Each takes with the connection the court calendar that is kept beside it (`kept`: nothing, until it was
//! read), and keeps there what it reads. An accepted command that changes the calendar empties it. If the
//! answer is `StoreFailed`, `failure` has the error of the database.
#![tactic(auto)]

mod applying;
mod asking;
mod cases;
mod due;
mod explaining;
mod fault;
mod gathering;
mod judging;
mod listing;
mod settling;
mod sound;
mod stored_lines;
mod viewing;
mod writing;

pub use applying::apply_to;
pub use asking::lines_numbered;
pub use cases::case_record;
pub use due::due_days;
pub use explaining::{Grounds, grounds_of};
pub use fault::{Fault, closing_error, read_fault};
pub use judging::decide_on;
pub use listing::{CalendarEnd, ListingEnd, breaking_error, list_days};
pub use sound::{is_sound_calendar, is_sound_case};
pub use writing::write;
