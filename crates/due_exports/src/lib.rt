//! The deadlines that fall due, in the formats of other programs: iCalendar (RFC 5545), a page of HTML, a
//! table of comma-separated values (RFC 4180), and JSON (RFC 8259).
//!
//! An export is its head, then an entry a deadline, and its foot. A caller joins them.
#![tactic(auto)]

mod end_texts;
mod event;
mod export;
mod form;
mod laws;
mod object;
mod record;

pub use export::{Entry, export_entry, export_foot, export_head, tells_reasons};
pub use form::Form;
pub use laws::{calendars_are_folded, objects_are_read_back, records_are_read_back};
