//! Deadlines as iCalendar text (RFC 5545): values of the type TEXT, content lines, dates and instants in
//! UTC, events, and the text around them.
#![tactic(auto)]

mod content_line;
mod event;
mod laws;
mod text_value;
mod time;

pub use content_line::{push_line, text_property};
pub use event::{Event, calendar_foot, calendar_head, event_text};
pub use laws::{
    events_are_lines, lines_are_folded, texts_are_folded, times_are_told, values_are_read_back,
};
