//! The formats.

/// The format of an export.
#[derive(Clone, Copy)]
pub enum Form {
    /// iCalendar, an event a deadline.
    Calendar,
    /// A page of HTML.
    Html,
    /// Comma-separated values, a record a deadline.
    Csv,
    /// A JSON array, an object a deadline.
    Json,
}
