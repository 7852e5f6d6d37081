//! Reports how far the judging of a database has come, for a person who waits for it.

/// Receives a report of each row that is read. The result does not depend on it.
pub trait Watch {
    /// Another row was read, of whatever table.
    fn on_row(&mut self);
}

/// Nobody waits.
#[derive(Clone, Copy)]
pub struct Unwatched;

impl Watch for Unwatched {
    fn on_row(&mut self) {}
}
