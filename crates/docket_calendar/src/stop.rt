//! Why a calendar was not written whole.
use docket_tables::ReadFault;

/// Why a calendar was not written whole.
#[derive(Clone, Copy)]
pub enum Stop {
    /// There was not even a first line. Nothing was written.
    NotBegun(ReadFault),
    /// The question failed after the first line. A front of the text went out.
    Broken(ReadFault),
    /// A write failed, or wrote nothing. A front of the text went out.
    WriteFailed,
}
