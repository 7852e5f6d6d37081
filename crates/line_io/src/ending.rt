//! How a run over lines ends.

/// How many lines were answered, and how many of the answers count as bad.
#[derive(Clone, Copy, PartialEq, Eq)]
pub struct CountEnd {
    /// The lines that were answered.
    pub lines: u64,
    /// Those of them whose answer the `Answerer` counts as bad.
    pub bad: u64,
}

/// Why a run over lines ended before its input did. `E` is why an `Answerer` may fail.
#[derive(Clone, Copy, PartialEq, Eq)]
pub enum LineFault<E> {
    /// A read failed, or 4,294,967,295 reads did not reach the end.
    ReadFailed,
    /// A write failed, or took nothing.
    WriteFailed,
    /// There was no memory to keep a line in.
    NoMemory,
    /// A line could not be answered.
    Unanswered(E),
}
