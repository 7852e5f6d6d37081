//! The lines that explain why a deadline stands as it does.
#![tactic(auto)]

mod cause;
mod due;
mod line;
mod mark;
mod period;
mod step;
mod text;
mod words;

pub use text::reasons_text;
