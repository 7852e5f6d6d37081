//! Which values a command may have: days that a court may enter, lengths of texts and periods, and
//! choices that fit each other. For each kind of command, the first bad field is returned by its name.
#![tactic(auto)]

mod value;

pub use value::{bad_field, is_entered, is_text, is_word};
