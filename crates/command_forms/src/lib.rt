//! Commands as the forms of a browser.
//!
//! The pairs of a form spell a JSON object, each a member, and are read as the command which the line of that
//! object spells.
#![tactic(auto)]

mod entered;
mod given;
mod laws;
mod line;
mod pair;
mod shape;
mod value;

pub use entered::{Entered, Input, entered_of};
pub use given::FieldText;
pub use laws::{commands_are_entered, fields_have_one_shape};
pub use line::{command_line, entered_command};
pub use pair::{Pair, read_pairs};
pub use shape::{Shape, shape_named};
pub use value::read_digits;
