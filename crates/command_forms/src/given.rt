//! What a person gives for a field.

use docket_command::Field;

/// A field of a command, and the text that was given for it.
#[derive(Clone, Copy)]
pub struct FieldText<'a> {
    pub field: Field,
    pub text: &'a str,
}
