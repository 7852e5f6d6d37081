//! The value of a member, by its text.
ghost use Rattle.std.specs.Prelude.{◌≡◌, IfOk};
ghost use Rattle.serde_json.specs.View.{view};
ghost use Rattle.command_forms.specs.Values.{number_of, number_data, flag_data, data_of};

use crate::shape::{Shape, shape_named};
use serde_json::Value;
use std::alloc::{AllocError, Global};

/// Returns the number that 1 to 10 digits write. Any other text is no number.
pub fn read_digits(text: &[u8]) -> Option<u64>
    ensures { result ≡ number_of text.now }
{
    if text.is_empty() || text.len() > 10 {
        return None;
    }
    let mut value = 0u64;
    for byte in text {
        if !byte.is_ascii_digit() {
            return None;
        }
        value = value * 10 + u64::from(byte - b'0');
    }
    Some(value)
}

fn number_value(alloc: Global, text: &str) -> Result<Value, AllocError>
    ensures { IfOk result (λ value. view value ≡ number_data text.now) }
{
    match read_digits(text.as_bytes()) {
        Some(number) => Ok(Value::from(number)),
        None => Value::try_from_str(alloc, text),
    }
}

fn flag_value(alloc: Global, text: &str) -> Result<Value, AllocError>
    ensures { IfOk result (λ value. view value ≡ flag_data text.now) }
{
    match text {
        "true" => Ok(Value::from(true)),
        "false" => Ok(Value::from(false)),
        _ => Value::try_from_str(alloc, text),
    }
}

/// The value of the member of a name with this text. An empty text is null.
pub fn value_of(alloc: Global, name: &str, text: &str) -> Result<Value, AllocError>
    ensures { IfOk result (λ value. view value ≡ data_of name.now text.now) }
{
    if text.is_empty() {
        return Ok(Value::Null);
    }
    match shape_named(name) {
        Shape::Number => number_value(alloc, text),
        Shape::Flag => flag_value(alloc, text),
        Shape::Text => Value::try_from_str(alloc, text),
    }
}
