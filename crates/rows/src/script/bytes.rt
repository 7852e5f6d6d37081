//! The bytes that a line of a script spells.
use anyhow::{Error, anyhow};
use serde_json::Value;
use std::alloc::Global;
use std::fs;

/// The bytes that a string of JSON spells, a byte a character.
pub(crate) fn json_bytes(alloc: Global, json: &[u8]) -> Result<Vec<u8>, Error> {
    let value = Value::from_slice(alloc, json)?;
    let Some(text) = value.as_str() else {
        return Err(anyhow!("it is no string of JSON"));
    };
    let mut bytes = Vec::new(alloc);
    for character in text.chars() {
        let Ok(byte) = u8::try_from(character) else {
            return Err(anyhow!("a character of the string is no byte"));
        };
        bytes.push(byte)?;
    }
    Ok(bytes)
}

/// Appends a line.
fn push_line(line: &str, to: &mut Vec<u8>) -> Result<(), Error> {
    to.extend_from_slice(line.as_bytes())?;
    Ok(to.push(b'\n')?)
}

/// Appends what follows the mark of a line: a line, a string of JSON, or the name of a file.
pub(crate) fn push_part(rt: &HostRuntime, part: &str, to: &mut Vec<u8>) -> Result<(), Error> {
    if part.is_empty() {
        return push_line("", to);
    }
    if let Some(line) = part.strip_prefix(' ') {
        return push_line(line, to);
    }
    if part.starts_with('"') {
        let bytes = json_bytes(rt.alloc(), part.as_bytes())?;
        return Ok(to.extend_from_slice(&bytes)?);
    }
    let name = part.strip_prefix("< ").or(part.strip_prefix("> "));
    let Some(name) = name else {
        return Err(anyhow!("what stands behind the mark is no text"));
    };
    let bytes = fs::read(rt, name)?;
    Ok(to.extend_from_slice(&bytes)?)
}
