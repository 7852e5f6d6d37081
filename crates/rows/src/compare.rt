//! The differences between the output and what is expected.
use std::alloc::{AllocError, Global};

/// What a step prints, and its exit status.
#[derive(Drop)]
pub(crate) struct Outcome {
    pub(crate) output: Vec<u8>,
    pub(crate) errors: Vec<u8>,
    pub(crate) status: u8,
}

impl Outcome {
    /// Nothing printed, and status 0.
    pub(crate) fn new(alloc: Global) -> Outcome {
        Outcome {
            output: Vec::new(alloc),
            errors: Vec::new(alloc),
            status: 0,
        }
    }
}

/// How many lines two texts begin with alike.
fn lines_alike(left: &[u8], right: &[u8]) -> usize {
    left.split(|byte| *byte == b'\n')
        .zip(right.split(|byte| *byte == b'\n'))
        .take_while(|(left, right)| left == right)
        .count()
}

/// The line behind so many lines, or nothing where the text has no more.
fn line_behind(text: &[u8], lines: usize) -> &[u8] {
    text.split(|byte| *byte == b'\n').nth(lines).unwrap_or(b"")
}

/// The first line in which a text differs from the expected one, if it does.
pub(crate) fn text_difference(
    alloc: Global,
    what: &str,
    came: &[u8],
    wanted: &[u8],
) -> Result<Option<String>, AllocError> {
    if came == wanted {
        return Ok(None);
    }
    let alike = lines_alike(came, wanted);
    let number = alike.saturating_add(1);
    let came = line_behind(came, alike).escape_ascii();
    let wanted = line_behind(wanted, alike).escape_ascii();
    let text = format!(in alloc; "{what}, line {number}: `{came}` came, and `{wanted}` is wanted")?;
    Ok(Some(text))
}

fn status_difference(alloc: Global, came: u8, wanted: u8) -> Result<Option<String>, AllocError> {
    if came == wanted {
        return Ok(None);
    }
    let text = format!(in alloc; "status {came} came, and {wanted} is wanted")?;
    Ok(Some(text))
}

/// The first difference of an outcome, if there is one.
pub(crate) fn difference(
    alloc: Global,
    came: &Outcome,
    wanted: &Outcome,
) -> Result<Option<String>, AllocError> {
    if let Some(text) = text_difference(alloc, "output", &came.output, &wanted.output)? {
        return Ok(Some(text));
    }
    if let Some(text) = text_difference(alloc, "errors", &came.errors, &wanted.errors)? {
        return Ok(Some(text));
    }
    status_difference(alloc, came.status, wanted.status)
}
