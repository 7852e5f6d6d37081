//! How a script is written. A step begins with a line `$ WORDS` and goes on up to the next one:
//!
//!     $ docketctl run --db @/court.db
//!     < {"do":"vacate","key":"k","case":9,"deadline":1}
//!     > {"name":"NoSuchCase","refused":4}
//!     = 1
//!
//! `<` lines are its input, `>` lines what it prints, `!` lines what it prints on standard error, and `=` is
//! its exit status, 0 without such a line. `< TEXT` is a line, `<"TEXT"` a string of JSON whose characters
//! are the bytes, and `<< FILE` all of a file; so are the others. `% WAY` says how the step is played. Empty
//! lines and lines that begin with `#` are ignored.
mod bytes;
mod way;

use crate::compare::Outcome;
use anyhow::{Error, anyhow};
pub(crate) use bytes::json_bytes;
use bytes::push_part;
use std::alloc::{AllocError, Global};
pub(crate) use way::Way;
use way::read_way;

/// What is done, with which input, and the expected outcome.
#[derive(Drop)]
pub(crate) struct Step {
    /// The line of the script with which it begins.
    pub(crate) line: usize,
    pub(crate) words: Vec<String>,
    pub(crate) way: Way,
    pub(crate) input: Vec<u8>,
    pub(crate) wanted: Outcome,
}

fn words_of(alloc: Global, line: &str) -> Result<Vec<String>, AllocError> {
    let mut words = Vec::new(alloc);
    for word in line.split(' ') {
        words.push(String::from_str(alloc, word)?)?;
    }
    Ok(words)
}

impl Step {
    fn new(alloc: Global, line: usize, words: &str) -> Result<Step, AllocError> {
        Ok(Step {
            line,
            words: words_of(alloc, words)?,
            way: Way::whole(alloc)?,
            input: Vec::new(alloc),
            wanted: Outcome::new(alloc),
        })
    }

    /// The word of a number. The first says what kind of step it is.
    pub(crate) fn word(&self, number: usize) -> &str {
        self.words.get(number).map_or("", |word| word.as_str())
    }

    /// Adds what a further line says about the step.
    fn add(&mut self, rt: &HostRuntime, line: &str) -> Result<(), Error> {
        if let Some(part) = line.strip_prefix('<') {
            push_part(rt, part, &mut self.input)
        } else if let Some(part) = line.strip_prefix('>') {
            push_part(rt, part, &mut self.wanted.output)
        } else if let Some(part) = line.strip_prefix('!') {
            push_part(rt, part, &mut self.wanted.errors)
        } else {
            self.set(rt.alloc(), line)
        }
    }

    /// Sets the exit status, or the way in which the step is played.
    fn set(&mut self, alloc: Global, line: &str) -> Result<(), Error> {
        if let Some(status) = line.strip_prefix("= ") {
            self.wanted.status = status.parse::<u8>().map_err(|_| anyhow!("no exit status"))?;
        } else if let Some(way) = line.strip_prefix("% ") {
            self.way = read_way(alloc, way)?;
        } else {
            return Err(anyhow!("the line has no mark"));
        }
        Ok(())
    }
}

/// Adds a line of a script to its steps.
fn add_line(
    rt: &HostRuntime,
    steps: &mut Vec<Step>,
    number: usize,
    line: &str,
) -> Result<(), Error> {
    if line.is_empty() || line.starts_with('#') {
        return Ok(());
    }
    if let Some(words) = line.strip_prefix("$ ") {
        return Ok(steps.push(Step::new(rt.alloc(), number, words)?)?);
    }
    match steps.last_mut() {
        Some(step) => step.add(rt, line),
        None => Err(anyhow!("no step begins above")),
    }
}

/// The steps of a script. It fails with the first line that no script may have.
pub(crate) fn read_script(rt: &HostRuntime, text: &str) -> Result<Vec<Step>, Error> {
    let mut steps = Vec::new(rt.alloc());
    for (place, line) in text.lines().enumerate() {
        let number = place.saturating_add(1);
        if let Err(fault) = add_line(rt, &mut steps, number, line) {
            return Err(anyhow!("line {number}: {fault}"));
        }
    }
    Ok(steps)
}
