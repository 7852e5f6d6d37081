//! A command line of `docketctl`, done over files in the folder of its script.
use crate::compare::{Outcome, difference};
use crate::script::{Step, Way};
use crate::streams::{Pieces, Taker};
use anyhow::Error;
use docket_jobs::read_job;
use job_runs::{Progress, Status, finish, run_job};
use sqlite::Unknown;
use std::alloc::{AllocError, Global};

const READ_FAILED: &[u8] = b"docketctl: the input could not be read\n";

const WRITE_FAILED: &[u8] = b"docketctl: the output could not be written\n";

/// The words, with the folder for each `@`.
fn located(alloc: Global, words: &[String], folder: &str) -> Result<Vec<String>, AllocError> {
    let mut located = Vec::new(alloc);
    for word in words {
        located.push(word.replace(alloc, "@", folder)?)?;
    }
    Ok(located)
}

/// The bytes, with the folder for each `@`.
fn located_bytes(alloc: Global, bytes: &[u8], folder: &str) -> Result<Vec<u8>, AllocError> {
    let mut located = Vec::new(alloc);
    for byte in bytes {
        if *byte == b'@' {
            located.extend_from_slice(folder.as_bytes())?;
        } else {
            located.push(*byte)?;
        }
    }
    Ok(located)
}

/// What a step is to print, with the folder for each `@` of its errors.
fn located_outcome(alloc: Global, wanted: Outcome, folder: &str) -> Result<Outcome, AllocError> {
    let Outcome {
        output,
        errors,
        status,
    } = wanted;
    Ok(Outcome {
        output,
        errors: located_bytes(alloc, &errors, folder)?,
        status,
    })
}

/// Does what the words ask for, and returns the exit status.
fn done(
    rt: &HostRuntime,
    words: &[String],
    input: &mut Pieces<'_>,
    output: &mut Taker,
    errors: &mut Taker,
) -> u8 {
    let untold: Progress<Taker> = Progress::untold();
    let (end, output) = match read_job(rt.alloc(), words) {
        Ok(job) => {
            let (end, output) = run_job(rt, Unknown, job, untold, input, output, errors);
            (Ok(end), output)
        }
        Err(error) => (Err(error), output),
    };
    finish(rt.alloc(), end, output, errors)
}

/// The first difference from the expected outcome of the words, over these ends.
fn once(
    rt: &HostRuntime,
    words: &[String],
    mut input: Pieces<'_>,
    mut output: Taker,
    wanted: &Outcome,
) -> Result<Option<String>, AllocError> {
    let mut errors = Taker::whole(rt.alloc());
    let status = done(rt, words, &mut input, &mut output, &mut errors);
    let came = Outcome {
        output: output.taken,
        errors: errors.taken,
        status,
    };
    difference(rt.alloc(), &came, wanted)
}

/// The same where the input comes in pieces of each of these sizes.
fn in_pieces(
    rt: &HostRuntime,
    words: &[String],
    input: &[u8],
    sizes: &[usize],
    wanted: &Outcome,
) -> Result<Option<String>, AllocError> {
    for size in sizes {
        let reader = Pieces::new(input, *size, u32::MAX);
        if let Some(text) = once(rt, words, reader, Taker::whole(rt.alloc()), wanted)? {
            return Ok(Some(format!(in rt.alloc(); "in pieces of {size}: {text}")?));
        }
    }
    Ok(None)
}

/// The outcome of a failure: this line on standard error, after the output that went out.
fn failed(alloc: Global, output: &[u8], error: &[u8]) -> Result<Outcome, AllocError> {
    let mut outcome = Outcome::new(alloc);
    outcome.output.extend_from_slice(output)?;
    outcome.errors.extend_from_slice(error)?;
    outcome.status = Status::Failed.code();
    Ok(outcome)
}

/// How many bytes there are; no script has more than a `u32` counts.
pub(crate) fn length(bytes: &[u8]) -> u32 {
    u32::try_from(bytes.len()).unwrap_or(u32::MAX)
}

/// The lines of the output that answer so many bytes of the input: as many as end in them.
fn answers_to(input: &[u8], output: &[u8], bytes: u32) -> usize {
    let lines = input
        .iter()
        .take(bytes as usize)
        .filter(|byte| **byte == b'\n')
        .count();
    output
        .split_inclusive(|byte| *byte == b'\n')
        .take(lines)
        .map(|line| line.len())
        .fold(0, |all, length: usize| all.saturating_add(length))
}

/// The first difference where the read after each number of bytes fails: the lines before it are answered.
fn each_read(
    rt: &HostRuntime,
    words: &[String],
    input: &[u8],
    wanted: &Outcome,
) -> Result<Option<String>, AllocError> {
    let alloc = rt.alloc();
    for reads in 0..=length(input) {
        let answered = answers_to(input, &wanted.output, reads);
        let front = wanted.output.get(..answered).unwrap_or(b"");
        let wanted = failed(alloc, front, READ_FAILED)?;
        let reader = Pieces::new(input, 1, reads);
        if let Some(text) = once(rt, words, reader, Taker::whole(alloc), &wanted)? {
            return Ok(Some(format!(in alloc; "after {reads} reads: {text}")?));
        }
    }
    Ok(None)
}

/// The first difference where the write after each number of bytes fails or takes nothing: the bytes before
/// it went out.
fn each_write(
    rt: &HostRuntime,
    words: &[String],
    input: &[u8],
    wanted: &Outcome,
) -> Result<Option<String>, AllocError> {
    let alloc = rt.alloc();
    for writes in 0..length(&wanted.output) {
        let front = wanted.output.get(..writes as usize).unwrap_or(b"");
        let wanted = failed(alloc, front, WRITE_FAILED)?;
        let reader = Pieces::new(input, usize::MAX, u32::MAX);
        let writer = Taker::new(alloc, 1, writes, writes % 2 == 0);
        if let Some(text) = once(rt, words, reader, writer, &wanted)? {
            return Ok(Some(format!(in alloc; "after {writes} writes: {text}")?));
        }
    }
    Ok(None)
}

/// The first difference from the step's expected output, played in the way that the step says.
pub(crate) fn job_difference(
    rt: &HostRuntime,
    folder: &str,
    step: Step,
) -> Result<Option<String>, Error> {
    let alloc = rt.alloc();
    let Step {
        line: _,
        words,
        way,
        input,
        wanted,
    } = step;
    let words = located(alloc, &words, folder)?;
    let wanted = located_outcome(alloc, wanted, folder)?;
    let input = input.as_slice();
    Ok(match way {
        Way::Pieces(sizes) => in_pieces(rt, &words, input, &sizes, &wanted)?,
        Way::FailingRead { size, reads } => {
            let reader = Pieces::new(input, size, reads);
            once(rt, &words, reader, Taker::whole(alloc), &wanted)?
        }
        Way::FailingWrite { writes } => {
            let reader = Pieces::new(input, usize::MAX, u32::MAX);
            let writer = Taker::new(alloc, usize::MAX, writes, true);
            once(rt, &words, reader, writer, &wanted)?
        }
        Way::EachRead => each_read(rt, &words, input, &wanted)?,
        Way::EachWrite => each_write(rt, &words, input, &wanted)?,
    })
}
