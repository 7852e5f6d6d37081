//! A command to stop, and the docket to which it comes.
use crate::disks::{Bytes, NO_STOP, Tried, bytes_of, files_with};
use crate::going_on::{created, filled};
use crate::whole_text::told_by_vectors;
use anyhow::{Error, anyhow};
use docket_command::Command;
use docket_plain::Plain;
use docket_wire::read_command;
use plain_plays::{ASKED, ZONE, eastern_court, vectors};
use std::alloc::Global;

/// The lines before the line `?`, and those behind it.
pub(crate) fn parted(input: &[u8]) -> Result<(&[u8], &[u8]), Error> {
    for (place, line) in input.windows(ASKED.len()).enumerate() {
        if line == ASKED {
            let behind = place.saturating_add(ASKED.len());
            if let (Some(lines), Some(commands)) = (input.get(..place), input.get(behind..)) {
                return Ok((lines, commands));
            }
        }
    }
    Err(anyhow!("no line parts the commands"))
}

/// A command to a docket in two files. The docket in vectors gives its answer, and the texts without it and
/// with it.
#[derive(Drop)]
pub(crate) struct Trial {
    pub(crate) before: Bytes,
    pub(crate) frames: usize,
    pub(crate) command: Command,
    pub(crate) answer: String,
    pub(crate) without: Vec<u8>,
    pub(crate) with: Vec<u8>,
}

/// The two files of a docket to which the commands of the lines came.
pub(crate) fn prepared<D: Tried>(
    alloc: Global,
    lines: &[u8],
    frames: usize,
) -> Result<Bytes, Error> {
    let files = files_with::<D>(alloc, &Bytes::none(alloc), NO_STOP)?;
    let (made, files) = created(alloc, files, frames);
    if made.is_err() {
        return Err(anyhow!("no docket was made"));
    }
    let files = filled(alloc, files, frames, lines)?;
    Ok(bytes_of(alloc, &files)?)
}

/// A docket in vectors to which the commands of the lines came.
pub(crate) fn prepared_in_vectors(alloc: Global, lines: &[u8]) -> Result<Plain, Error> {
    let mut docket = vectors::docket(alloc, ZONE)?;
    for line in lines.split_inclusive(|byte| *byte == b'\n') {
        vectors::answer(alloc, &mut docket, line)?;
    }
    Ok(docket)
}

impl Trial {
    /// The command of the line, which comes to the docket of the lines.
    pub(crate) fn new<D: Tried>(
        alloc: Global,
        lines: &[u8],
        line: &[u8],
        frames: usize,
    ) -> Result<Trial, Error> {
        let court = eastern_court(alloc)?;
        let mut docket = prepared_in_vectors(alloc, lines)?;
        let without = told_by_vectors(alloc, &docket, &court)?;
        let answer = vectors::answer(alloc, &mut docket, line)?;
        let with = told_by_vectors(alloc, &docket, &court)?;
        Ok(Trial {
            before: prepared::<D>(alloc, lines, frames)?,
            frames,
            command: read_command(alloc, line).map_err(|_| anyhow!("a line is no command"))?,
            answer,
            without,
            with,
        })
    }
}
