//! Commands over the docket in vectors.
use crate::court::{ZONE, court_of, eastern_court};
use crate::deadlines::{ASKED, CASE, push_deadlines};
use anyhow::{Error, anyhow};
use court_days::Court;
use docket_decisions::DecideFault;
use docket_plain::Plain;
use docket_wire::{read_command, reply_text, wire_fault_text};
use std::alloc::Global;

/// A docket without any record for a court of the zone.
pub fn docket(alloc: Global, zone: &str) -> Result<Plain, Error> {
    Ok(Plain::new(alloc, court_of(alloc, zone)?))
}

/// The answer to the command on the line.
pub fn answer(alloc: Global, docket: &mut Plain, line: &[u8]) -> Result<String, Error> {
    let command = match read_command(alloc, line) {
        Ok(command) => command,
        Err(fault) => return Ok(wire_fault_text(alloc, &fault)?),
    };
    let answer = match docket.apply(&command) {
        Ok(reply) => Ok(reply),
        Err(DecideFault::Refused(refusal)) => Err(refusal),
        Err(DecideFault::NoMemory) => return Err(anyhow!("there is not enough memory")),
    };
    Ok(reply_text(alloc, &answer)?)
}

/// Appends where the deadlines of the case stand, if there is one.
fn push_case(alloc: Global, docket: &Plain, court: &Court, out: &mut Vec<u8>) -> Result<(), Error> {
    if let Some(lines) = docket.deadlines(CASE)? {
        push_deadlines(alloc, court, &lines, out)?;
    }
    Ok(())
}

/// Appends the answer to the line, or where the deadlines stand, if the line asks that.
fn push_line(
    alloc: Global,
    docket: &mut Plain,
    court: &Court,
    line: &[u8],
    out: &mut Vec<u8>,
) -> Result<(), Error> {
    if line == ASKED {
        return push_case(alloc, docket, court, out);
    }
    out.extend_from_slice(answer(alloc, docket, line)?.as_bytes())?;
    out.push(b'\n')?;
    Ok(())
}

/// What `run` would print for the commands.
pub fn ran(alloc: Global, commands: &[u8]) -> Result<Vec<u8>, Error> {
    let mut docket = docket(alloc, "UTC0")?;
    let mut written = Vec::new(alloc);
    for line in commands.split_inclusive(|byte| *byte == b'\n') {
        written.extend_from_slice(answer(alloc, &mut docket, line)?.as_bytes())?;
        written.push(b'\n')?;
    }
    Ok(written)
}

/// The answers to the commands, with where the deadlines stand in the end.
pub fn worked_out(alloc: Global, commands: &[u8]) -> Result<Vec<u8>, Error> {
    let court = eastern_court(alloc)?;
    let mut docket = docket(alloc, ZONE)?;
    let mut written = Vec::new(alloc);
    for line in commands.split_inclusive(|byte| *byte == b'\n') {
        push_line(alloc, &mut docket, &court, line, &mut written)?;
    }
    push_case(alloc, &docket, &court, &mut written)?;
    Ok(written)
}
