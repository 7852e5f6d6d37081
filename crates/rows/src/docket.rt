//! Commands and questions to a docket in memory. A line of input is a command, or a question: `? NUMBER` asks
//! for the text of a case, and `? FROM TO` for the calendar of a range of days.
mod tables;
mod vectors;

use crate::compare::text_difference;
use crate::script::Step;
use anyhow::{Error, anyhow};
use court_days::{Court, Day, read_day};
use docket_command::{Command, Refusal, Reply};
use docket_wire::{read_command, reply_text, wire_fault_text};
use std::alloc::Global;
use std::str;
use tables::Tables;
pub(crate) use tables::created;
use vectors::Vectors;

/// A docket to which commands and questions come.
trait Asked {
    fn reply(&mut self, command: &Command) -> Result<Result<Reply, Refusal>, Error>;

    /// Appends the text of the case of a number, if there is one.
    fn push_case(&mut self, number: u32, to: &mut Vec<u8>) -> Result<(), Error>;

    /// Appends the calendar of the days.
    fn push_calendar(&mut self, from: Day, until: Day, to: &mut Vec<u8>) -> Result<(), Error>;
}

fn day(text: &str) -> Result<Day, Error> {
    read_day(text.as_bytes()).ok_or_else(|| anyhow!("{text} is no day"))
}

fn number(text: &str) -> Result<u32, Error> {
    text.parse::<u32>()
        .map_err(|_| anyhow!("{text} is no number"))
}

/// The court of a step, by the zone and the closing time behind its first word.
fn court(alloc: Global, zone: &str, close: &str) -> Result<Court, Error> {
    match Court::read(alloc, zone, close) {
        Ok(court) => Ok(court),
        Err(_) => Err(anyhow!("no court has the zone {zone} and closes at {close}")),
    }
}

/// Appends what the question asks for.
fn push_told<D: Asked>(docket: &mut D, question: &str, to: &mut Vec<u8>) -> Result<(), Error> {
    match question.split_once(' ') {
        Some((from, until)) => docket.push_calendar(day(from)?, day(until)?, to),
        None => docket.push_case(number(question)?, to),
    }
}

/// Appends the answer to the command on a line, or the fault of the line.
fn push_reply<D: Asked>(
    alloc: Global,
    docket: &mut D,
    line: &[u8],
    to: &mut Vec<u8>,
) -> Result<(), Error> {
    let text = match read_command(alloc, line) {
        Ok(command) => reply_text(alloc, &docket.reply(&command)?)?,
        Err(fault) => wire_fault_text(alloc, &fault)?,
    };
    to.extend_from_slice(text.as_bytes())?;
    Ok(to.push(b'\n')?)
}

/// The output of the lines.
fn played<D: Asked>(alloc: Global, docket: &mut D, lines: &[u8]) -> Result<Vec<u8>, Error> {
    let mut written = Vec::new(alloc);
    for line in lines.split_inclusive(|byte| *byte == b'\n') {
        match line.strip_prefix(b"? ") {
            Some(question) => {
                let question = str::from_utf8(question).map_err(|_| anyhow!("no question"))?;
                push_told(docket, question.trim_end(), &mut written)?;
            }
            None => push_reply(alloc, docket, line, &mut written)?,
        }
    }
    Ok(written)
}

fn over_tables(alloc: Global, court: Court, lines: &[u8]) -> Result<Vec<u8>, Error> {
    let mut docket = Tables::new(alloc, court)?;
    let written = played(alloc, &mut docket, lines);
    docket.close();
    written
}

/// The first difference from the step's expected output, over SQLite's tables and then over vectors.
pub(crate) fn docket_difference(alloc: Global, step: &Step) -> Result<Option<String>, Error> {
    let (zone, close) = (step.word(1), step.word(2));
    let wanted = step.wanted.output.as_slice();
    let came = over_tables(alloc, court(alloc, zone, close)?, &step.input)?;
    if let Some(text) = text_difference(alloc, "over tables, output", &came, wanted)? {
        return Ok(Some(text));
    }
    let mut docket = Vectors::new(
        alloc,
        court(alloc, zone, close)?,
        court(alloc, zone, close)?,
    );
    let came = played(alloc, &mut docket, &step.input)?;
    Ok(text_difference(alloc, "over vectors, output", &came, wanted)?)
}
