//! A session that is stopped after each number of calls of each disk, until it meets no stop: the next
//! run finds the docket of a prefix of its commands.
use crate::disks::{Bytes, Fused, Stop, Tried, files_with, options};
use crate::going_on::{End, ended};
use crate::sweeping::{EACH, Stopping, Tally};
use crate::trial::prepared;
use crate::whole_text::{told, told_by_vectors};
use crate::{CALLS, FEW};
use anyhow::{Error, anyhow};
use court_days::Court;
use docket_command::{Command, Refusal, Reply};
use docket_plain::Plain;
use docket_store::Docket;
use docket_wire::{read_command, reply_text};
use plain_plays::{ZONE, eastern_court, vectors};
use power_failure::{NotReopened, Reopened, reopen_after_power_failure};
use sqlite::{Alter, Files};
use std::alloc::Global;

/// The commands of a session on a docket without any record in two files. The docket in vectors gives the
/// answer to each, and the texts before the first and after each.
#[derive(Drop)]
struct Course {
    before: Bytes,
    frames: usize,
    commands: Vec<Command>,
    answers: Vec<String>,
    told: Vec<Vec<u8>>,
}

impl Course {
    fn new<D: Tried>(alloc: Global, lines: &[u8], frames: usize) -> Result<Course, Error> {
        let mut course = Course {
            before: prepared::<D>(alloc, b"", frames)?,
            frames,
            commands: Vec::new(alloc),
            answers: Vec::new(alloc),
            told: Vec::new(alloc),
        };
        course.play(alloc, lines)?;
        Ok(course)
    }

    /// Applies the commands of the lines to a docket in vectors.
    fn play(&mut self, alloc: Global, lines: &[u8]) -> Result<(), Error> {
        let court = eastern_court(alloc)?;
        let mut docket = vectors::docket(alloc, ZONE)?;
        self.told.push(told_by_vectors(alloc, &docket, &court)?)?;
        for line in lines.split_inclusive(|byte| *byte == b'\n') {
            self.add(alloc, &mut docket, &court, line)?;
        }
        Ok(())
    }

    /// Adds the command of the line, its answer and the text after it.
    fn add(
        &mut self,
        alloc: Global,
        docket: &mut Plain,
        court: &Court,
        line: &[u8],
    ) -> Result<(), Error> {
        let Ok(command) = read_command(alloc, line) else {
            return Err(anyhow!("a line is no command"));
        };
        self.commands.push(command)?;
        self.answers.push(vectors::answer(alloc, docket, line)?)?;
        self.told.push(told_by_vectors(alloc, docket, court)?)?;
        Ok(())
    }

    /// Whether these are the answers to the first commands.
    fn is_answered(
        &self,
        alloc: Global,
        replies: &[Result<Reply, Refusal>],
    ) -> Result<bool, Error> {
        for (reply, answer) in replies.iter().zip(self.answers.as_slice()) {
            if reply_text(alloc, reply)?.as_str() != answer.as_str() {
                return Ok(false);
            }
        }
        Ok(replies.len() <= self.answers.len())
    }

    /// Whether the docket of the first commands has this text.
    fn is_told_after(&self, commands: usize, told: &[u8]) -> bool {
        match self.told.get(commands) {
            Some(wanted) => wanted.as_slice() == told,
            None => false,
        }
    }
}

/// Returns the text of a docket, which is then closed.
fn told_once<S: Alter + Drop>(alloc: Global, docket: Docket<S>) -> Result<Vec<u8>, Error> {
    let mut docket = docket;
    let told = told(alloc, &mut docket);
    docket.close().into_store();
    told
}

/// Returns what the run after the session finds, or why it finds nothing.
fn reopened<D: Tried>(alloc: Global, course: &Course, files: Files<D>) -> Result<Reopened<D>, End> {
    if !files.may_be_used() {
        return Err(End::NotUsable);
    }
    let commands = course.commands.as_slice();
    match reopen_after_power_failure(alloc, files, options(course.frames), commands) {
        Ok(found) => Ok(found),
        Err(NotReopened::Before(fault)) => Err(ended(fault).0),
        Err(
            NotReopened::After {
                replies: _,
                stopped_at: _,
                fault,
            },
        ) => Err(ended(fault).0),
    }
}

/// Returns how many commands were acknowledged, if the run found the docket of those or of one more.
fn acknowledged<D: Tried>(
    alloc: Global,
    course: &Course,
    found: Reopened<D>,
) -> Result<usize, Error> {
    let Reopened {
        replies,
        stopped_at: _,
        docket,
    } = found;
    let told = told_once(alloc, docket)?;
    let answered = replies.len();
    let is_prefix = course.is_told_after(answered, &told)
        || course.is_told_after(answered.saturating_add(1), &told);
    if is_prefix && course.is_answered(alloc, replies.as_slice())? {
        Ok(answered)
    } else {
        Err(anyhow!("no prefix"))
    }
}

/// Runs the session with a stop. Returns how many commands were acknowledged, if the next run found the
/// docket of those or of one more.
fn stopped_once<D: Tried>(alloc: Global, course: &Course, stop: Stop) -> Result<usize, Error> {
    let files = files_with::<D>(alloc, &course.before, stop)?;
    match reopened(alloc, course, files) {
        Ok(found) => acknowledged(alloc, course, found),
        Err(end) if end.is_by_a_disk() => Ok(0),
        Err(_) => Err(anyhow!("not gone on")),
    }
}

/// Stops the disk after each number of calls, until all commands are acknowledged. Returns how many stops
/// there were.
fn stops_of<D: Tried>(alloc: Global, course: &Course, stopping: Stopping) -> Result<u64, Error> {
    for calls in 0..CALLS {
        if stopped_once::<D>(alloc, course, stopping.after(calls))? == course.commands.len() {
            return Ok(calls);
        }
    }
    Err(anyhow!("no end of the stops"))
}

fn swept(alloc: Global, course: &Course) -> Result<Tally, Error> {
    let mut stops = 0u64;
    for stopping in EACH {
        stops = stops.saturating_add(stops_of::<Fused>(alloc, course, stopping)?);
    }
    Ok(Tally {
        stops,
        reopenings: stops,
    })
}

/// Returns the answers to the commands of an input, which are a session that leaves a prefix of them wherever
/// it is stopped, and how many stops there were.
pub fn sessions(alloc: Global, input: &[u8]) -> Result<(Vec<u8>, Tally), Error> {
    let mut written = Vec::new(alloc);
    let course = Course::new::<Fused>(alloc, input, FEW)?;
    for answer in course.answers.as_slice() {
        written.extend_from_slice(answer.as_bytes())?;
        written.push(b'\n')?;
    }
    Ok((written, swept(alloc, &course)?))
}
