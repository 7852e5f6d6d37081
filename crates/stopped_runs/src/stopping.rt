//! Each command of an input, stopped after each number of calls of each disk until it meets no stop.
use crate::disks::{
    Bytes, Fused, LOSSES, NO_STOP, Remains, Stop, Tried, calls_of, files_with, left,
};
use crate::going_on::{End, found, given};
use crate::making::made;
use crate::sweeping::{Stoppable, Stopping, Tally, swept};
use crate::trial::{Trial, parted};
use anyhow::{Error, anyhow};
use docket_command::Reply;
use docket_store::Fault;
use docket_wire::reply_text;
use sqlite::Files;
use std::alloc::Global;

impl Stoppable for Trial {
    fn stopped(&self, alloc: Global, stopping: Stopping, calls: u64) -> Result<(bool, u64), Error> {
        stopped_once::<Fused>(alloc, self, stopping.after(calls), calls)
    }
}

/// Whether the command was acknowledged, with its answer. If a disk stopped it may have none.
fn is_acknowledged(
    alloc: Global,
    trial: &Trial,
    given: Result<Result<Reply, Fault>, End>,
) -> Result<bool, Error> {
    match given {
        Ok(Ok(reply)) => {
            if reply_text(alloc, &Ok(reply))?.as_str() == trial.answer.as_str() {
                Ok(true)
            } else {
                Err(anyhow!("another answer"))
            }
        }
        Ok(Err(Fault::StoreFailed)) => Ok(false),
        Err(end) if end.is_by_a_disk() => Ok(false),
        _ => Err(anyhow!("neither an answer nor a disk that stopped")),
    }
}

/// Gives the command again: it has its answer, and stands once.
fn stands_once<D: Tried>(alloc: Global, trial: &Trial, files: Files<D>) -> Result<(), Error> {
    let (given, files) = given(alloc, files, trial.frames, &trial.command);
    if !is_acknowledged(alloc, trial, given)? {
        return Err(anyhow!("given again, it has no answer"));
    }
    let (told, _) = found(alloc, files, trial.frames);
    match told {
        Ok(told) if told.as_slice() == trial.with.as_slice() => Ok(()),
        _ => Err(anyhow!("given again, it does not stand once")),
    }
}

/// Continues from what is left. The docket stands without the command or with it, and with it if it was
/// acknowledged. Returns the files of that run.
fn goes_on<D: Tried>(
    alloc: Global,
    trial: &Trial,
    bytes: &Bytes,
    acknowledged: bool,
) -> Result<Files<D>, Error> {
    let files = files_with::<D>(alloc, bytes, NO_STOP)?;
    let (told, files) = found(alloc, files, trial.frames);
    match told {
        Ok(told) if told.as_slice() == trial.with.as_slice() => {}
        Ok(told) if told.as_slice() == trial.without.as_slice() => {
            if acknowledged {
                return Err(anyhow!("an acknowledged command is lost"));
            }
        }
        Ok(_) => return Err(anyhow!("part of a command")),
        Err(_) => return Err(anyhow!("not gone on")),
    }
    Ok(files)
}

/// How many of the losses leave something of their own.
fn losses_apart(left: &Remains) -> u64 {
    let mut count = 0u64;
    for loss in LOSSES {
        if left.is_lost(loss) {
            count = count.saturating_add(1);
        }
    }
    count
}

/// Continues from what is left, and gives the command again if `again` is set. Returns how often the files
/// were opened.
fn reopened<D: Tried>(
    alloc: Global,
    trial: &Trial,
    bytes: &Bytes,
    acknowledged: bool,
    again: bool,
) -> Result<u64, Error> {
    let files = goes_on::<D>(alloc, trial, bytes, acknowledged)?;
    if !again {
        return Ok(1);
    }
    stands_once(alloc, trial, files)?;
    Ok(3)
}

/// Continues from what each power failure leaves, and gives the command again after one of them, another
/// after each number of calls. Returns how often the files were opened.
fn reopened_after_each<D: Tried>(
    alloc: Global,
    trial: &Trial,
    left: &Remains,
    acknowledged: bool,
    calls: u64,
) -> Result<u64, Error> {
    let again = calls % losses_apart(left).max(1);
    let (mut place, mut reopenings) = (0u64, 0u64);
    for loss in LOSSES {
        if left.is_lost(loss) {
            let bytes = left.after(alloc, loss)?;
            let opened = reopened::<D>(alloc, trial, &bytes, acknowledged, place == again)?;
            reopenings = reopenings.saturating_add(opened);
            place = place.saturating_add(1);
        }
    }
    Ok(reopenings)
}

/// Gives the command with a stop, and continues from what is left. Returns whether a disk stopped, and how
/// often the files were opened anew.
fn stopped_once<D: Tried>(
    alloc: Global,
    trial: &Trial,
    stop: Stop,
    calls: u64,
) -> Result<(bool, u64), Error> {
    let files = files_with::<D>(alloc, &trial.before, stop)?;
    let (given, files) = given(alloc, files, trial.frames, &trial.command);
    let is_stopped = calls_of(&files).are_past(stop);
    let left = left(alloc, files)?;
    let acknowledged = is_acknowledged(alloc, trial, given)?;
    if !is_stopped && !acknowledged {
        return Err(anyhow!("no stop, and no answer"));
    }
    let reopenings = reopened_after_each::<D>(alloc, trial, &left, acknowledged, calls)?;
    Ok((is_stopped, reopenings))
}

/// Returns the answer to the command of a line, which comes to the docket of the lines and stands whole
/// wherever it is stopped, and how many stops there were.
fn answered(
    alloc: Global,
    lines: &[u8],
    line: &[u8],
    frames: &[usize],
) -> Result<(String, Tally), Error> {
    let mut answer = String::new(alloc);
    let mut tally = Tally::NONE;
    for frames in frames {
        let trial = Trial::new::<Fused>(alloc, lines, line, *frames)?;
        tally = tally.with(swept(alloc, &trial)?);
        answer = trial.answer;
    }
    Ok((answer, tally))
}

/// Returns the answers to the commands behind the line `?` of an input, and how many stops there were. Each
/// command comes to the docket of the lines before that one. It stands whole wherever it is stopped, as the
/// making of a docket does. `frames` is `SHORT_LOG` or `EACH_LOG`.
pub fn stopped(alloc: Global, input: &[u8], frames: &[usize]) -> Result<(Vec<u8>, Tally), Error> {
    let mut tally = made(alloc, frames)?;
    let (lines, commands) = parted(input)?;
    let mut written = Vec::new(alloc);
    for line in commands.split_inclusive(|byte| *byte == b'\n') {
        let (answer, added) = answered(alloc, lines, line, frames)?;
        tally = tally.with(added);
        written.extend_from_slice(answer.as_bytes())?;
        written.push(b'\n')?;
    }
    Ok((written, tally))
}
