//! The making of a docket, stopped after each number of calls of each disk until it meets no stop.
use crate::disks::{Bytes, Fused, LOSSES, NO_STOP, Stop, Tried, calls_of, files_with, left};
use crate::going_on::{End, created, found, found_if_made};
use crate::sweeping::{Stoppable, Stopping, Tally, swept};
use anyhow::{Error, anyhow};
use docket_store::AdoptFault;
use sqlite::Files;
use std::alloc::Global;

/// The text of a docket without any record.
const NOTHING: &[u8] = b"end 0\n";

/// The making of a docket in files that hold none.
#[derive(Clone, Copy)]
struct Making {
    frames: usize,
}

impl Stoppable for Making {
    fn stopped(&self, alloc: Global, stopping: Stopping, calls: u64) -> Result<(bool, u64), Error> {
        let is_stopped = stopped_once::<Fused>(alloc, self.frames, stopping.after(calls))?;
        Ok((is_stopped, LOSSES.len() as u64))
    }
}

/// Makes a docket in files that hold none.
fn made_now<D: Tried>(alloc: Global, files: Files<D>, frames: usize) -> Result<(), Error> {
    let (made, files) = created(alloc, files, frames);
    if made.is_err() {
        return Err(anyhow!("no docket is made"));
    }
    let (told, _) = found(alloc, files, frames);
    match told {
        Ok(told) if told.as_slice() == NOTHING => Ok(()),
        _ => Err(anyhow!("the docket that is made is not found")),
    }
}

/// Continues from what is left. There is a docket without any record or none, and one if it was acknowledged;
/// if there is none it is made.
fn goes_on<D: Tried>(
    alloc: Global,
    frames: usize,
    bytes: &Bytes,
    acknowledged: bool,
) -> Result<(), Error> {
    let files = files_with::<D>(alloc, bytes, NO_STOP)?;
    let (told, files) = found_if_made(alloc, files, frames);
    match told {
        Ok(told) if told.as_slice() == NOTHING => Ok(()),
        Err(End::NotAdopted(AdoptFault::Empty)) if !acknowledged => made_now(alloc, files, frames),
        _ => Err(anyhow!("neither a docket nor nothing")),
    }
}

/// Makes a docket with a stop, and continues from what each power failure leaves. Returns whether a disk
/// stopped.
fn stopped_once<D: Tried>(alloc: Global, frames: usize, stop: Stop) -> Result<bool, Error> {
    let files = files_with::<D>(alloc, &Bytes::none(alloc), stop)?;
    let (made, files) = created(alloc, files, frames);
    let is_stopped = calls_of(&files).are_past(stop);
    let left = left(alloc, files)?;
    let acknowledged = match made {
        Ok(()) => true,
        Err(end) if is_stopped && end.is_by_a_disk() => false,
        Err(_) => return Err(anyhow!("another fault")),
    };
    for loss in LOSSES {
        let bytes = left.after(alloc, loss)?;
        goes_on::<D>(alloc, frames, &bytes, acknowledged)?;
    }
    Ok(is_stopped)
}

/// Returns how many stops there are of the making of a docket, which is made whole or not at all wherever it
/// is stopped.
pub(crate) fn made(alloc: Global, frames: &[usize]) -> Result<Tally, Error> {
    let mut tally = Tally::NONE;
    for frames in frames {
        tally = tally.with(swept(alloc, &Making { frames: *frames })?);
    }
    Ok(tally)
}
