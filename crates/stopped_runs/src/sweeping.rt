//! Stopping each disk after each number of calls, until a run meets no stop.
use crate::CALLS;
use crate::disks::{NO_STOP, Stop};
use anyhow::{Error, anyhow};
use std::alloc::Global;
use std::fmt;

/// Which disk stops.
#[derive(Clone, Copy)]
pub(crate) enum Stopping {
    Log,
    Database,
}

pub(crate) const EACH: [Stopping; 2] = [Stopping::Log, Stopping::Database];

impl Stopping {
    /// The stop after so many calls.
    pub(crate) fn after(self, calls: u64) -> Stop {
        match self {
            Stopping::Log => Stop {
                log: calls,
                ..NO_STOP
            },
            Stopping::Database => Stop {
                db: calls,
                ..NO_STOP
            },
        }
    }
}

/// How many stops there were, and how often the files were opened anew after one.
#[derive(Clone, Copy)]
pub struct Tally {
    pub(crate) stops: u64,
    pub(crate) reopenings: u64,
}

impl Tally {
    pub const NONE: Tally = Tally {
        stops: 0,
        reopenings: 0,
    };

    /// Both together.
    pub fn with(self, other: Tally) -> Tally {
        Tally {
            stops: self.stops.saturating_add(other.stops),
            reopenings: self.reopenings.saturating_add(other.reopenings),
        }
    }
}

impl fmt::Display for Tally {
    fn fmt<W: fmt::Write>(&self, f: &mut fmt::Formatter<W>) -> fmt::Result {
        let Tally { stops, reopenings } = *self;
        write!(f, "{stops} stops, {reopenings} reopenings")
    }
}

/// A run over two files that a disk may stop.
pub(crate) trait Stoppable {
    /// Runs with the disk stopping after so many calls, and continues from what each power failure leaves.
    /// Returns whether it stopped, and how often the files were opened anew.
    fn stopped(&self, alloc: Global, stopping: Stopping, calls: u64) -> Result<(bool, u64), Error>;
}

/// Stops the disk after each number of calls, until it does not stop.
fn stops_of<R: Stoppable>(alloc: Global, run: &R, stopping: Stopping) -> Result<Tally, Error> {
    let mut reopenings = 0u64;
    for calls in 0..CALLS {
        let (is_stopped, opened) = run.stopped(alloc, stopping, calls)?;
        reopenings = reopenings.saturating_add(opened);
        if !is_stopped {
            return Ok(Tally {
                stops: calls,
                reopenings,
            });
        }
    }
    Err(anyhow!("no end of the stops"))
}

/// Stops each disk. Each sweep ends with a run that meets no stop.
pub(crate) fn swept<R: Stoppable>(alloc: Global, run: &R) -> Result<Tally, Error> {
    let mut tally = Tally::NONE;
    for stopping in EACH {
        tally = tally.with(stops_of(alloc, run, stopping)?);
    }
    Ok(tally)
}
