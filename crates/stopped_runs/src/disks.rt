//! Two disks in memory, each of which stops at a call and counts its calls, and what a power failure
//! leaves of them.
mod counted;

use self::counted::Counted;
use sqlite::{Files, Options};
use sqlite_disk::{Crash, Disk, Fuse, Memory};
use std::alloc::{AllocError, Global};
use std::io;

/// A disk in memory.
pub(crate) trait Tried: Crash + Drop {
    /// A disk that holds these bytes, as after a sync, and stops after so many calls.
    fn holding(alloc: Global, bytes: &[u8], calls: u64) -> io::Result<Self>;

    fn bytes(&self) -> &[u8];

    /// How many calls it got.
    fn calls(&self) -> u64;
}

pub(crate) type Fused = Counted<Fuse<Memory>>;

impl Tried for Fused {
    fn holding(alloc: Global, bytes: &[u8], calls: u64) -> io::Result<Fused> {
        let mut disk = Memory::new(alloc);
        if disk.may_be_used() {
            disk.write_at(0, bytes)?;
        }
        if disk.may_be_used() {
            disk.sync()?;
        }
        Ok(Counted::new(Fuse::new(disk, calls)))
    }

    fn bytes(&self) -> &[u8] {
        self.inner().inner().bytes()
    }

    fn calls(&self) -> u64 {
        self.count()
    }
}

/// What the two files hold.
#[derive(Drop)]
pub(crate) struct Bytes {
    log: Vec<u8>,
    db: Vec<u8>,
}

impl Bytes {
    pub(crate) fn none(alloc: Global) -> Bytes {
        Bytes {
            log: Vec::new(alloc),
            db: Vec::new(alloc),
        }
    }
}

/// After how many calls of each disk it stops.
#[derive(Clone, Copy)]
pub(crate) struct Stop {
    pub(crate) log: u64,
    pub(crate) db: u64,
}

pub(crate) const NO_STOP: Stop = Stop {
    log: u64::MAX,
    db: u64::MAX,
};

/// How many calls each disk got.
#[derive(Clone, Copy)]
pub(crate) struct Calls {
    log: u64,
    db: u64,
}

impl Calls {
    /// Whether a disk that stops there has stopped.
    pub(crate) fn are_past(self, stop: Stop) -> bool {
        self.log > stop.log || self.db > stop.db
    }
}

/// Files with these bytes.
pub(crate) fn files_with<D: Tried>(
    alloc: Global,
    bytes: &Bytes,
    stop: Stop,
) -> io::Result<Files<D>> {
    Ok(Files {
        log: D::holding(alloc, &bytes.log, stop.log)?,
        db: D::holding(alloc, &bytes.db, stop.db)?,
    })
}

/// So many frames of the log are copied into the database at a time.
pub(crate) fn options(frames: usize) -> Options {
    let mut options = Options::new(1);
    options.checkpoint_frames = frames;
    options
}

pub(crate) fn calls_of<D: Tried>(files: &Files<D>) -> Calls {
    Calls {
        log: files.log.calls(),
        db: files.db.calls(),
    }
}

fn copied(alloc: Global, bytes: &[u8]) -> Result<Vec<u8>, AllocError> {
    let mut copy = Vec::new(alloc);
    copy.extend_from_slice(bytes)?;
    Ok(copy)
}

pub(crate) fn bytes_of<D: Tried>(alloc: Global, files: &Files<D>) -> Result<Bytes, AllocError> {
    Ok(Bytes {
        log: copied(alloc, files.log.bytes())?,
        db: copied(alloc, files.db.bytes())?,
    })
}

/// What a run left: all that was written, and that without what was not synced.
#[derive(Drop)]
pub(crate) struct Remains {
    written: Bytes,
    synced: Bytes,
}

/// What a power failure loses of what was not synced.
#[derive(Clone, Copy)]
pub(crate) struct Loss {
    log: bool,
    db: bool,
}

/// Nothing, that of the log, of the database, or of both.
pub(crate) const LOSSES: [Loss; 4] = [
    Loss {
        log: false,
        db: false,
    },
    Loss {
        log: true,
        db: false,
    },
    Loss {
        log: false,
        db: true,
    },
    Loss {
        log: true,
        db: true,
    },
];

pub(crate) fn left<D: Tried>(alloc: Global, mut files: Files<D>) -> Result<Remains, AllocError> {
    let written = bytes_of(alloc, &files)?;
    files.log.crash();
    files.db.crash();
    Ok(Remains {
        written,
        synced: bytes_of(alloc, &files)?,
    })
}

impl Remains {
    /// Whether there is something to lose on each disk that loses. If there is not, another loss leaves the
    /// same.
    pub(crate) fn is_lost(&self, loss: Loss) -> bool {
        let is_log_lost = self.written.log.as_slice() != self.synced.log.as_slice();
        let is_db_lost = self.written.db.as_slice() != self.synced.db.as_slice();
        (is_log_lost || !loss.log) && (is_db_lost || !loss.db)
    }

    /// Returns what is left after a power failure with that loss.
    pub(crate) fn after(&self, alloc: Global, loss: Loss) -> Result<Bytes, AllocError> {
        let log = if loss.log {
            &self.synced.log
        } else {
            &self.written.log
        };
        let db = if loss.db {
            &self.synced.db
        } else {
            &self.written.db
        };
        Ok(Bytes {
            log: copied(alloc, log)?,
            db: copied(alloc, db)?,
        })
    }
}
