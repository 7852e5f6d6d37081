//! The migration of a docket of the first version of the tables, stopped after each number of calls of each
//! disk until it meets no stop. The first version is left or the second, and given again the migration ends.
use crate::disks::{
    Bytes, Fused, LOSSES, NO_STOP, Stop, Tried, bytes_of, calls_of, files_with, left,
};
use crate::going_on::{End, executed, found, migrated};
use crate::sweeping::{Stoppable, Stopping, Tally, swept};
use crate::{EACH_LOG, FEW};
use anyhow::{Error, anyhow};
use docket_store::{AdoptFault, MigrateFault, Version};
use sqlite::Files;
use std::alloc::Global;
use std::str;

/// A docket of the first version in two files, and its text once it is migrated.
#[derive(Drop)]
struct Migration<'a> {
    before: Bytes,
    frames: usize,
    told: &'a [u8],
}

/// How often the files that are left are opened: to see what stands, to give the migration again, and to see
/// what stands then.
const REOPENINGS: u64 = 3;

impl Stoppable for Migration<'_> {
    fn stopped(&self, alloc: Global, stopping: Stopping, calls: u64) -> Result<(bool, u64), Error> {
        stopped_once::<Fused>(alloc, self, stopping.after(calls))
    }
}

/// The two files of the docket that the SQL makes.
fn laid_out<D: Tried>(alloc: Global, sql: &str, frames: usize) -> Result<Bytes, Error> {
    let files = files_with::<D>(alloc, &Bytes::none(alloc), NO_STOP)?;
    let files = executed(alloc, files, frames, sql)?;
    Ok(bytes_of(alloc, &files)?)
}

/// Returns the text of the docket of these files after a migration that meets no stop.
fn told_after<D: Tried>(alloc: Global, before: &Bytes, frames: usize) -> Result<Vec<u8>, Error> {
    let files = files_with::<D>(alloc, before, NO_STOP)?;
    let (migrated, files) = migrated(alloc, files, frames);
    if migrated.is_err() {
        return Err(anyhow!("the docket is not migrated"));
    }
    let (told, _) = found(alloc, files, frames);
    match told {
        Ok(told) => Ok(told),
        Err(_) => Err(anyhow!("the docket that is migrated is not found")),
    }
}

/// Whether the migration was acknowledged. If a disk stopped it may not be.
fn is_acknowledged(migrated: Result<(), End>) -> Result<bool, Error> {
    match migrated {
        Ok(()) => Ok(true),
        Err(end) if end.is_by_a_disk() => Ok(false),
        Err(_) => Err(anyhow!("neither migrated nor a disk that stopped")),
    }
}

/// The version that is left, by what the next run finds: the second if the migration was acknowledged.
fn version_left(
    migration: &Migration<'_>,
    told: Result<Vec<u8>, End>,
    acknowledged: bool,
) -> Result<Version, Error> {
    match told {
        Ok(told) if told.as_slice() == migration.told => Ok(Version::Second),
        Ok(_) => Err(anyhow!("a docket that tells something else is left")),
        Err(End::NotAdopted(AdoptFault::OtherVersion)) if !acknowledged => Ok(Version::First),
        Err(End::NotAdopted(AdoptFault::OtherVersion)) => {
            Err(anyhow!("an acknowledged migration is lost"))
        }
        Err(_) => Err(anyhow!("neither version is left")),
    }
}

/// Whether this is the answer to the migration, given again where that version is left.
fn is_answer_to(version: Version, answer: Result<(), End>) -> bool {
    match (version, answer) {
        (Version::First, answer) => answer.is_ok(),
        (Version::Second, Err(End::NotMigrated(MigrateFault::OtherVersion))) => true,
        (Version::Second, _) => false,
    }
}

/// Continues from what is left, and gives the migration again: the docket is in the second version then, and
/// has the same text.
fn goes_on<D: Tried>(
    alloc: Global,
    migration: &Migration<'_>,
    bytes: &Bytes,
    acknowledged: bool,
) -> Result<(), Error> {
    let files = files_with::<D>(alloc, bytes, NO_STOP)?;
    let (told, files) = found(alloc, files, migration.frames);
    let version = version_left(migration, told, acknowledged)?;
    let (answer, files) = migrated(alloc, files, migration.frames);
    if !is_answer_to(version, answer) {
        return Err(anyhow!("given again, the migration has another answer"));
    }
    let (told, _) = found(alloc, files, migration.frames);
    match told {
        Ok(told) if told.as_slice() == migration.told => Ok(()),
        _ => Err(anyhow!("given again, the migration does not end")),
    }
}

/// Migrates with a stop, and continues from all that power failures leave. Returns whether a disk stopped,
/// and how often the files were opened anew.
fn stopped_once<D: Tried>(
    alloc: Global,
    migration: &Migration<'_>,
    stop: Stop,
) -> Result<(bool, u64), Error> {
    let files = files_with::<D>(alloc, &migration.before, stop)?;
    let (migrated, files) = migrated(alloc, files, migration.frames);
    let is_stopped = calls_of(&files).are_past(stop);
    let left = left(alloc, files)?;
    let acknowledged = is_acknowledged(migrated)?;
    if !is_stopped && !acknowledged {
        return Err(anyhow!("no stop, and not migrated"));
    }
    let mut reopenings = 0u64;
    for loss in LOSSES {
        if left.is_lost(loss) {
            let bytes = left.after(alloc, loss)?;
            goes_on::<D>(alloc, migration, &bytes, acknowledged)?;
            reopenings = reopenings.saturating_add(REOPENINGS);
        }
    }
    Ok((is_stopped, reopenings))
}

/// Returns the text of the docket that the SQL makes, once it is migrated, wherever that is stopped, and how
/// many stops there were.
pub fn migrations(alloc: Global, sql: &[u8]) -> Result<(Vec<u8>, Tally), Error> {
    let sql = str::from_utf8(sql).map_err(|_| anyhow!("the input is no text"))?;
    let told = told_after::<Fused>(alloc, &laid_out::<Fused>(alloc, sql, FEW)?, FEW)?;
    let mut tally = Tally::NONE;
    for frames in EACH_LOG {
        let migration = Migration {
            before: laid_out::<Fused>(alloc, sql, frames)?,
            frames,
            told: told.as_slice(),
        };
        tally = tally.with(swept(alloc, &migration)?);
    }
    Ok((told, tally))
}
