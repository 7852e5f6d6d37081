//! A run over the two files that a run before it left.
use crate::disks::options;
use crate::whole_text::told;
use anyhow::{Error, anyhow};
use database_files::open_files;
use docket_command::{Command, Reply};
use docket_store::{
    AdoptFault, CreateFault, Docket, Fault, MigrateFault, RecoverFault, apply_again, recover, stop,
};
use docket_wire::read_command;
use plain_plays::eastern_court;
use sqlite::{Alter, Connection, FileStore, Files};
use sqlite_disk::Disk;
use std::alloc::Global;

/// Why a run has no text of a docket.
#[derive(Clone, Copy)]
pub(crate) enum End {
    NoCourt,
    NotUsable,
    NotOpened,
    NotMade(CreateFault),
    NotAdopted(AdoptFault),
    NotMigrated(MigrateFault),
    NotTold,
}

impl End {
    /// Whether a disk that stops may be the cause of this end.
    pub(crate) fn is_by_a_disk(self) -> bool {
        matches!(
            self,
            End::NotOpened
                | End::NotMade(CreateFault::StoreFailed)
                | End::NotAdopted(AdoptFault::StoreFailed)
                | End::NotMigrated(MigrateFault::StoreFailed)
        )
    }
}

/// The end of a run that found no docket, and its files.
pub(crate) fn ended<D: Disk + Drop>(fault: RecoverFault<D>) -> (End, Files<D>) {
    match fault {
        RecoverFault::NotOpened(_, left) => (End::NotOpened, left.into_files()),
        RecoverFault::NotAdopted(returned) => (
            End::NotAdopted(returned.fault),
            stop(returned.connection).close(),
        ),
    }
}

/// The files of a docket.
fn closed<D: Disk + Drop>(docket: Docket<FileStore<D>>) -> Files<D> {
    docket.close().into_store().close()
}

/// Returns the connection over the files, as the program opens them, or why there is none, and its files.
fn opened<D: Disk + Drop>(
    alloc: Global,
    files: Files<D>,
    frames: usize,
) -> Result<Connection<FileStore<D>>, (End, Files<D>)> {
    if !files.may_be_used() {
        return Err((End::NotUsable, files));
    }
    match open_files(alloc, files, options(frames)) {
        Ok(conn) => Ok(conn),
        Err((_, left)) => Err((End::NotOpened, left.into_files())),
    }
}

/// Returns the docket from which the run continues, or why there is none, and its files.
fn gone_on<D: Disk + Drop>(
    alloc: Global,
    files: Files<D>,
    frames: usize,
) -> Result<Docket<FileStore<D>>, (End, Files<D>)> {
    if !files.may_be_used() {
        return Err((End::NotUsable, files));
    }
    match recover(alloc, files, options(frames)) {
        Ok(docket) => Ok(docket),
        Err(fault) => Err(ended(fault)),
    }
}

/// Returns the docket from which the run continues, and its answer to the command; or why there is none, and
/// its files.
fn gone_on_with<D: Disk + Drop>(
    alloc: Global,
    files: Files<D>,
    frames: usize,
    command: &Command,
) -> Result<(Docket<FileStore<D>>, Result<Reply, Fault>), (End, Files<D>)> {
    if !files.may_be_used() {
        return Err((End::NotUsable, files));
    }
    match apply_again(alloc, files, options(frames), command) {
        Ok(answered) => Ok(answered),
        Err(fault) => Err(ended(fault)),
    }
}

/// Applies the commands of the lines, each of which must be accepted.
fn apply_lines<S: Alter>(alloc: Global, docket: &mut Docket<S>, lines: &[u8]) -> Result<(), Error> {
    for line in lines.split_inclusive(|byte| *byte == b'\n') {
        let Ok(command) = read_command(alloc, line) else {
            return Err(anyhow!("a line is no command"));
        };
        if docket.apply(&command).is_err() {
            return Err(anyhow!("a command is not accepted"));
        }
    }
    Ok(())
}

/// Makes a docket.
pub(crate) fn created<D: Disk + Drop>(
    alloc: Global,
    files: Files<D>,
    frames: usize,
) -> (Result<(), End>, Files<D>) {
    let Ok(court) = eastern_court(alloc) else {
        return (Err(End::NoCourt), files);
    };
    let conn = match opened(alloc, files, frames) {
        Ok(conn) => conn,
        Err((end, files)) => return (Err(end), files),
    };
    match Docket::create(alloc, conn, court) {
        Ok(docket) => (Ok(()), closed(docket)),
        Err(returned) => (
            Err(End::NotMade(returned.fault)),
            stop(returned.connection).close(),
        ),
    }
}

/// Continues from the docket, and applies the commands of the lines.
pub(crate) fn filled<D: Disk + Drop>(
    alloc: Global,
    files: Files<D>,
    frames: usize,
    lines: &[u8],
) -> Result<Files<D>, Error> {
    match gone_on(alloc, files, frames) {
        Ok(mut docket) => {
            let applied = apply_lines(alloc, &mut docket, lines);
            let files = closed(docket);
            applied?;
            Ok(files)
        }
        Err(_) => Err(anyhow!("no docket was found")),
    }
}

/// Returns the text of the docket from which the run continues.
pub(crate) fn found<D: Disk + Drop>(
    alloc: Global,
    files: Files<D>,
    frames: usize,
) -> (Result<Vec<u8>, End>, Files<D>) {
    match gone_on(alloc, files, frames) {
        Ok(mut docket) => {
            let told = told(alloc, &mut docket).map_err(|_| End::NotTold);
            (told, closed(docket))
        }
        Err((end, files)) => (Err(end), files),
    }
}

/// Returns the text of the docket, if one was made.
pub(crate) fn found_if_made<D: Disk + Drop>(
    alloc: Global,
    files: Files<D>,
    frames: usize,
) -> (Result<Vec<u8>, End>, Files<D>) {
    let conn = match opened(alloc, files, frames) {
        Ok(conn) => conn,
        Err((end, files)) => return (Err(end), files),
    };
    match Docket::adopt(alloc, conn) {
        Ok(mut docket) => {
            let told = told(alloc, &mut docket).map_err(|_| End::NotTold);
            (told, closed(docket))
        }
        Err(returned) => (
            Err(End::NotAdopted(returned.fault)),
            stop(returned.connection).close(),
        ),
    }
}

/// Returns the answer to the command where the run continues from the docket.
pub(crate) fn given<D: Disk + Drop>(
    alloc: Global,
    files: Files<D>,
    frames: usize,
    command: &Command,
) -> (Result<Result<Reply, Fault>, End>, Files<D>) {
    match gone_on_with(alloc, files, frames, command) {
        Ok((docket, answer)) => (Ok(answer), closed(docket)),
        Err((end, files)) => (Err(end), files),
    }
}

/// Executes the SQL.
pub(crate) fn executed<D: Disk + Drop>(
    alloc: Global,
    files: Files<D>,
    frames: usize,
    sql: &str,
) -> Result<Files<D>, Error> {
    match opened(alloc, files, frames) {
        Ok(mut conn) => {
            let executed = conn.execute_batch(sql);
            let files = stop(conn).close();
            executed?;
            Ok(files)
        }
        Err(_) => Err(anyhow!("the files are not opened")),
    }
}

/// Returns the result of the migration of a docket, and the connection.
fn migrate<S: Alter>(
    alloc: Global,
    conn: Connection<S>,
) -> (Result<(), MigrateFault>, Connection<S>) {
    match Docket::migrate(alloc, conn) {
        Ok(conn) => (Ok(()), conn),
        Err(returned) => (Err(returned.fault), returned.connection),
    }
}

/// Migrates the docket of the files.
pub(crate) fn migrated<D: Disk + Drop>(
    alloc: Global,
    files: Files<D>,
    frames: usize,
) -> (Result<(), End>, Files<D>) {
    match opened(alloc, files, frames) {
        Ok(conn) => {
            let (answer, conn) = migrate(alloc, conn);
            (answer.map_err(End::NotMigrated), stop(conn).close())
        }
        Err((end, files)) => (Err(end), files),
    }
}
