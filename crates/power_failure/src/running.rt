//! A run of commands that a power failure ends, and the docket that the next run finds.
ghost use Rattle.std.specs.Prelude.{IsTrue, IfOk, IfErr, MatchResult};
ghost use Rattle.std.specs.List.{AllByRecursion};
ghost use Rattle.sqlite.specs.Files.{image_of};
ghost use Rattle.court_days.specs.Court.{CourtSettings};
ghost use Rattle.docket_history.specs.Histories.{History};
ghost use Rattle.docket_wire.specs.Valid.{IsCommand};
ghost use Rattle.docket_applying.specs.Applying.{IsDocket};
ghost use Rattle.docket_store.specs.Reopening.{HoldDocket, IsNotOpened, IsNotRecovered};
ghost use Rattle.power_failure.specs.Headline.{LeavesOnlyPrefixes, LeavesPrefix, IsPrefixReopened, KeepsFiles, KeepsPrefix};

use crate::failing::fail_power;
use docket_command::{Command, Refusal, Reply};
use docket_store::{Docket, Fault, RecoverFault, SessionEnd, reopen, session};
use sqlite::{FileStore, Files, Options};
use sqlite_disk::{Crash, Disk};
use std::alloc::Global;

/// The replies of a run before the power failed, where it got no answer, and what is left of its files.
#[derive(Drop)]
pub struct Interrupted<D: Disk> {
    pub replies: Vec<Result<Reply, Refusal>>,
    pub stopped_at: Option<(usize, Fault)>,
    pub files: Files<D>,
}

/// The replies of a run before the power failed, where it got no answer, and the docket that the next run
/// found.
#[derive(Drop)]
pub struct Reopened<D: Disk> {
    pub replies: Vec<Result<Reply, Refusal>>,
    pub stopped_at: Option<(usize, Fault)>,
    pub docket: Docket<FileStore<D>>,
}

/// Why no docket was found, before the power failed or after it.
pub enum NotReopened<D: Disk> {
    /// The first run found none.
    Before(RecoverFault<D>),
    /// The next run found none. The first got these replies, and no answer at `stopped_at`.
    After {
        replies: Vec<Result<Reply, Refusal>>,
        stopped_at: Option<(usize, Fault)>,
        fault: RecoverFault<D>,
    },
}

impl<D: Disk> From<RecoverFault<D>> for NotReopened<D> {
    ghost use Rattle.std.specs.Prelude.{◌≡◌};
    ghost use Rattle.power_failure.specs.declared.running.NotReopened.TheVariants.{Before};

    ghost from_gives = { λ e fault. fault ≡ Before e };

    fn from(fault: RecoverFault<D>) -> NotReopened<D> {
        NotReopened::Before(fault)
    }
}

/// Opens the files of a docket and answers commands in order, until all are answered or a disk fails;
/// then the power fails. A disk that fails from some call on is a stop before or within that call.
pub fn run_until_power_fails<D: Crash + Drop>(
    alloc: Global,
    files: Files<D>,
    options: Options,
    commands: &[Command],
) -> Result<Interrupted<D>, RecoverFault<D>>
    requires log { IsTrue (D.Disk.is_usable files.log) }
    requires db { IsTrue (D.Disk.is_usable files.db) }
    ensures prefix { (court : CourtSettings) (h : History) → IsDocket court h → AllByRecursion IsCommand commands.now
        → HoldDocket (image_of D.Disk files) court h
        → MatchResult result (LeavesPrefix D.Disk court h commands.now) (IsNotRecovered court h h) }
    ensures every { (court : CourtSettings) (h : History) → IsDocket court h → AllByRecursion IsCommand commands.now
        → HoldDocket (image_of D.Disk files) court h → IfOk result (LeavesOnlyPrefixes D.Disk court h commands.now) }
    ensures log { IfOk result (λ run. IsTrue (D.Disk.is_usable run.files.log)) }
    ensures db { IfOk result (λ run. IsTrue (D.Disk.is_usable run.files.db)) }
    ensures opened { IfErr result (IsNotOpened files) }
{
    let conn = reopen(alloc, files, options)?;
    let SessionEnd {
        replies,
        stopped_at,
        failure: _,
        connection,
    } = session(alloc, conn, commands)?;
    Ok(Interrupted {
        replies,
        stopped_at,
        files: fail_power(connection),
    })
}

/// Does the same; then the next run opens the files that are left and adopts their docket.
pub fn reopen_after_power_failure<D: Crash + Drop>(
    alloc: Global,
    files: Files<D>,
    options: Options,
    commands: &[Command],
) -> Result<Reopened<D>, NotReopened<D>>
    requires log { IsTrue (D.Disk.is_usable files.log) }
    requires db { IsTrue (D.Disk.is_usable files.db) }
    ensures headline { (court : CourtSettings) (h : History) → IsDocket court h → AllByRecursion IsCommand commands.now
        → HoldDocket (image_of D.Disk files) court h
        → MatchResult result (IsPrefixReopened court h commands.now) (KeepsPrefix court h commands.now) }
    ensures opened { IfErr result (KeepsFiles files) }
{
    let Interrupted {
        replies,
        stopped_at,
        files,
    } = run_until_power_fails(alloc, files, options, commands)?;
    let conn = match reopen(alloc, files, options) {
        Ok(conn) => conn,
        Err((error, left)) => {
            return Err(NotReopened::After {
                replies,
                stopped_at,
                fault: RecoverFault::NotOpened(error, left),
            });
        }
    };
    match Docket::adopt(alloc, conn) {
        Ok(docket) => Ok(Reopened {
            replies,
            stopped_at,
            docket,
        }),
        Err(returned) => {
            let fault = RecoverFault::NotAdopted(returned);
            Err(NotReopened::After {
                replies,
                stopped_at,
                fault,
            })
        }
    }
}
