//! Continuing where a run stopped, also one that a power failure stopped.
ghost use Rattle.std.specs.Prelude.{◌≡◌, ◌≤◌, IsTrue, IfErr, MatchResult};
ghost use Rattle.sqlite_store.specs.declared.store.FileStore.{FileStore};
ghost use Rattle.sqlite.specs.Files.{over_files, image_of};
ghost use Rattle.sqlite.specs.Held.{state};
ghost use Rattle.sqlite.specs.View.{doubt};
ghost use Rattle.court_days.specs.Court.{CourtSettings};
ghost use Rattle.docket_history.specs.Histories.{History};
ghost use Rattle.docket_decisions.specs.Outcomes.{after};
ghost use Rattle.docket_applying.specs.Applying.{Applies, IsDocket, Stands, StandsFor, docket_rows};
ghost use Rattle.docket_store.specs.Opening.{IsAdopted, IsNotAdopted};
ghost use Rattle.docket_store.specs.Reopening.{GoesOn, IsEither, IsNotOpened, IsNotRecovered, LeavesEither, MayLeave};

use crate::docket::Docket;
use crate::reopening::reopen;
use crate::returned::Returned;
use docket_applying::Fault;
use docket_command::{Command, Reply};
use docket_scan::AdoptFault;
use sqlite::{Connection, Error, FileStore, Files, Leftover, Options};
use sqlite_disk::Disk;
use std::alloc::Global;

/// Why a run did not continue, and what is left of its files.
pub enum RecoverFault<D: Disk> {
    /// The files could not be opened.
    NotOpened(Error, Leftover<D>),
    /// They were opened, and not adopted.
    NotAdopted(Returned<FileStore<D>, AdoptFault>),
}

impl<D: Disk> From<(Error, Leftover<D>)> for RecoverFault<D> {
    ghost use Rattle.std.specs.Prelude.{◌≡◌};
    ghost use Rattle.docket_store.specs.declared.recovering.RecoverFault.TheVariants.{NotOpened};

    ghost from_gives = { λ e fault. fault ≡ NotOpened e.0 e.1 };

    fn from(fault: (Error, Leftover<D>)) -> RecoverFault<D> {
        RecoverFault::NotOpened(fault.0, fault.1)
    }
}

impl<D: Disk> From<Returned<FileStore<D>, AdoptFault>> for RecoverFault<D> {
    ghost use Rattle.std.specs.Prelude.{◌≡◌};
    ghost use Rattle.docket_store.specs.declared.recovering.RecoverFault.TheVariants.{NotAdopted};

    ghost from_gives = { λ returned fault. fault ≡ NotAdopted returned };

    fn from(fault: Returned<FileStore<D>, AdoptFault>) -> RecoverFault<D> {
        RecoverFault::NotAdopted(fault)
    }
}

// A call that is generic over its store takes the prover long at the store of files. So each of the next two
// functions makes one such call and no more.

/// Adopts the docket that files hold, as `Docket::adopt` does.
fn adopt_files<D: Disk + Drop>(
    alloc: Global,
    conn: Connection<FileStore<D>>,
) -> Result<Docket<FileStore<D>>, Returned<FileStore<D>, AdoptFault>>
    ensures adopted { (court : CourtSettings) (h : History) → IsDocket court h → StandsFor over_files conn court h
        → MatchResult result (λ docket. IsAdopted over_files docket court h)
        (λ returned. IsNotAdopted over_files returned.connection (docket_rows court h) returned.fault) }
{
    Docket::adopt(alloc, conn)
}

/// Applies a command to a docket in files, as `Docket::apply` does.
fn apply_in_files<D: Disk + Drop>(
    docket: &mut Docket<FileStore<D>>,
    command: &Command,
) -> Result<Reply, Fault>
    ensures court { docket.new.court ≡ docket.old.court }
    ensures answer { (h : History) → Stands over_files docket.old h → Applies over_files docket.new h command.now result }
    ensures clean { doubt (state over_files docket.old.conn).is_clean ≤ doubt (state over_files docket.new.conn).is_clean }
{
    docket.apply(command)
}

/// Opens the database file and its log, whatever a run left in them, and adopts their docket. If a power
/// failure stopped the run at a command, it is the docket without the command or with it. Files that are not
/// opened hold what they held, and a docket that is not adopted stays.
pub fn recover<D: Disk + Drop>(
    alloc: Global,
    files: Files<D>,
    options: Options,
) -> Result<Docket<FileStore<D>>, RecoverFault<D>>
    requires log { IsTrue (D.Disk.is_usable files.log) }
    requires db { IsTrue (D.Disk.is_usable files.db) }
    ensures either { (it : FileStore D D.Disk) (court : CourtSettings) (h next : History) → IsDocket court h → IsDocket court next
        → LeavesEither it court h next → MayLeave it (image_of D.Disk files)
        → MatchResult result (λ docket. IsEither over_files docket court h next) (IsNotRecovered court h next) }
    ensures opened { IfErr result (IsNotOpened files) }
{
    let conn = reopen(alloc, files, options)?;
    let docket = adopt_files(alloc, conn)?;
    Ok(docket)
}

/// Continues where a power failure stopped a run at a command, and gives the command again. An answer is the
/// one that it had or was to have, and the command stands once.
pub fn apply_again<D: Disk + Drop>(
    alloc: Global,
    files: Files<D>,
    options: Options,
    command: &Command,
) -> Result<(Docket<FileStore<D>>, Result<Reply, Fault>), RecoverFault<D>>
    requires log { IsTrue (D.Disk.is_usable files.log) }
    requires db { IsTrue (D.Disk.is_usable files.db) }
    ensures once { (it : FileStore D D.Disk) (court : CourtSettings) (h : History) → IsDocket court h → IsDocket court (after court h command.now)
        → LeavesEither it court h (after court h command.now) → MayLeave it (image_of D.Disk files)
        → GoesOn court h command.now result }
    ensures opened { IfErr result (IsNotOpened files) }
{
    let mut docket = recover(alloc, files, options)?;
    let answer = apply_in_files(&mut docket, command);
    Ok((docket, answer))
}
