//! Questions to the docket that is found.
ghost use Rattle.std.specs.Prelude.{◌≡◌, ◌≤◌, IfErr, IfOk, IsTrue, MatchResult};
ghost use Rattle.std.specs.List.{AllByRecursion};
ghost use Rattle.sqlite.specs.Files.{image_of};
ghost use Rattle.sqlite.specs.Held.{state};
ghost use Rattle.sqlite.specs.State.{HasCleanDisk};
ghost use Rattle.sqlite.specs.View.{doubt};
ghost use Rattle.court_days.specs.Court.{CourtSettings};
ghost use Rattle.docket_history.specs.Histories.{History};
ghost use Rattle.docket_wire.specs.Valid.{IsCommand};
ghost use Rattle.docket_applying.specs.Applying.{IsDocket, Stands};
ghost use Rattle.docket_store.specs.Reopening.{HoldDocket};
ghost use Rattle.power_failure.specs.Headline.{IsPrefixTold, KeepsFilesUntold, KeepsUntold, StaysUntold, Tells};

use crate::running::{NotReopened, Reopened, reopen_after_power_failure};
use court_days::Day;
use docket_command::Command;
use docket_history::{CaseRecord, DeadlineLine};
use docket_store::{CalendarEnd, Docket, Fault};
use sqlite::{Alter, Files, Options};
use sqlite_disk::{Crash, Disk};
use std::alloc::Global;
use std::io::Write;

/// The question: a case and its deadlines, by its number, and the calendar of days, both included.
#[derive(Clone, Copy)]
pub struct Question {
    pub number: u32,
    pub from: Day,
    pub to: Day,
}

/// The answers of a docket: a case, its deadlines, and how many lines its calendar has, which is written.
#[derive(Drop)]
pub struct Told {
    pub case: Option<CaseRecord>,
    pub deadlines: Option<Vec<DeadlineLine>>,
    pub lines: u32,
}

/// Why a docket gave no answers, or not all.
#[derive(Clone, Copy)]
pub enum TellFault {
    Case(Fault),
    Calendar(CalendarEnd),
}

impl From<Fault> for TellFault {
    ghost use Rattle.std.specs.Prelude.{◌≡◌};
    ghost use Rattle.power_failure.specs.declared.telling.TellFault.TheVariants.{Case};

    ghost from_gives = { λ e fault. fault ≡ Case e };

    fn from(fault: Fault) -> TellFault {
        TellFault::Case(fault)
    }
}

impl From<CalendarEnd> for TellFault {
    ghost use Rattle.std.specs.Prelude.{◌≡◌};
    ghost use Rattle.power_failure.specs.declared.telling.TellFault.TheVariants.{Calendar};

    ghost from_gives = { λ e fault. fault ≡ Calendar e };

    fn from(end: CalendarEnd) -> TellFault {
        TellFault::Calendar(end)
    }
}

/// Why a docket gave no answers after a power failure.
pub enum Untold<D: Disk> {
    /// No docket was found.
    NotReopened(NotReopened<D>),
    /// A docket was found, and gave no answers, or not all.
    NotTold {
        found: Reopened<D>,
        fault: TellFault,
    },
}

impl<D: Disk> From<NotReopened<D>> for Untold<D> {
    ghost use Rattle.std.specs.Prelude.{◌≡◌};
    ghost use Rattle.power_failure.specs.declared.telling.Untold.TheVariants.{NotReopened};

    ghost from_gives = { λ e fault. fault ≡ NotReopened e };

    fn from(fault: NotReopened<D>) -> Untold<D> {
        Untold::NotReopened(fault)
    }
}

/// Asks a docket for a case, its deadlines and a calendar.
pub fn tell<S: Alter, W: Write>(
    docket: &mut Docket<S>,
    asked: Question,
    writer: &mut W,
) -> Result<Told, TellFault>
    ensures court { docket.new.court ≡ docket.old.court }
    ensures clean { doubt (state S.Store docket.old.conn).is_clean ≤ doubt (state S.Store docket.new.conn).is_clean }
    ensures told { (h : History) → Stands S.Store docket.old h
        → IfOk result (λ told. Stands S.Store docket.new h
        × (HasCleanDisk (state S.Store docket.new.conn) → Tells docket.new.court h asked (W.contents writer.old) (W.contents writer.new) told)) }
    ensures untold { (h : History) → Stands S.Store docket.old h → IfErr result (StaysUntold S.Store docket.new h) }
{
    let case = docket.case(asked.number)?;
    let deadlines = docket.deadlines(asked.number)?;
    let lines = docket.calendar(asked.from, asked.to, writer)?;
    Ok(Told {
        case,
        deadlines,
        lines,
    })
}

/// Does a whole run, a power failure, and the questions of the next run. Each answer of the first run is the
/// one that its command is to have. The docket that is found is the one that a prefix of the commands
/// defines, with every acknowledged one and at most one more. The answers to the questions are that docket's.
pub fn tell_after_power_failure<D: Crash + Drop, W: Write>(
    alloc: Global,
    files: Files<D>,
    options: Options,
    commands: &[Command],
    asked: Question,
    writer: &mut W,
) -> Result<(Reopened<D>, Told), Untold<D>>
    requires log { IsTrue (D.Disk.is_usable files.log) }
    requires db { IsTrue (D.Disk.is_usable files.db) }
    ensures headline { (court : CourtSettings) (h : History) → IsDocket court h → AllByRecursion IsCommand commands.now
        → HoldDocket (image_of D.Disk files) court h
        → MatchResult result (λ r. IsPrefixTold court h commands.now asked (W.contents writer.old) (W.contents writer.new) r.0 r.1)
        (KeepsUntold court h commands.now) }
    ensures opened { IfErr result (KeepsFilesUntold files) }
{
    let mut found = reopen_after_power_failure(alloc, files, options, commands)?;
    match tell(&mut found.docket, asked, writer) {
        Ok(told) => Ok((found, told)),
        Err(fault) => Err(Untold::NotTold { found, fault }),
    }
}
