//! Deciding a command, by the docket that the tables hold.
ghost use Rattle.std.specs.Prelude.{◌≡◌, [], false, if◌then◌else◌, IfErr, IfOk, Some};
ghost use Rattle.sqlite.specs.Held.{state};
ghost use Rattle.sqlite.specs.State.{HasCleanDisk};
ghost use Rattle.court_days.specs.Court.{CourtSettings};
ghost use Rattle.docket_history.specs.Actions.{subject_of};
ghost use Rattle.docket_history.specs.Histories.{History, items_of, standing_rows};
ghost use Rattle.docket_decisions.specs.Outcomes.{shown};
ghost use Rattle.docket_wire.specs.Valid.{IsCommand};
ghost use Rattle.docket_wire.specs.Writing.{canonical};
ghost use Rattle.docket_tables.specs.Asking.{OnlyAsks};
ghost use Rattle.docket_tables.specs.Layouts.{Rows};
ghost use Rattle.docket_tables.specs.Readings.{Gives};
ghost use Rattle.docket_tables.specs.Stands.{HoldsRows};
ghost use Rattle.docket_applying.specs.Asking.{LeavesIdle};
ghost use Rattle.docket_applying.specs.AnyRows.{RepeatsReceipt, ShowsReceipt};
ghost use Rattle.docket_applying.specs.Applying.{Decides, IsDocket, IsNoFailure, StandsFor, Keeps, Stands, Shows, Judges, docket_rows};
ghost use Rattle.docket_applying.specs.Dockets.{serving};

use crate::fault::{Fault, read_fault};
use crate::sound::{is_sound, is_sound_calendar};
use crate::viewing::{calendar_items, view};
use court_days::Court;
use docket_command::Command;
use docket_decisions::{DecideFault, Decision, decide};
use docket_history::{StandingCalendar, Subject, View};
use docket_tables::ReadFault;
use docket_wire::command_text;
use sqlite::{Alter, Connection, Error};
use std::alloc::Global;
use std::mem;

/// Reads the calendar from the tables; it is tested and built once.
fn read_calendar<S: Alter>(
    conn: &mut Connection<S>,
    alloc: Global,
) -> Result<StandingCalendar, ReadFault>
    ensures only { OnlyAsks S.Store conn.old conn.new result }
    ensures read { (court : CourtSettings) (h : History) → IsDocket court h → StandsFor S.Store conn.old court h
        → Gives S.Store conn.new (docket_rows court h) (λ items. items ≡ items_of (standing_rows h)) result }
{
    let items = calendar_items(conn, alloc)?;
    if !is_sound_calendar(items.as_slice()) {
        return Err(ReadFault::Damaged);
    }
    Ok(StandingCalendar::new(alloc, items)?)
}

/// Returns the calendar: takes the kept one, or reads the tables.
pub(crate) fn take_calendar<S: Alter>(
    conn: &mut Connection<S>,
    alloc: Global,
    kept: &mut Option<StandingCalendar>,
) -> Result<StandingCalendar, ReadFault>
    ensures only { OnlyAsks S.Store conn.old conn.new result }
    ensures kept { (h : History) → Keeps kept.old h → Keeps kept.new h }
    ensures read { (court : CourtSettings) (h : History) → Stands S.Store (serving conn.old court kept.old) h
        → Gives S.Store conn.new (docket_rows court h) (λ items. items ≡ items_of (standing_rows h)) result }
{
    match kept.take() {
        Some(standing) => Ok(standing),
        None => read_calendar(conn, alloc),
    }
}

/// Returns the calendar, if it is needed. It takes the kept one.
fn calendar_asked<S: Alter>(
    conn: &mut Connection<S>,
    alloc: Global,
    kept: &mut Option<StandingCalendar>,
    asked: bool,
) -> Result<StandingCalendar, ReadFault>
    ensures only { OnlyAsks S.Store conn.old conn.new result }
    ensures kept { (h : History) → Keeps kept.old h → Keeps kept.new h }
    ensures read { (court : CourtSettings) (h : History) → Stands S.Store (serving conn.old court kept.old) h
        → Gives S.Store conn.new (docket_rows court h) (λ items. items ≡ (if asked then items_of (standing_rows h) else [])) result }
{
    if !asked {
        return Ok(StandingCalendar::empty(alloc));
    }
    take_calendar(conn, alloc, kept)
}

/// Reads what the tables show about the command.
fn shown<S: Alter>(
    conn: &mut Connection<S>,
    alloc: Global,
    kept: &mut Option<StandingCalendar>,
    command: &Command,
    subject: Subject,
    body: &str,
) -> Result<View, ReadFault>
    requires about { subject ≡ subject_of command.now.action }
    requires body { body.now ≡ canonical command.now }
    requires lawful { IsCommand command.now }
    ensures only { OnlyAsks S.Store conn.old conn.new result }
    ensures kept { (h : History) → Keeps kept.old h → Keeps kept.new h }
    ensures read { (court : CourtSettings) (h : History) → Stands S.Store (serving conn.old court kept.old) h
        → Gives S.Store conn.new (docket_rows court h) (λ view. view ≡ shown court h command.now) result }
    ensures receipt { (rows : Rows) → HoldsRows S.Store conn.old rows → HasCleanDisk (state S.Store conn.new) → IfOk result (ShowsReceipt rows command.now) }
{
    let mut view = view(conn, alloc, command, subject, body)?;
    let calendar = calendar_asked(conn, alloc, kept, subject.asks.calendar)?;
    view.calendar = calendar;
    Ok(view)
}

/// Reads what the docket shows about the command.
fn look<S: Alter>(
    conn: &mut Connection<S>,
    alloc: Global,
    kept: &mut Option<StandingCalendar>,
    command: &Command,
    subject: Subject,
    body: &str,
    failure: &mut Option<Error>,
) -> Result<View, Fault>
    requires idle { conn.old.in_transaction ≡ false }
    requires about { subject ≡ subject_of command.now.action }
    requires body { body.now ≡ canonical command.now }
    requires lawful { IsCommand command.now }
    ensures leaves { LeavesIdle S.Store conn.old conn.new failure.new result }
    ensures shown { (court : CourtSettings) (h : History) → Stands S.Store (serving conn.old court kept.old) h
        → Shows S.Store (serving conn.new court kept.new) h command.now result }
    ensures receipt { (rows : Rows) → HoldsRows S.Store conn.old rows → HasCleanDisk (state S.Store conn.new) → IfOk result (ShowsReceipt rows command.now) }
{
    match shown(conn, alloc, kept, command, subject, body) {
        Ok(view) => Ok(view),
        Err(fault) => Err(read_fault(conn, fault, failure)),
    }
}

/// Keeps the calendar of the view again, if it was needed.
fn keep_asked(alloc: Global, kept: &mut Option<StandingCalendar>, view: &mut View, asked: bool)
    ensures { kept.new ≡ (if asked then Some view.old.calendar else kept.old) }
{
    if asked {
        *kept = Some(mem::replace(&mut view.calendar, StandingCalendar::empty(alloc)));
    }
}

/// Decides the command by what the docket shows about it. The calendar of the view is kept again, if the
/// action needed it.
fn decide_by(
    alloc: Global,
    court: &Court,
    kept: &mut Option<StandingCalendar>,
    view: &mut View,
    command: &Command,
    subject: Subject,
) -> Result<Decision, Fault>
    requires { subject ≡ subject_of command.now.action }
    ensures kept { (h : History) → view.old ≡ shown court.now h command.now → Keeps kept.old h → Keeps kept.new h }
    ensures decided { (h : History) → IsDocket court.now h → view.old ≡ shown court.now h command.now → Decides court.now h command.now result }
    ensures repeats { (rows : Rows) → ShowsReceipt rows command.now view.old → IfOk result (RepeatsReceipt rows command.now) }
    ensures fault { IfErr result IsNoFailure }
{
    if !is_sound(court, view) {
        return Err(Fault::Damaged);
    }
    let decided = decide(alloc, view, court, command);
    keep_asked(alloc, kept, view, subject.asks.calendar);
    match decided {
        Ok(decision) => Ok(decision),
        Err(DecideFault::Refused(refusal)) => Err(Fault::Refused(refusal)),
        Err(DecideFault::NoMemory) => Err(Fault::NoMemory),
    }
}

/// Decides the command. It writes nothing yet.
pub(crate) fn judge<S: Alter>(
    conn: &mut Connection<S>,
    alloc: Global,
    court: &Court,
    kept: &mut Option<StandingCalendar>,
    command: &Command,
    body: &str,
    failure: &mut Option<Error>,
) -> Result<Decision, Fault>
    requires idle { conn.old.in_transaction ≡ false }
    requires body { body.now ≡ canonical command.now }
    requires lawful { IsCommand command.now }
    ensures leaves { LeavesIdle S.Store conn.old conn.new failure.new result }
    ensures judged { (h : History) → Stands S.Store (serving conn.old court.now kept.old) h
        → Judges S.Store (serving conn.new court.now kept.new) h command.now result }
    ensures repeats { (rows : Rows) → HoldsRows S.Store conn.old rows → HasCleanDisk (state S.Store conn.new)
        → IfOk result (RepeatsReceipt rows command.now) }
{
    let subject = Subject::of(&command.action);
    let mut view = look(conn, alloc, kept, command, subject, body, failure)?;
    decide_by(alloc, court, kept, &mut view, command, subject)
}

/// Decides a command by the docket of the court in the database, and writes nothing. `kept` is the calendar that
/// is kept beside the connection; if the database fails, `failure` has its error.
pub fn decide_on<S: Alter>(
    conn: &mut Connection<S>,
    alloc: Global,
    court: &Court,
    kept: &mut Option<StandingCalendar>,
    command: &Command,
    failure: &mut Option<Error>,
) -> Result<Decision, Fault>
    requires { conn.old.in_transaction ≡ false }
    ensures leaves { LeavesIdle S.Store conn.old conn.new failure.new result }
    ensures judged { (h : History) → Stands S.Store (serving conn.old court.now kept.old) h
        → Judges S.Store (serving conn.new court.now kept.new) h command.now result }
{
    let body = command_text(alloc, command)?;
    judge(conn, alloc, court, kept, command, body.as_str(), failure)
}
