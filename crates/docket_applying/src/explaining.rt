//! What decides where a deadline stands.
ghost use Rattle.std.specs.Prelude.{◌≡◌, ◌↔◌, ◌∷◌, [], List, Option, false, IfOk, IfSome, IsTrue};
ghost use Rattle.court_days.specs.Court.{CourtSettings, zone_of};
ghost use Rattle.court_rules.specs.Standings.{AreActs};
ghost use Rattle.docket_history.specs.Histories.{History, deadlines};
ghost use Rattle.docket_history.specs.Views.{deadline_at};
ghost use Rattle.docket_history.specs.declared.item.CalendarItem.{CalendarItem as Item};
ghost use Rattle.docket_applying.specs.Asking.{LeavesIdle};
ghost use Rattle.docket_applying.specs.Sound.{IsSoundCase};
ghost use Rattle.docket_applying.specs.Applying.{Stands, Asks};
ghost use Rattle.docket_applying.specs.Dockets.{serving};
ghost use Rattle.docket_applying.specs.Grounds.{AreGrounds};

use crate::asking::calendar_taken;
use crate::fault::{Fault, read_fault};
use crate::sound::is_sound_case;
use crate::viewing::deadline_view;
use court_days::{Calendar, Court};
use docket_history::{DeadlineView, StandingCalendar, calendar_of};
use sqlite::{Alter, Connection, Error};
use std::alloc::Global;
use std::slice;

/// What decides where a deadline of a docket stands: its rule and its acts, and the calendar.
#[derive(Drop)]
pub struct Grounds {
    pub deadline: DeadlineView,
    pub calendar: Calendar,
}

/// The deadline of a number, from 1, of a case.
fn deadline_numbered<S: Alter>(
    conn: &mut Connection<S>,
    alloc: Global,
    case: u32,
    number: u32,
    failure: &mut Option<Error>,
) -> Result<Option<DeadlineView>, Fault>
    requires { conn.old.in_transaction ≡ false }
    ensures leaves { LeavesIdle S.Store conn.old conn.new failure.new result }
    ensures answer { (court : CourtSettings) (kept : Option (List Item)) (h : History) → Stands S.Store (serving conn.old court kept) h
        → Asks S.Store (serving conn.new court kept) h (λ found. found ≡ deadline_at (deadlines case h) number) result }
{
    match deadline_view(conn, alloc, case, number) {
        Ok(found) => Ok(found),
        Err(fault) => Err(read_fault(conn, fault, failure)),
    }
}

/// Whether a history can show the deadline.
fn is_sound_deadline(court: &Court, deadline: &DeadlineView) -> bool
    ensures { IsTrue result ↔ IsSoundCase court.now (deadline.now ∷ []) }
{
    is_sound_case(court, slice::from_ref(deadline))
}

/// Returns what decides where the deadline of a number, from 1, of a case stands. The calendar is kept in
/// `kept`; if the database fails, `failure` has its error.
pub fn grounds_of<S: Alter>(
    conn: &mut Connection<S>,
    alloc: Global,
    court: &Court,
    kept: &mut Option<StandingCalendar>,
    case: u32,
    number: u32,
    failure: &mut Option<Error>,
) -> Result<Option<Grounds>, Fault>
    requires { conn.old.in_transaction ≡ false }
    ensures leaves { LeavesIdle S.Store conn.old conn.new failure.new result }
    ensures answer { (h : History) → Stands S.Store (serving conn.old court.now kept.old) h
        → Asks S.Store (serving conn.new court.now kept.new) h (AreGrounds h case number) result }
    ensures acts { IfOk result (λ found. IfSome found (λ grounds. AreActs (zone_of court.now) grounds.deadline.acts)) }
{
    let Some(deadline) = deadline_numbered(conn, alloc, case, number, failure)? else {
        return Ok(None);
    };
    if !is_sound_deadline(court, &deadline) {
        return Err(Fault::Damaged);
    }
    let standing = calendar_taken(conn, alloc, kept, failure)?;
    let calendar = calendar_of(alloc, standing.as_slice());
    *kept = Some(standing);
    Ok(Some(Grounds {
        deadline,
        calendar: calendar?,
    }))
}
