//! The calendar of a docket, written row by row.
ghost use Rattle.std.specs.Prelude.{◌≡◌, ◌↔◌, List, Option, IfErr, is_some, true, false};
ghost use Rattle.sqlite.specs.Held.{state};
ghost use Rattle.sqlite.specs.State.{HasCleanDisk, Survives};
ghost use Rattle.docket_history.specs.Histories.{History};
ghost use Rattle.docket_history.specs.Records.{calendar as entered_by};
ghost use Rattle.docket_history.specs.declared.item.CalendarItem.{CalendarItem as Item};
ghost use Rattle.docket_tables.specs.Layouts.{Rows};
ghost use Rattle.docket_tables.specs.Stands.{HoldsRows};
ghost use Rattle.docket_applying.specs.AnyRows.{PreservesListing};
ghost use Rattle.docket_applying.specs.Applying.{Stands};
ghost use Rattle.docket_applying.specs.Causes.{IsCausedEnd, IsNamedEnd};
ghost use Rattle.docket_applying.specs.Dockets.{serving};
ghost use Rattle.docket_applying.specs.Listing.{HasBroken, Lists};
ghost use Rattle.docket_applying.specs.declared.fault.Fault.TheVariants as fault;

use crate::asking::calendar_taken;
use crate::fault::{Fault, read_fault};
use court_days::{Calendar, Court, Day};
use docket_calendar::{Stop, calendar};
use docket_history::StandingCalendar;
use sqlite::{Alter, Connection, Error};
use std::alloc::Global;
use std::io::Write;

/// Why a calendar, or another text that is written while the docket is read, was not written whole.
#[derive(Clone, Copy)]
pub enum CalendarEnd {
    /// The docket returned no more of it. A front of the text went out.
    Store(Fault),
    /// A write failed, or wrote nothing. A front of the text went out.
    WriteFailed,
}

/// Why bytes and a calendar behind them were not written whole.
#[derive(Clone, Copy)]
pub enum ListingEnd {
    /// The docket returned not even a first line. Nothing was written.
    NotBegun(Fault),
    /// The docket returned no more of it. A front of the whole went out.
    Broken(Fault),
    /// A write failed, or wrote nothing. A front of the whole went out.
    WriteFailed,
}

/// Whether the database failed.
fn is_broken_store(answer: &Result<u32, ListingEnd>) -> bool
    ensures { (result ≡ true) ↔ HasBroken answer.now }
{
    matches!(
        answer,
        Err(ListingEnd::NotBegun(Fault::StoreFailed) | ListingEnd::Broken(Fault::StoreFailed))
    )
}

/// The error that closes the docket: the last failure, if the database failed.
pub fn breaking_error(answer: &Result<u32, ListingEnd>, failure: Option<Error>) -> Option<Error>
    requires { IsNamedEnd failure answer.now }
    ensures fails { (is_some result ≡ true) ↔ HasBroken answer.now }
    ensures kept { HasBroken answer.now → result ≡ failure }
{
    if is_broken_store(answer) {
        return failure;
    }
    None
}

/// Writes the bytes, and the calendar of the days from one to another behind them, by a calendar that has
/// when the clerk's office closes.
fn list_by<S: Alter, W: Write>(
    conn: &mut Connection<S>,
    alloc: Global,
    court: &Court,
    entered: &Calendar,
    from: Day,
    to: Day,
    front: &[u8],
    writer: &mut W,
    failure: &mut Option<Error>,
) -> Result<u32, ListingEnd>
    requires { conn.old.in_transaction ≡ false }
    ensures idle { conn.new.in_transaction ≡ false }
    ensures writes_nothing { Survives (state S.Store conn.old) (state S.Store conn.new) (λ _. ⊥) }
    ensures stays { (rows : Rows) → HoldsRows S.Store conn.old rows → PreservesListing S.Store conn.new rows result }
    ensures named { IsNamedEnd failure.new result }
    ensures cause { (rows : Rows) → HoldsRows S.Store conn.old rows → HasCleanDisk (state S.Store conn.new)
        → IfErr result (IsCausedEnd (state S.Store conn.old) (state S.Store conn.new) failure.new) }
    ensures lists { (kept : Option (List Item)) (h : History) → Stands S.Store (serving conn.old court.now kept) h
        → (HasCleanDisk (state S.Store conn.old) → entered.now ≡ entered_by h)
        → Lists S.Store (serving conn.new court.now kept) h from to front.now (W.contents writer.old) (W.contents writer.new) result }
{
    match calendar(conn, alloc, court, entered, from, to, front, writer) {
        Ok(lines) => Ok(lines),
        Err(Stop::NotBegun(fault)) => Err(ListingEnd::NotBegun(read_fault(conn, fault, failure))),
        Err(Stop::Broken(fault)) => Err(ListingEnd::Broken(read_fault(conn, fault, failure))),
        Err(Stop::WriteFailed) => Err(ListingEnd::WriteFailed),
    }
}

/// Writes the bytes, and the calendar of the days from one to another behind them. The court's calendar is
/// kept in `kept`; if the database fails, `failure` has its error.
pub fn list_days<S: Alter, W: Write>(
    conn: &mut Connection<S>,
    alloc: Global,
    court: &Court,
    kept: &mut Option<StandingCalendar>,
    from: Day,
    to: Day,
    front: &[u8],
    writer: &mut W,
    failure: &mut Option<Error>,
) -> Result<u32, ListingEnd>
    requires { conn.old.in_transaction ≡ false }
    ensures idle { conn.new.in_transaction ≡ false }
    ensures writes_nothing { Survives (state S.Store conn.old) (state S.Store conn.new) (λ _. ⊥) }
    ensures stays { (rows : Rows) → HoldsRows S.Store conn.old rows → PreservesListing S.Store conn.new rows result }
    ensures named { IsNamedEnd failure.new result }
    ensures cause { (rows : Rows) → HoldsRows S.Store conn.old rows → HasCleanDisk (state S.Store conn.new)
        → IfErr result (IsCausedEnd (state S.Store conn.old) (state S.Store conn.new) failure.new) }
    ensures lists { (h : History) → Stands S.Store (serving conn.old court.now kept.old) h
        → Lists S.Store (serving conn.new court.now kept.new) h from to front.now (W.contents writer.old) (W.contents writer.new) result }
{
    let standing = match calendar_taken(conn, alloc, kept, failure) {
        Ok(standing) => standing,
        Err(fault) => return Err(ListingEnd::NotBegun(fault)),
    };
    let entered = standing.calendar();
    let listed = list_by(
        conn, alloc, court, entered, from, to, front, writer, failure,
    );
    *kept = Some(standing);
    listed
}
