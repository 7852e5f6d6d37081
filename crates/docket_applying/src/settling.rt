//! The stored ends of deadlines, changed inside a transaction: by changes, or case by case.
ghost use Rattle.std.specs.Prelude.{◌≡◌, ◌≤◌, ◌++◌, List, length, IfErr, IfOk, IsPermutation};
ghost use Rattle.std.specs.List.{AllByRecursion};
ghost use Rattle.sqlite.specs.Held.{state};
ghost use Rattle.sqlite.specs.State.{HasCleanDisk};
ghost use Rattle.sqlite.specs.View.{doubt};
ghost use Rattle.court_days.specs.Court.{CourtSettings, zone_of};
ghost use Rattle.docket_decisions.specs.Additions.{AddsOnce, AddsAmong};
ghost use Rattle.docket_decisions.specs.EndRows.{AreRowsFrom, calendar_in, IsElsewhere, all_changed_ends, end_rows_from, ends_running};
ghost use Rattle.docket_history.specs.CalendarItems.{calendar_of};
ghost use Rattle.docket_history.specs.Histories.{deadlines_of_case, deadlines_from, items_of};
ghost use Rattle.docket_decisions.specs.Tables.{Tables};
ghost use Rattle.docket_decisions.specs.declared.end_row.StoredEnd.{StoredEnd as Ended};
ghost use Rattle.docket_tables.specs.AnyRows.{with_stored};
ghost use Rattle.docket_tables.specs.Contents.{AreStored, rows_with};
ghost use Rattle.docket_tables.specs.Layouts.{Rows};
ghost use Rattle.docket_orderly.specs.Orderly.{IsOrderly};
ghost use Rattle.docket_tables.specs.Causes.{IsChangeFault, IsReadingFault};
ghost use Rattle.docket_tables.specs.declared.fault.ReadFault.TheVariants.{NoMemory};
ghost use Rattle.docket_applying.specs.Sound.{AreSound, IsSoundCalendar, IsSoundCase};
ghost use Rattle.docket_applying.specs.Writing.{MayAddEnds};
ghost use Rattle.docket_applying.specs.Settling.{EachIsStored, EachRunsWhereStored, FailsOnlyFor, Leads, RunsOnlyWhereStored, MayLeave, MayUpdate, settled_case, settled_cases, updated_ends};
ghost use Rattle.docket_tables.specs.Stands.{Inside};

use crate::gathering::{items_of, with_acts};
use crate::sound::{is_sound_calendar, is_sound_case};
use court_days::{Calendar, Court};
use docket_decisions::{EndChange, EndUpdate, StoredEnd, due_changes};
use docket_history::{CalendarRow, DeadlineView, calendar_of};
use docket_tables::{ReadFault, change_ends, inside};
use sqlite::{Alter, Transaction};
use std::alloc::Global;

/// The deadlines of a case, each with its acts.
fn views_of_case<S: Alter>(
    tx: &mut Transaction<'_, S>,
    alloc: Global,
    case: u32,
) -> Result<Vec<DeadlineView>, ReadFault>
    ensures same_reference { tx.new.conn.ghost_name ≡ tx.old.conn.ghost_name }
    ensures clean { doubt (state S.Store tx.old.conn.now).is_clean ≤ doubt (state S.Store tx.new.conn.now).is_clean }
    ensures inside { (court : CourtSettings) (t : Tables) (ends : List Ended) → IsOrderly court t
        → Inside (state S.Store tx.old.conn.now) (state S.Store tx.new.conn.now) (rows_with court t ends) (rows_with court t ends) result
        (λ found. found.items ≡ deadlines_from case 1 t.acts (deadlines_of_case case t.deadlines)) }
    ensures still { (rows : Rows) → Inside (state S.Store tx.old.conn.now) (state S.Store tx.new.conn.now) rows rows result (λ _. Unit {0}) }
    ensures cause { HasCleanDisk (state S.Store tx.new.conn.now) → (court : CourtSettings) (t : Tables) (ends : List Ended) → IsOrderly court t
        → FailsOnlyFor IsReadingFault (state S.Store tx.old.conn.now) (state S.Store tx.new.conn.now) (rows_with court t ends) result }
{
    let rows = inside::deadlines_of_case(tx, alloc, case)?;
    let acts = inside::acts_of_case(tx, alloc, case)?;
    Ok(with_acts(alloc, rows.as_slice(), acts.as_slice())?)
}

/// The changes that lead from the stored ends of a case to those that its deadlines have.
fn changes_of_case(
    alloc: Global,
    court: &Court,
    calendar: &Calendar,
    case: u32,
    deadlines: &[DeadlineView],
    stored: &[StoredEnd],
) -> Result<Vec<EndChange>, ReadFault>
    ensures rows { (others : List Ended) → AllByRecursion (IsElsewhere case 1) others → AreRowsFrom case 1 stored.now
        → IfOk result (λ changes. IsPermutation (all_changed_ends changes.items (others ++ stored.now)) (others ++ end_rows_from case 1 (ends_running (zone_of court.now) calendar.now deadlines.now))) }
    ensures once { (others : List Ended) → AllByRecursion (IsElsewhere case 1) others → AreRowsFrom case 1 stored.now
        → IfOk result (λ changes. AddsOnce changes.items (others ++ stored.now) × AddsAmong (λ k n. (k ≡ case) × (1 ≤ n) × (n ≤ length deadlines.now)) changes.items) }
    ensures short { IsSoundCase court.now deadlines.now → IfErr result (λ fault. fault ≡ NoMemory) }
{
    if !is_sound_case(court, deadlines) {
        return Err(ReadFault::Damaged);
    }
    Ok(due_changes(alloc, court, calendar, case, deadlines, stored)?)
}

/// Brings the ends of a case up to date. If none is stored, no time of the case runs, and nothing else is
/// read.
fn settle_case<S: Alter>(
    tx: &mut Transaction<'_, S>,
    alloc: Global,
    court: &Court,
    calendar: &Calendar,
    case: u32,
) -> Result<(), ReadFault>
    ensures same_reference { tx.new.conn.ghost_name ≡ tx.old.conn.ghost_name }
    ensures clean { doubt (state S.Store tx.old.conn.now).is_clean ≤ doubt (state S.Store tx.new.conn.now).is_clean }
    ensures inside { (t : Tables) (ends : List Ended) → IsOrderly court.now t → AreStored case ends → RunsOnlyWhereStored court.now t ends case
        → Leads (state S.Store tx.old.conn.now) (state S.Store tx.new.conn.now) (rows_with court.now t ends) (rows_with court.now t (settled_case court.now calendar.now t case ends)) result }
    ensures any { (stored : List Ended) (rows : Rows) → (next : List Ended)
        × Leads (state S.Store tx.old.conn.now) (state S.Store tx.new.conn.now) (with_stored stored rows) (with_stored next rows) result }
    // For a docket whose tables are sound it fails only for a cause.
    ensures cause { HasCleanDisk (state S.Store tx.new.conn.now) → (t : Tables) (ends : List Ended) → IsOrderly court.now t → AreSound court.now t → AreStored case ends
        → FailsOnlyFor IsChangeFault (state S.Store tx.old.conn.now) (state S.Store tx.new.conn.now) (rows_with court.now t ends) result }
{
    let stored = inside::ends_of_case(tx, alloc, case)?;
    if stored.is_empty() {
        return Ok(());
    }
    let deadlines = views_of_case(tx, alloc, case)?;
    let changes = changes_of_case(
        alloc,
        court,
        calendar,
        case,
        deadlines.as_slice(),
        stored.as_slice(),
    )?;
    change_ends(tx, changes.as_slice())
}

/// Brings the ends of the first cases up to date.
fn settle_cases<S: Alter>(
    tx: &mut Transaction<'_, S>,
    alloc: Global,
    court: &Court,
    calendar: &Calendar,
    cases: u32,
) -> Result<(), ReadFault>
    ensures same_reference { tx.new.conn.ghost_name ≡ tx.old.conn.ghost_name }
    ensures clean { doubt (state S.Store tx.old.conn.now).is_clean ≤ doubt (state S.Store tx.new.conn.now).is_clean }
    ensures inside { (t : Tables) (ends : List Ended) → IsOrderly court.now t → EachIsStored ends → EachRunsWhereStored court.now t ends
        → Leads (state S.Store tx.old.conn.now) (state S.Store tx.new.conn.now) (rows_with court.now t ends) (rows_with court.now t (settled_cases court.now calendar.now t cases ends)) result }
    ensures any { (stored : List Ended) (rows : Rows) → (next : List Ended)
        × Leads (state S.Store tx.old.conn.now) (state S.Store tx.new.conn.now) (with_stored stored rows) (with_stored next rows) result }
    ensures cause { HasCleanDisk (state S.Store tx.new.conn.now) → (t : Tables) (ends : List Ended) → IsOrderly court.now t → AreSound court.now t → EachIsStored ends → EachRunsWhereStored court.now t ends
        → FailsOnlyFor IsChangeFault (state S.Store tx.old.conn.now) (state S.Store tx.new.conn.now) (rows_with court.now t ends) result }
{
    'cases: for done in 0..cases {
        settle_case(tx, alloc, court, calendar, done + 1)?;
    }
    Ok(())
}

/// The calendar of rows, which a court may enter.
fn calendar_of_rows(alloc: Global, rows: &[CalendarRow]) -> Result<Calendar, ReadFault>
    ensures calendar { IfOk result (λ calendar. calendar ≡ calendar_of (items_of rows.now)) }
    ensures short { IsSoundCalendar (items_of rows.now) → IfErr result (λ fault. fault ≡ NoMemory) }
{
    let items = items_of(alloc, rows)?;
    if !is_sound_calendar(items.as_slice()) {
        return Err(ReadFault::Damaged);
    }
    Ok(calendar_of(alloc, items.as_slice())?)
}

/// The calendar of the rows that stand.
fn calendar_standing<S: Alter>(
    tx: &mut Transaction<'_, S>,
    alloc: Global,
) -> Result<Calendar, ReadFault>
    ensures same_reference { tx.new.conn.ghost_name ≡ tx.old.conn.ghost_name }
    ensures clean { doubt (state S.Store tx.old.conn.now).is_clean ≤ doubt (state S.Store tx.new.conn.now).is_clean }
    ensures inside { (court : CourtSettings) (t : Tables) (ends : List Ended) → IsOrderly court t
        → Inside (state S.Store tx.old.conn.now) (state S.Store tx.new.conn.now) (rows_with court t ends) (rows_with court t ends) result (λ calendar. calendar ≡ calendar_in t) }
    ensures still { (rows : Rows) → Inside (state S.Store tx.old.conn.now) (state S.Store tx.new.conn.now) rows rows result (λ _. Unit {0}) }
    ensures cause { HasCleanDisk (state S.Store tx.new.conn.now) → (court : CourtSettings) (t : Tables) (ends : List Ended) → IsOrderly court t → AreSound court t
        → FailsOnlyFor IsReadingFault (state S.Store tx.old.conn.now) (state S.Store tx.new.conn.now) (rows_with court t ends) result }
{
    let rows = inside::calendar(tx, alloc)?;
    calendar_of_rows(alloc, rows.as_slice())
}

/// Brings the ends of the first cases up to date by the calendar that stands.
fn settle_by_rows<S: Alter>(
    tx: &mut Transaction<'_, S>,
    alloc: Global,
    court: &Court,
    cases: u32,
) -> Result<(), ReadFault>
    ensures same_reference { tx.new.conn.ghost_name ≡ tx.old.conn.ghost_name }
    ensures clean { doubt (state S.Store tx.old.conn.now).is_clean ≤ doubt (state S.Store tx.new.conn.now).is_clean }
    ensures inside { (t : Tables) (ends : List Ended) → IsOrderly court.now t → EachIsStored ends → EachRunsWhereStored court.now t ends
        → Leads (state S.Store tx.old.conn.now) (state S.Store tx.new.conn.now) (rows_with court.now t ends) (rows_with court.now t (settled_cases court.now (calendar_in t) t cases ends)) result }
    ensures any { (stored : List Ended) (rows : Rows) → (next : List Ended)
        × Leads (state S.Store tx.old.conn.now) (state S.Store tx.new.conn.now) (with_stored stored rows) (with_stored next rows) result }
    ensures cause { HasCleanDisk (state S.Store tx.new.conn.now) → (t : Tables) (ends : List Ended) → IsOrderly court.now t → AreSound court.now t → EachIsStored ends → EachRunsWhereStored court.now t ends
        → FailsOnlyFor IsChangeFault (state S.Store tx.old.conn.now) (state S.Store tx.new.conn.now) (rows_with court.now t ends) result }
{
    let calendar = calendar_standing(tx, alloc)?;
    settle_cases(tx, alloc, court, &calendar, cases)
}

/// Makes the update of the stored ends.
pub(crate) fn update_ends<S: Alter>(
    tx: &mut Transaction<'_, S>,
    alloc: Global,
    court: &Court,
    update: &EndUpdate,
) -> Result<(), ReadFault>
    ensures same_reference { tx.new.conn.ghost_name ≡ tx.old.conn.ghost_name }
    ensures clean { doubt (state S.Store tx.old.conn.now).is_clean ≤ doubt (state S.Store tx.new.conn.now).is_clean }
    ensures inside { (t : Tables) (ends : List Ended) → MayUpdate court.now update.now t ends
        → Leads (state S.Store tx.old.conn.now) (state S.Store tx.new.conn.now) (rows_with court.now t ends) (rows_with court.now t (updated_ends court.now update.now t ends)) result }
    ensures any { (stored : List Ended) (rows : Rows) → (next : List Ended) × MayLeave update.now stored next
        × Leads (state S.Store tx.old.conn.now) (state S.Store tx.new.conn.now) (with_stored stored rows) (with_stored next rows) result }
    ensures cause { HasCleanDisk (state S.Store tx.new.conn.now) → (t : Tables) (ends : List Ended) → MayUpdate court.now update.now t ends → MayAddEnds update.now t ends → AreSound court.now t
        → FailsOnlyFor IsChangeFault (state S.Store tx.old.conn.now) (state S.Store tx.new.conn.now) (rows_with court.now t ends) result }
{
    match update {
        EndUpdate::Moves(moves) => change_ends(tx, moves.as_slice()),
        EndUpdate::Calendar { cases } => settle_by_rows(tx, alloc, court, *cases),
    }
}
