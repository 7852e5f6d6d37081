//! Questions to the tables inside a transaction.
ghost use Rattle.std.specs.Prelude.{◌≡◌, ◌≤◌, List, IfErr};
ghost use Rattle.sqlite.specs.Held.{state};
ghost use Rattle.sqlite.specs.View.{doubt};
ghost use Rattle.court_days.specs.Court.{CourtSettings};
ghost use Rattle.docket_history.specs.Histories.{deadlines_of_case};
ghost use Rattle.docket_decisions.specs.Tables.{Tables};
ghost use Rattle.docket_decisions.specs.declared.end_row.StoredEnd.{StoredEnd as Ended};
ghost use Rattle.sqlite.specs.State.{HasCleanDisk};
ghost use Rattle.docket_tables.specs.Causes.{IsReadingFault};
ghost use Rattle.docket_tables.specs.Contents.{AreStored, ends_of, rows_with};
ghost use Rattle.docket_orderly.specs.Orderly.{IsOrderly};
ghost use Rattle.docket_tables.specs.Layouts.{Rows};
ghost use Rattle.docket_tables.specs.Readings.{AreActsOf};
ghost use Rattle.docket_tables.specs.Stands.{Inside, Sees};

use crate::fault::ReadFault;
use crate::query::Query;
use crate::rows::{all_in, calendar_in};
use crate::store::ask_inside;
use docket_decisions::StoredEnd;
use docket_history::{ActRow, CalendarRow, DeadlineRow};
use sqlite::types::ToSql;
use sqlite::{Alter, Transaction};
use std::alloc::Global;

/// The rows of the calendar, in the order of their numbers.
pub fn calendar<S: Alter>(
    tx: &mut Transaction<'_, S>,
    alloc: Global,
) -> Result<Vec<CalendarRow>, ReadFault>
    ensures same_reference { tx.new.conn.ghost_name ≡ tx.old.conn.ghost_name }
    ensures clean { doubt (state S.Store tx.old.conn.now).is_clean ≤ doubt (state S.Store tx.new.conn.now).is_clean }
    ensures inside { (court : CourtSettings) (t : Tables) (ends : List Ended) → IsOrderly court t
        → Inside (state S.Store tx.old.conn.now) (state S.Store tx.new.conn.now) (rows_with court t ends) (rows_with court t ends) result (λ found. found.items ≡ t.calendar) }
    ensures still { (rows : Rows) → Inside (state S.Store tx.old.conn.now) (state S.Store tx.new.conn.now) rows rows result (λ _. Unit {0}) }
    ensures cause { HasCleanDisk (state S.Store tx.new.conn.now) → (court : CourtSettings) (t : Tables) (ends : List Ended) → IsOrderly court t
        → Sees (state S.Store tx.old.conn.now) (rows_with court t ends) → IfErr result (IsReadingFault (state S.Store tx.old.conn.now) (state S.Store tx.new.conn.now)) }
{
    let rows = ask_inside(tx, Query::Calendar, &[])?;
    let short_rows = ask_inside(tx, Query::ShortDays, &[])?;
    calendar_in(alloc, rows.as_slice(), short_rows.as_slice())
}

/// The ends that are stored for a case.
pub fn ends_of_case<S: Alter>(
    tx: &mut Transaction<'_, S>,
    alloc: Global,
    case: u32,
) -> Result<Vec<StoredEnd>, ReadFault>
    ensures same_reference { tx.new.conn.ghost_name ≡ tx.old.conn.ghost_name }
    ensures clean { doubt (state S.Store tx.old.conn.now).is_clean ≤ doubt (state S.Store tx.new.conn.now).is_clean }
    ensures inside { (court : CourtSettings) (t : Tables) (ends : List Ended) → AreStored case ends
        → Inside (state S.Store tx.old.conn.now) (state S.Store tx.new.conn.now) (rows_with court t ends) (rows_with court t ends) result (λ found. found.items ≡ ends_of case ends) }
    ensures still { (rows : Rows) → Inside (state S.Store tx.old.conn.now) (state S.Store tx.new.conn.now) rows rows result (λ _. Unit {0}) }
    ensures cause { HasCleanDisk (state S.Store tx.new.conn.now) → (court : CourtSettings) (t : Tables) (ends : List Ended) → AreStored case ends
        → Sees (state S.Store tx.old.conn.now) (rows_with court t ends) → IfErr result (IsReadingFault (state S.Store tx.old.conn.now) (state S.Store tx.new.conn.now)) }
{
    let rows = ask_inside(tx, Query::Due, &[case.to_sql()])?;
    all_in(alloc, rows.as_slice())
}

/// The deadlines of a case.
pub fn deadlines_of_case<S: Alter>(
    tx: &mut Transaction<'_, S>,
    alloc: Global,
    case: u32,
) -> Result<Vec<DeadlineRow>, ReadFault>
    ensures same_reference { tx.new.conn.ghost_name ≡ tx.old.conn.ghost_name }
    ensures clean { doubt (state S.Store tx.old.conn.now).is_clean ≤ doubt (state S.Store tx.new.conn.now).is_clean }
    ensures inside { (court : CourtSettings) (t : Tables) (ends : List Ended) → IsOrderly court t
        → Inside (state S.Store tx.old.conn.now) (state S.Store tx.new.conn.now) (rows_with court t ends) (rows_with court t ends) result (λ found. found.items ≡ deadlines_of_case case t.deadlines) }
    ensures still { (rows : Rows) → Inside (state S.Store tx.old.conn.now) (state S.Store tx.new.conn.now) rows rows result (λ _. Unit {0}) }
    ensures cause { HasCleanDisk (state S.Store tx.new.conn.now) → (court : CourtSettings) (t : Tables) (ends : List Ended) → IsOrderly court t
        → Sees (state S.Store tx.old.conn.now) (rows_with court t ends) → IfErr result (IsReadingFault (state S.Store tx.old.conn.now) (state S.Store tx.new.conn.now)) }
{
    let rows = ask_inside(tx, Query::Deadlines, &[case.to_sql()])?;
    all_in(alloc, rows.as_slice())
}

/// The acts of a case.
pub fn acts_of_case<S: Alter>(
    tx: &mut Transaction<'_, S>,
    alloc: Global,
    case: u32,
) -> Result<Vec<ActRow>, ReadFault>
    ensures same_reference { tx.new.conn.ghost_name ≡ tx.old.conn.ghost_name }
    ensures clean { doubt (state S.Store tx.old.conn.now).is_clean ≤ doubt (state S.Store tx.new.conn.now).is_clean }
    ensures inside { (court : CourtSettings) (t : Tables) (ends : List Ended) → IsOrderly court t
        → Inside (state S.Store tx.old.conn.now) (state S.Store tx.new.conn.now) (rows_with court t ends) (rows_with court t ends) result (λ found. AreActsOf case t.acts found.items) }
    ensures still { (rows : Rows) → Inside (state S.Store tx.old.conn.now) (state S.Store tx.new.conn.now) rows rows result (λ _. Unit {0}) }
    ensures cause { HasCleanDisk (state S.Store tx.new.conn.now) → (court : CourtSettings) (t : Tables) (ends : List Ended) → IsOrderly court t
        → Sees (state S.Store tx.old.conn.now) (rows_with court t ends) → IfErr result (IsReadingFault (state S.Store tx.old.conn.now) (state S.Store tx.new.conn.now)) }
{
    let rows = ask_inside(tx, Query::Acts, &[case.to_sql()])?;
    all_in(alloc, rows.as_slice())
}
