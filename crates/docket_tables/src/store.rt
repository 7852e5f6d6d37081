//! Calls of the database.
ghost use Rattle.std.specs.Prelude.{◌≡◌, IsTrue, pos, ◌≤◌, ◌<◌, ◌^◌, ◌+◌, [], ◌∷◌, ℕ, List, length, map, Ok, Err, OnOk, OnErr, IfOk, IfErr, false};
ghost use Rattle.sqlite.specs.Given.{IsPlain};
ghost use Rattle.sqlite.specs.Held.{state};
ghost use Rattle.sqlite.specs.Listing.{understood};
ghost use Rattle.sqlite.specs.State.{CommitsShowing, ExecutesInside, FailsToQuery, HasCleanDisk, Shown, Survives};
ghost use Rattle.sqlite.specs.Values.{bound};
ghost use Rattle.sqlite.specs.View.{doubt};
ghost use Rattle.court_days.specs.Court.{CourtSettings};
ghost use Rattle.docket_columns.specs.Cells.{court_cells, end_cells};
ghost use Rattle.docket_decisions.specs.EndRows.{changed_ends};
ghost use Rattle.docket_decisions.specs.declared.end_row.EndChange.TheVariants as end_change;
ghost use Rattle.docket_decisions.specs.declared.end_row.StoredEnd.{StoredEnd as Ended};
ghost use Rattle.docket_tables.specs.Additions.{MayStand};
ghost use Rattle.docket_tables.specs.Causes.{HasAddCause, HasChangeCause, IsCaused, Suits};
ghost use Rattle.docket_tables.specs.Changing.{Ran};
ghost use Rattle.docket_tables.specs.Holds.{IsKeyed, without_number, without_key};
ghost use Rattle.sqlite.specs.declared.types.Value.TheVariants.{Int};
ghost use Rattle.docket_tables.specs.Layouts.{Rows, Fits, with_row, with_rows};
ghost use Rattle.docket_tables.specs.declared.table.Table.TheVariants as table;
ghost use Rattle.std.specs.List.{AllByRecursion};
ghost use Rattle.docket_tables.specs.Queries.{IsAnswer, table_of};
ghost use Rattle.docket_tables.specs.Schema.{docket_schema};
ghost use Rattle.docket_tables.specs.Stands.{HoldsRows, Lasts, Sees, StaysInside};

use crate::query::{Query, select_text};
use crate::statement::{
    count_text, delete_end_text, delete_short_day_text, delete_text, insert_text, move_end_text,
};
use crate::table::Table;
use docket_columns::end_values;
use docket_decisions::StoredEnd;
use sqlite::types::ValueRef;
use sqlite::{Alter, Connection, Error, Row, Transaction, params};

/// All rows of a query that writes nothing.
pub(crate) fn read<S: Alter>(
    conn: &mut Connection<S>,
    sql: &str,
    params: &[ValueRef<'_>],
) -> Result<Vec<Row>, Error>
    ensures ok { (rows : Rows) → HoldsRows S.Store conn.old rows → IsPlain (understood docket_schema sql.now) → IfOk result (λ found. HoldsRows S.Store conn.new rows
        × (HasCleanDisk (state S.Store conn.new) → Shown sql.now (bound params.now) (state S.Store conn.old) (state S.Store conn.new) found.items)) }
    ensures err { (rows : Rows) → HoldsRows S.Store conn.old rows → IsPlain (understood docket_schema sql.now) → OnErr result (Lasts S.Store conn.new rows) }
    ensures survives { Survives (state S.Store conn.old) (state S.Store conn.new) (CommitsShowing sql.now (bound params.now) (state S.Store conn.old)) }
    ensures mode { conn.old.in_transaction ≡ false → conn.new.in_transaction ≡ false }
    ensures fails { HasCleanDisk (state S.Store conn.new) → IfErr result (FailsToQuery sql.now (bound params.now) (state S.Store conn.old) (state S.Store conn.new)) }
{
    conn.query_all(sql, params)
}

/// The rows that answer a question about these values.
pub(crate) fn ask<S: Alter>(
    conn: &mut Connection<S>,
    query: Query,
    values: &[ValueRef<'_>],
) -> Result<Vec<Row>, Error>
    ensures ok { (rows : Rows) → HoldsRows S.Store conn.old rows → IfOk result (λ found. HoldsRows S.Store conn.new rows
        × (HasCleanDisk (state S.Store conn.new) → IsAnswer query (bound values.now) (rows (table_of query)) found.items)) }
    ensures err { (rows : Rows) → HoldsRows S.Store conn.old rows → OnErr result (Lasts S.Store conn.new rows) }
    ensures writes_nothing { Survives (state S.Store conn.old) (state S.Store conn.new) (λ _. ⊥) }
    ensures mode { conn.old.in_transaction ≡ false → conn.new.in_transaction ≡ false }
    ensures cause { (rows : Rows) → HoldsRows S.Store conn.old rows → Suits query (bound values.now) → HasCleanDisk (state S.Store conn.new)
        → IfErr result (IsCaused (state S.Store conn.old) (state S.Store conn.new)) }
{
    read(conn, select_text(query), values)
}

/// Runs one statement of a transaction. Only the commit commits it.
pub(crate) fn change<S: Alter>(
    tx: &mut Transaction<'_, S>,
    sql: &str,
    params: &[ValueRef<'_>],
) -> Result<(), Error>
    ensures same_reference { tx.new.conn.ghost_name ≡ tx.old.conn.ghost_name }
    ensures inside { StaysInside (state S.Store tx.old.conn.now) (state S.Store tx.new.conn.now) }
    ensures runs { HasCleanDisk (state S.Store tx.new.conn.now) → OnOk result (Ran sql.now (bound params.now) (state S.Store tx.old.conn.now) (state S.Store tx.new.conn.now)) }
    ensures fails { HasCleanDisk (state S.Store tx.new.conn.now) → IsTrue (state S.Store tx.old.conn.now).in_transaction
        → IfErr result (λ e. ExecutesInside 0 sql.now (bound params.now) (state S.Store tx.old.conn.now) (state S.Store tx.new.conn.now) (Err e)) }
{
    tx.execute(sql, params)?;
    Ok(())
}

/// Adds a row to the table.
pub(crate) fn insert<S: Alter>(
    tx: &mut Transaction<'_, S>,
    table: Table,
    values: &[ValueRef<'_>],
) -> Result<(), Error>
    ensures same_reference { tx.new.conn.ghost_name ≡ tx.old.conn.ghost_name }
    ensures inside { StaysInside (state S.Store tx.old.conn.now) (state S.Store tx.new.conn.now) }
    ensures ok { HasCleanDisk (state S.Store tx.new.conn.now) → Fits table (bound values.now) → (rows : Rows) → Sees (state S.Store tx.old.conn.now) rows
        → OnOk result (Sees (state S.Store tx.new.conn.now) (with_row table (bound values.now) rows)) }
    // A row that may stand is refused only for a cause.
    ensures cause { HasCleanDisk (state S.Store tx.new.conn.now) → Fits table (bound values.now) → (rows : Rows) → Sees (state S.Store tx.old.conn.now) rows → MayStand table (bound values.now) rows
        → IfErr result (HasAddCause table (state S.Store tx.old.conn.now) (state S.Store tx.new.conn.now)) }
{
    change(tx, insert_text(table), values)
}

/// Removes the day or span of a number from the calendar.
pub(crate) fn remove_calendar_row<S: Alter>(
    tx: &mut Transaction<'_, S>,
    number: u32,
) -> Result<(), Error>
    ensures same_reference { tx.new.conn.ghost_name ≡ tx.old.conn.ghost_name }
    ensures inside { StaysInside (state S.Store tx.old.conn.now) (state S.Store tx.new.conn.now) }
    ensures ok { HasCleanDisk (state S.Store tx.new.conn.now) → (rows : Rows) → AllByRecursion IsKeyed (rows table.Calendar) → Sees (state S.Store tx.old.conn.now) rows
        → OnOk result (Sees (state S.Store tx.new.conn.now) (with_rows table.Calendar (without_number number (rows table.Calendar)) rows)) }
    ensures cause { HasCleanDisk (state S.Store tx.new.conn.now) → (rows : Rows) → Sees (state S.Store tx.old.conn.now) rows
        → IfErr result (IsCaused (state S.Store tx.old.conn.now) (state S.Store tx.new.conn.now)) }
{
    change(tx, delete_text(), params![number])
}

/// Removes the short day of a number.
pub(crate) fn remove_short_day<S: Alter>(
    tx: &mut Transaction<'_, S>,
    number: u32,
) -> Result<(), Error>
    ensures same_reference { tx.new.conn.ghost_name ≡ tx.old.conn.ghost_name }
    ensures inside { StaysInside (state S.Store tx.old.conn.now) (state S.Store tx.new.conn.now) }
    ensures ok { HasCleanDisk (state S.Store tx.new.conn.now) → (rows : Rows) → AllByRecursion IsKeyed (rows table.ShortDays) → Sees (state S.Store tx.old.conn.now) rows
        → OnOk result (Sees (state S.Store tx.new.conn.now) (with_rows table.ShortDays (without_number number (rows table.ShortDays)) rows)) }
    ensures cause { HasCleanDisk (state S.Store tx.new.conn.now) → (rows : Rows) → Sees (state S.Store tx.old.conn.now) rows
        → IfErr result (IsCaused (state S.Store tx.old.conn.now) (state S.Store tx.new.conn.now)) }
{
    change(tx, delete_short_day_text(), params![number])
}

/// Removes the end of a deadline of a case.
pub(crate) fn remove_end<S: Alter>(
    tx: &mut Transaction<'_, S>,
    case: u32,
    deadline: u32,
) -> Result<(), Error>
    ensures same_reference { tx.new.conn.ghost_name ≡ tx.old.conn.ghost_name }
    ensures inside { StaysInside (state S.Store tx.old.conn.now) (state S.Store tx.new.conn.now) }
    ensures ok { HasCleanDisk (state S.Store tx.new.conn.now) → (rows : Rows) → Sees (state S.Store tx.old.conn.now) rows
        → OnOk result (Sees (state S.Store tx.new.conn.now) (with_rows table.Due (without_key (0 ∷ 1 ∷ []) (Int (pos case) ∷ Int (pos deadline) ∷ []) (rows table.Due)) rows)) }
    ensures cause { HasCleanDisk (state S.Store tx.new.conn.now) → (rows : Rows) → Sees (state S.Store tx.old.conn.now) rows
        → IfErr result (IsCaused (state S.Store tx.old.conn.now) (state S.Store tx.new.conn.now)) }
{
    change(tx, delete_end_text(), params![case, deadline])
}

/// Moves the end of the deadline of the row to that of the row.
pub(crate) fn move_end<S: Alter>(tx: &mut Transaction<'_, S>, row: &StoredEnd) -> Result<(), Error>
    ensures same_reference { tx.new.conn.ghost_name ≡ tx.old.conn.ghost_name }
    ensures inside { StaysInside (state S.Store tx.old.conn.now) (state S.Store tx.new.conn.now) }
    ensures ok { HasCleanDisk (state S.Store tx.new.conn.now) → (ends : List Ended) (rows : Rows) → rows table.Due ≡ map end_cells ends → Sees (state S.Store tx.old.conn.now) rows
        → OnOk result (Sees (state S.Store tx.new.conn.now) (with_rows table.Due (map end_cells (changed_ends (end_change.Move row.now) ends)) rows)) }
    ensures cause { HasCleanDisk (state S.Store tx.new.conn.now) → (rows : Rows) → Sees (state S.Store tx.old.conn.now) rows
        → IfErr result (HasChangeCause (state S.Store tx.old.conn.now) (state S.Store tx.new.conn.now)) }
{
    change(tx, move_end_text(), &end_values(row))
}

/// The rows that answer a question about these values, inside a transaction.
pub(crate) fn ask_inside<S: Alter>(
    tx: &mut Transaction<'_, S>,
    query: Query,
    values: &[ValueRef<'_>],
) -> Result<Vec<Row>, Error>
    ensures same_reference { tx.new.conn.ghost_name ≡ tx.old.conn.ghost_name }
    ensures inside { (rows : Rows) → (HasCleanDisk (state S.Store tx.old.conn.now) → Sees (state S.Store tx.old.conn.now) rows)
        → StaysInside (state S.Store tx.old.conn.now) (state S.Store tx.new.conn.now) }
    ensures clean { doubt (state S.Store tx.old.conn.now).is_clean ≤ doubt (state S.Store tx.new.conn.now).is_clean }
    ensures ok { HasCleanDisk (state S.Store tx.new.conn.now) → (rows : Rows) → Sees (state S.Store tx.old.conn.now) rows
        → IfOk result (λ found. Sees (state S.Store tx.new.conn.now) rows × IsAnswer query (bound values.now) (rows (table_of query)) found.items) }
    ensures cause { HasCleanDisk (state S.Store tx.new.conn.now) → (rows : Rows) → Sees (state S.Store tx.old.conn.now) rows → Suits query (bound values.now)
        → IfErr result (IsCaused (state S.Store tx.old.conn.now) (state S.Store tx.new.conn.now)) }
{
    tx.query_all(select_text(query), values)
}

/// Adds one to the number of the next calendar row.
pub(crate) fn count_calendar_row<S: Alter>(tx: &mut Transaction<'_, S>) -> Result<(), Error>
    ensures same_reference { tx.new.conn.ghost_name ≡ tx.old.conn.ghost_name }
    ensures inside { StaysInside (state S.Store tx.old.conn.now) (state S.Store tx.new.conn.now) }
    ensures ok { HasCleanDisk (state S.Store tx.new.conn.now) → (court : CourtSettings) (n : ℕ) (rows : Rows) → n + 1 < 2 ^ 63 → rows table.Court ≡ court_cells court n ∷ [] → Sees (state S.Store tx.old.conn.now) rows
        → OnOk result (Sees (state S.Store tx.new.conn.now) (with_rows table.Court (court_cells court (n + 1) ∷ []) rows)) }
    ensures cause { HasCleanDisk (state S.Store tx.new.conn.now) → (court : CourtSettings) (n : ℕ) (rows : Rows) → n + 1 < 2 ^ 63 → length court.zone_text ≤ 31 → rows table.Court ≡ court_cells court n ∷ []
        → Sees (state S.Store tx.old.conn.now) rows → IfErr result (IsCaused (state S.Store tx.old.conn.now) (state S.Store tx.new.conn.now)) }
{
    change(tx, count_text(), &[])
}
