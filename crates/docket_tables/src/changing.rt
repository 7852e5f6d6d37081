//! Changes of rows, inside a transaction.
ghost use Rattle.std.specs.Prelude.{◌≡◌, ◌<◌, ◌≤◌, ◌+◌, ◌^◌, ℕ, List, [], ◌∷◌, length, IfErr};
ghost use Rattle.court_days.specs.Court.{CourtSettings};
ghost use Rattle.docket_decisions.specs.EndRows.{changed_ends, all_changed_ends};
ghost use Rattle.docket_decisions.specs.Tables.{Tables, changed, all_changed};
ghost use Rattle.docket_history.specs.declared.row.Change.TheVariants as change;
ghost use Rattle.docket_wire.specs.Writing.{canonical};
ghost use Rattle.sqlite.specs.Held.{state};
ghost use Rattle.sqlite.specs.State.{HasCleanDisk};
ghost use Rattle.sqlite.specs.View.{doubt};
ghost use Rattle.docket_decisions.specs.declared.end_row.StoredEnd.{StoredEnd as Ended};
ghost use Rattle.docket_columns.specs.Cells.{end_cells};
ghost use Rattle.docket_tables.specs.Additions.{AreStorable};
ghost use Rattle.docket_tables.specs.Causes.{IsCaused};
ghost use Rattle.docket_tables.specs.Changing.{AreNumbered, FailsForChange, FailsForChanges, FailsForCommand, FailsForEnds, IfCounted, Makes, rows_changed, with_changes};
ghost use Rattle.docket_tables.specs.AnyRows.{AreDocketRows, all_rows_changed, row_changed, with_calendar_row, without_calendar_row, with_stored};
ghost use Rattle.docket_tables.specs.Contents.{rows_with};
ghost use Rattle.docket_tables.specs.Holds.{IsKeyed};
ghost use Rattle.docket_tables.specs.Layouts.{Rows};
ghost use Rattle.docket_tables.specs.Stands.{Inside, Sees, StaysInside};
ghost use Rattle.docket_tables.specs.declared.table.Table.TheVariants as table;
ghost use Rattle.std.specs.List.{AllByRecursion};

use crate::fault::ReadFault;
use crate::store::{
    count_calendar_row, insert, move_end, remove_calendar_row, remove_end, remove_short_day,
};
use crate::table::Table;
use docket_columns::{
    act_values, calendar_values, case_values, deadline_values, end_values, entry_values,
    local_rule_values, party_values, receipt_values, short_day_values,
};
use docket_command::Command;
use docket_decisions::{Changes, EndChange, StoredEnd};
use docket_history::{CalendarItem, CalendarRow, Change};
use sqlite::{Alter, Error, Transaction};

/// Adds a row of the calendar, a short day in a table of its own.
fn insert_calendar_row<S: Alter>(
    tx: &mut Transaction<'_, S>,
    row: &CalendarRow,
) -> Result<(), Error>
    ensures same_reference { tx.new.conn.ghost_name ≡ tx.old.conn.ghost_name }
    ensures inside { StaysInside (state S.Store tx.old.conn.now) (state S.Store tx.new.conn.now) }
    ensures ok { HasCleanDisk (state S.Store tx.new.conn.now) → (rows : Rows) → Makes (state S.Store tx.old.conn.now) (state S.Store tx.new.conn.now) rows (with_calendar_row row.now.number row.now.name row.now.item rows) result }
    ensures cause { HasCleanDisk (state S.Store tx.new.conn.now) → (court : CourtSettings) (t : Tables) (ends : List Ended)
        → FailsForChange (change.AddCalendar row.now) t (rows_with court t ends) (state S.Store tx.old.conn.now) (state S.Store tx.new.conn.now) result }
{
    match row.item {
        CalendarItem::Short(day, close) => {
            let values = short_day_values(row.number, day, close, row.name.as_str());
            insert(tx, Table::ShortDays, &values)
        }
        CalendarItem::Day(_, _) | CalendarItem::Span(_, _) => {
            insert(tx, Table::Calendar, &calendar_values(row))
        }
    }
}

/// Withdraws the row of the calendar of a number, whichever of the two tables has it.
fn withdraw_row<S: Alter>(tx: &mut Transaction<'_, S>, number: u32) -> Result<(), Error>
    ensures same_reference { tx.new.conn.ghost_name ≡ tx.old.conn.ghost_name }
    ensures inside { StaysInside (state S.Store tx.old.conn.now) (state S.Store tx.new.conn.now) }
    ensures ok { HasCleanDisk (state S.Store tx.new.conn.now) → (rows : Rows) → AllByRecursion IsKeyed (rows table.Calendar) → AllByRecursion IsKeyed (rows table.ShortDays)
        → Makes (state S.Store tx.old.conn.now) (state S.Store tx.new.conn.now) rows (without_calendar_row number rows) result }
    ensures cause { HasCleanDisk (state S.Store tx.new.conn.now) → (court : CourtSettings) (t : Tables) (ends : List Ended)
        → Sees (state S.Store tx.old.conn.now) (rows_with court t ends) → IfErr result (IsCaused (state S.Store tx.old.conn.now) (state S.Store tx.new.conn.now)) }
{
    remove_calendar_row(tx, number)?;
    remove_short_day(tx, number)
}

/// Adds a row of the calendar, and counts its number.
fn add_calendar_row<S: Alter>(tx: &mut Transaction<'_, S>, row: &CalendarRow) -> Result<(), Error>
    ensures same_reference { tx.new.conn.ghost_name ≡ tx.old.conn.ghost_name }
    ensures inside { StaysInside (state S.Store tx.old.conn.now) (state S.Store tx.new.conn.now) }
    ensures ok { HasCleanDisk (state S.Store tx.new.conn.now) → (court : CourtSettings) (t : Tables) (ends : List Ended) → t.next_row + 1 < 2 ^ 63
        → Makes (state S.Store tx.old.conn.now) (state S.Store tx.new.conn.now) (rows_with court t ends) (rows_with court (changed (change.AddCalendar row.now) t) ends) result }
    ensures any { HasCleanDisk (state S.Store tx.new.conn.now) → (court : CourtSettings) (n : ℕ) (stored : List Ended) (rows : Rows) → AreDocketRows court n stored rows → n + 1 < 2 ^ 63
        → Makes (state S.Store tx.old.conn.now) (state S.Store tx.new.conn.now) rows (row_changed court n (change.AddCalendar row.now) rows) result }
    ensures cause { HasCleanDisk (state S.Store tx.new.conn.now) → (court : CourtSettings) (t : Tables) (ends : List Ended)
        → IfCounted court t.next_row 1 (FailsForChange (change.AddCalendar row.now) t (rows_with court t ends) (state S.Store tx.old.conn.now) (state S.Store tx.new.conn.now) result) }
{
    insert_calendar_row(tx, row)?;
    count_calendar_row(tx)
}

/// Makes a change.
fn change_row<S: Alter>(tx: &mut Transaction<'_, S>, change: &Change) -> Result<(), Error>
    ensures same_reference { tx.new.conn.ghost_name ≡ tx.old.conn.ghost_name }
    ensures inside { StaysInside (state S.Store tx.old.conn.now) (state S.Store tx.new.conn.now) }
    ensures ok { HasCleanDisk (state S.Store tx.new.conn.now) → (court : CourtSettings) (t : Tables) (ends : List Ended) → t.next_row + 1 < 2 ^ 63
        → Makes (state S.Store tx.old.conn.now) (state S.Store tx.new.conn.now) (rows_with court t ends) (rows_with court (changed change.now t) ends) result }
    ensures any { HasCleanDisk (state S.Store tx.new.conn.now) → (court : CourtSettings) (n : ℕ) (stored : List Ended) (rows : Rows) → AreDocketRows court n stored rows → n + 1 < 2 ^ 63
        → Makes (state S.Store tx.old.conn.now) (state S.Store tx.new.conn.now) rows (row_changed court n change.now rows) result }
    // A change that may be made fails only for a cause.
    ensures cause { HasCleanDisk (state S.Store tx.new.conn.now) → (court : CourtSettings) (t : Tables) (ends : List Ended)
        → IfCounted court t.next_row 1 (FailsForChange change.now t (rows_with court t ends) (state S.Store tx.old.conn.now) (state S.Store tx.new.conn.now) result) }
{
    match change {
        Change::AddCalendar(row) => add_calendar_row(tx, row),
        Change::RemoveCalendar(number) => withdraw_row(tx, *number),
        Change::AddCase(row) => insert(tx, Table::Cases, &case_values(row)),
        Change::AddParty(row) => insert(tx, Table::Parties, &party_values(row)),
        Change::AddEntry(row) => insert(tx, Table::Entries, &entry_values(row)),
        Change::AddDeadline(row) => insert(tx, Table::Deadlines, &deadline_values(row)),
        Change::AddAct(row) => insert(tx, Table::Acts, &act_values(row)),
        Change::AddLocalRule(row) => insert(tx, Table::LocalRules, &local_rule_values(row)),
    }
}

/// Makes the changes, one after another.
fn change_all<S: Alter>(tx: &mut Transaction<'_, S>, changes: &[Change]) -> Result<(), Error>
    ensures same_reference { tx.new.conn.ghost_name ≡ tx.old.conn.ghost_name }
    ensures inside { StaysInside (state S.Store tx.old.conn.now) (state S.Store tx.new.conn.now) }
    ensures ok { HasCleanDisk (state S.Store tx.new.conn.now) → (court : CourtSettings) (t : Tables) (ends : List Ended) → t.next_row + length changes.now < 2 ^ 63
        → Makes (state S.Store tx.old.conn.now) (state S.Store tx.new.conn.now) (rows_with court t ends) (rows_with court (all_changed changes.now t) ends) result }
    ensures any { HasCleanDisk (state S.Store tx.new.conn.now) → (court : CourtSettings) (n : ℕ) (stored : List Ended) (rows : Rows) → AreDocketRows court n stored rows → n + length changes.now < 2 ^ 63
        → Makes (state S.Store tx.old.conn.now) (state S.Store tx.new.conn.now) rows (all_rows_changed court n changes.now rows) result }
    ensures cause { HasCleanDisk (state S.Store tx.new.conn.now) → (court : CourtSettings) (t : Tables) (ends : List Ended)
        → IfCounted court t.next_row (length changes.now) (FailsForChanges changes.now t (rows_with court t ends) (state S.Store tx.old.conn.now) (state S.Store tx.new.conn.now) result) }
{
    'changes: for change in changes {
        change_row(tx, change)?;
    }
    Ok(())
}

/// Makes the changes of a command, and adds its receipt.
pub fn change_with_receipt<S: Alter>(
    tx: &mut Transaction<'_, S>,
    command: &Command,
    body: &str,
    changes: &Changes,
) -> Result<(), Error>
    requires { body.now ≡ canonical command.now }
    ensures same_reference { tx.new.conn.ghost_name ≡ tx.old.conn.ghost_name }
    ensures inside { StaysInside (state S.Store tx.old.conn.now) (state S.Store tx.new.conn.now) }
    ensures ok { HasCleanDisk (state S.Store tx.new.conn.now) → (court : CourtSettings) (t : Tables) (ends : List Ended) → AreNumbered t.next_row changes.now
        → Makes (state S.Store tx.old.conn.now) (state S.Store tx.new.conn.now) (rows_with court t ends) (rows_with court (with_changes command.now changes.now t) ends) result }
    ensures any { HasCleanDisk (state S.Store tx.new.conn.now) → (court : CourtSettings) (n : ℕ) (stored : List Ended) (rows : Rows) → AreDocketRows court n stored rows → AreNumbered n changes.now
        → Makes (state S.Store tx.old.conn.now) (state S.Store tx.new.conn.now) rows (rows_changed court n command.now changes.now rows) result }
    // Changes that may be made, with a receipt under a key that is fresh, fail only for a cause.
    ensures cause { HasCleanDisk (state S.Store tx.new.conn.now) → (court : CourtSettings) (t : Tables) (ends : List Ended)
        → IfCounted court t.next_row (length changes.now.rows.items) (FailsForCommand command.now changes.now t (rows_with court t ends) (state S.Store tx.old.conn.now) (state S.Store tx.new.conn.now) result) }
{
    change_all(tx, changes.rows.as_slice())?;
    insert(
        tx,
        Table::Receipts,
        &receipt_values(command, body, changes.reply),
    )
}

/// Each number of an end has at most 64 bits, as the program keeps it, so that the table takes it.
fn end_fits(row: StoredEnd)
    ensures { AreStorable (end_cells row) }
{}

/// Makes a change of an end.
fn change_end<S: Alter>(tx: &mut Transaction<'_, S>, change: &EndChange) -> Result<(), ReadFault>
    ensures same_reference { tx.new.conn.ghost_name ≡ tx.old.conn.ghost_name }
    ensures clean { doubt (state S.Store tx.old.conn.now).is_clean ≤ doubt (state S.Store tx.new.conn.now).is_clean }
    ensures inside { (court : CourtSettings) (t : Tables) (ends : List Ended)
        → Inside (state S.Store tx.old.conn.now) (state S.Store tx.new.conn.now) (rows_with court t ends) (rows_with court t (changed_ends change.now ends)) result (λ _. Unit {0}) }
    ensures any { (stored : List Ended) (rows : Rows)
        → Inside (state S.Store tx.old.conn.now) (state S.Store tx.new.conn.now) (with_stored stored rows) (with_stored (changed_ends change.now stored) rows) result (λ _. Unit {0}) }
    ensures cause { HasCleanDisk (state S.Store tx.new.conn.now) → (court : CourtSettings) (t : Tables) (ends : List Ended)
        → FailsForEnds (change.now ∷ []) t ends (rows_with court t ends) (state S.Store tx.old.conn.now) (state S.Store tx.new.conn.now) result }
{
    match change {
        EndChange::Add(row) => {
            end_fits(*row);
            insert(tx, Table::Due, &end_values(row))?;
        }
        EndChange::Remove(case, deadline) => remove_end(tx, *case, *deadline)?,
        EndChange::Move(row) => move_end(tx, row)?,
    }
    Ok(())
}

/// Makes the changes of ends, one after another.
pub fn change_ends<S: Alter>(
    tx: &mut Transaction<'_, S>,
    changes: &[EndChange],
) -> Result<(), ReadFault>
    ensures same_reference { tx.new.conn.ghost_name ≡ tx.old.conn.ghost_name }
    ensures clean { doubt (state S.Store tx.old.conn.now).is_clean ≤ doubt (state S.Store tx.new.conn.now).is_clean }
    ensures inside { (court : CourtSettings) (t : Tables) (ends : List Ended)
        → Inside (state S.Store tx.old.conn.now) (state S.Store tx.new.conn.now) (rows_with court t ends) (rows_with court t (all_changed_ends changes.now ends)) result (λ _. Unit {0}) }
    ensures any { (stored : List Ended) (rows : Rows)
        → Inside (state S.Store tx.old.conn.now) (state S.Store tx.new.conn.now) (with_stored stored rows) (with_stored (all_changed_ends changes.now stored) rows) result (λ _. Unit {0}) }
    // Changes that add no end beside one of its deadline, and each to a deadline that stands, fail only for a cause.
    ensures cause { HasCleanDisk (state S.Store tx.new.conn.now) → (court : CourtSettings) (t : Tables) (ends : List Ended)
        → FailsForEnds changes.now t ends (rows_with court t ends) (state S.Store tx.old.conn.now) (state S.Store tx.new.conn.now) result }
{
    'changes: for change in changes {
        change_end(tx, change)?;
    }
    Ok(())
}
