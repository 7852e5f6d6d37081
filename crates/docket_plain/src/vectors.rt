//! The tables in vectors.
ghost use Rattle.std.specs.Prelude.{◌≡◌, ℕ, ◌==◌, not, ◌+◌, ◌<◌, ◌≤◌, ◌^◌, length, filter, OnOk, OnErr, IfOk, vec_len, vec_capacity};
ghost use Rattle.docket_decisions.specs.Tables.{changed, all_changed, with_receipt};
ghost use Rattle.docket_plain.specs.Vectors.{lists_of, AreSmall, HasRoom, no_rows};

use docket_command::{Command, Reply};
use docket_decisions::Changes;
use docket_history::{
    ActRow, CalendarRow, CaseRow, Change, DeadlineRow, EntryRow, LocalRuleRow, PartyRow, Receipt,
};
use std::alloc::{AllocError, Global};

/// The tables of a docket, and the number of the next calendar row.
#[derive(Drop)]
pub(crate) struct Vectors {
    pub(crate) next_row: u64,
    pub(crate) calendar: Vec<CalendarRow>,
    pub(crate) cases: Vec<CaseRow>,
    pub(crate) parties: Vec<PartyRow>,
    pub(crate) entries: Vec<EntryRow>,
    pub(crate) deadlines: Vec<DeadlineRow>,
    pub(crate) acts: Vec<ActRow>,
    pub(crate) receipts: Vec<Receipt>,
    pub(crate) local_rules: Vec<LocalRuleRow>,
}

impl Vectors {
    /// The tables of a docket without any record. They take no memory yet.
    pub(crate) fn new(alloc: Global) -> Vectors
        ensures { lists_of result ≡ no_rows }
    {
        Vectors {
            next_row: 1,
            calendar: Vec::new(alloc),
            cases: Vec::new(alloc),
            parties: Vec::new(alloc),
            entries: Vec::new(alloc),
            deadlines: Vec::new(alloc),
            acts: Vec::new(alloc),
            receipts: Vec::new(alloc),
            local_rules: Vec::new(alloc),
        }
    }
}

/// Makes room for so many rows in each table, and for a receipt.
fn reserve(tables: &mut Vectors, rows: usize) -> Result<(), AllocError>
    ensures same { lists_of tables.new ≡ lists_of tables.old }
    ensures room { OnOk result (HasRoom rows tables.new) }
{
    tables.calendar.reserve(rows)?;
    tables.cases.reserve(rows)?;
    tables.parties.reserve(rows)?;
    tables.entries.reserve(rows)?;
    tables.deadlines.reserve(rows)?;
    tables.acts.reserve(rows)?;
    tables.local_rules.reserve(rows)?;
    tables.receipts.reserve(1)
}

fn remove_row(rows: &mut Vec<CalendarRow>, number: u32)
    ensures items { rows.new.items ≡ filter (λ row. not (row.number == number)) rows.old.items }
    ensures room { vec_capacity rows.new ≡ vec_capacity rows.old }
    ensures shorter { vec_len rows.new ≤ vec_len rows.old }
{
    rows.retain(|row| row.number != number);
}

/// Makes a change, for which there is room.
fn change(tables: &mut Vectors, change: Change)
    requires next_row { tables.old.next_row + 1 < 2 ^ 64 }
    requires room { HasRoom 1 tables.old }
    ensures lists { lists_of tables.new ≡ changed change (lists_of tables.old) }
    ensures room { (n : ℕ) → HasRoom (n + 1) tables.old → HasRoom n tables.new }
    ensures next_row { tables.new.next_row ≤ tables.old.next_row + 1 }
{
    match change {
        Change::AddCalendar(row) => {
            let _ = tables.calendar.push(row);
            tables.next_row += 1;
        }
        Change::RemoveCalendar(number) => remove_row(&mut tables.calendar, number),
        Change::AddCase(row) => {
            let _ = tables.cases.push(row);
        }
        Change::AddParty(row) => {
            let _ = tables.parties.push(row);
        }
        Change::AddEntry(row) => {
            let _ = tables.entries.push(row);
        }
        Change::AddDeadline(row) => {
            let _ = tables.deadlines.push(row);
        }
        Change::AddAct(row) => {
            let _ = tables.acts.push(row);
        }
        Change::AddLocalRule(row) => {
            let _ = tables.local_rules.push(row);
        }
    }
}

/// Makes changes, for which there is room, one after another.
fn change_all(tables: &mut Vectors, changes: Vec<Change>)
    requires next_row { tables.old.next_row + length changes.items < 2 ^ 64 }
    requires room { HasRoom (length changes.items) tables.old }
    ensures lists { lists_of tables.new ≡ all_changed changes.items (lists_of tables.old) }
    ensures room { HasRoom 0 tables.new }
{
    for next in changes {
        change(tables, next);
    }
}

/// Adds a receipt, for which there is room.
fn add_receipt(tables: &mut Vectors, receipt: Receipt)
    requires { HasRoom 0 tables.old }
    ensures { lists_of tables.new ≡ with_receipt receipt.command receipt.reply (lists_of tables.old) }
{
    let _ = tables.receipts.push(receipt);
}

/// Makes the changes of a command, and adds its receipt. All that can fail is done first, so that
/// running out of memory changes nothing.
pub(crate) fn enter(
    tables: &mut Vectors,
    command: &Command,
    changes: Changes,
) -> Result<Reply, AllocError>
    requires { AreSmall tables.old }
    ensures reply { IfOk result (λ reply. reply ≡ changes.reply) }
    ensures entered { OnOk result (lists_of tables.new
        ≡ with_receipt command.now changes.reply (all_changed changes.rows.items (lists_of tables.old))) }
    ensures err { OnErr result (lists_of tables.new ≡ lists_of tables.old) }
{
    let reply = changes.reply;
    let receipt = Receipt {
        command: command.copied()?,
        reply,
    };
    reserve(tables, changes.rows.len())?;
    change_all(tables, changes.rows);
    add_receipt(tables, receipt);
    Ok(reply)
}
