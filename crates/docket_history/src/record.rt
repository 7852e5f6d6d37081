//! What a docket returns about its cases and deadlines.
ghost use Rattle.std.specs.Prelude.{◌≡◌};

use crate::row::{EntryRow, PartyRow};
use court_days::{Day, End};
use court_rules::Standing;
use docket_command::Text;
use std::marker::Model;

/// Parties, in the order of their numbers, seen as the list of them.
#[derive(Drop)]
pub struct PartyRows {
    rows: Vec<PartyRow>,
}

impl Model for PartyRows {
    ghost use Rattle.std.specs.Prelude.{List};
    ghost use Rattle.docket_history.specs.declared.row.PartyRow.{PartyRow};

    ghost Value = { List PartyRow };

    ghost view = { λ a. a.rows.items };
}

impl PartyRows {
    pub fn new(rows: Vec<PartyRow>) -> PartyRows
        ensures { result ≡ rows.items }
    {
        PartyRows { rows }
    }

    pub fn as_slice(&self) -> &[PartyRow]
        ensures { result.now ≡ self.now }
    {
        self.rows.as_slice()
    }
}

/// Entries, in the order of their numbers, seen as the list of them.
#[derive(Drop)]
pub struct EntryRows {
    rows: Vec<EntryRow>,
}

impl Model for EntryRows {
    ghost use Rattle.std.specs.Prelude.{List};
    ghost use Rattle.docket_history.specs.declared.row.EntryRow.{EntryRow};

    ghost Value = { List EntryRow };

    ghost view = { λ a. a.rows.items };
}

impl EntryRows {
    pub fn new(rows: Vec<EntryRow>) -> EntryRows
        ensures { result ≡ rows.items }
    {
        EntryRows { rows }
    }

    pub fn as_slice(&self) -> &[EntryRow]
        ensures { result.now ≡ self.now }
    {
        self.rows.as_slice()
    }
}

/// A case with its parties and its entries.
#[derive(Drop)]
pub struct CaseRecord {
    pub number: u32,
    pub label: Text,
    pub caption: Text,
    pub filed: Day,
    pub parties: PartyRows,
    pub entries: EntryRows,
}

/// A deadline of a case, and where it stands. The party is 0 for every party, the rule is its name;
/// `close` is the minute of the day at which the clerk's office is scheduled to close on the last day.
/// It is 0 where the time ends at an instant or none runs.
#[derive(Drop)]
pub struct DeadlineLine {
    pub number: u32,
    pub party: u32,
    pub rule: Text,
    pub standing: Standing,
    pub close: u32,
}

/// The end of a deadline whose time runs. The party is 0 for every party, the rule is its name;
/// `close` is the minute of the day at which the clerk's office is scheduled to close on the last day,
/// and 0 where the time ends at an instant.
#[derive(Drop)]
pub struct DueRow {
    pub end: End,
    pub close: u32,
    pub case: u32,
    pub number: u32,
    pub party: u32,
    pub rule: Text,
}
