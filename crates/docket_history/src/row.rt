//! The rows of the docket's tables.
use crate::item::CalendarItem;
use court_days::Day;
use court_rules::{Act, DeadlineRule};
use docket_command::{Command, LocalRule, Reply, Role, Text, TimeOfDay};

/// A row of the court's calendar. Rows are numbered from 1 over all that were ever added.
#[derive(Drop)]
pub struct CalendarRow {
    pub number: u32,
    pub item: CalendarItem,
    pub name: Text,
}

/// A row of the court's calendar that enters a short day: the clerk's office is scheduled to close at that
/// time.
#[derive(Drop)]
pub struct ShortDayRow {
    pub number: u32,
    pub day: Day,
    pub close: TimeOfDay,
    pub name: Text,
}

impl From<ShortDayRow> for CalendarRow {
    ghost use Rattle.std.specs.Prelude.{◌≡◌};
    ghost use Rattle.docket_history.specs.ShortDays.{calendar_row};

    ghost from_gives = { λ short row. row ≡ calendar_row short };

    fn from(short: ShortDayRow) -> CalendarRow {
        CalendarRow {
            number: short.number,
            item: CalendarItem::Short(short.day, short.close),
            name: short.name,
        }
    }
}

/// A case, numbered from 1.
#[derive(Drop)]
pub struct CaseRow {
    pub number: u32,
    pub label: Text,
    pub caption: Text,
    pub filed: Day,
}

/// A party, numbered from 1 within its case.
#[derive(Drop)]
pub struct PartyRow {
    pub case: u32,
    pub number: u32,
    pub name: Text,
    pub role: Role,
}

/// An entry, numbered from 1 within its case.
#[derive(Drop)]
pub struct EntryRow {
    pub case: u32,
    pub number: u32,
    pub day: Day,
    pub text: Text,
}

/// A deadline, numbered from 1 within its case. The party is 0 for every party.
#[derive(Drop)]
pub struct DeadlineRow {
    pub case: u32,
    pub number: u32,
    pub party: u32,
    pub rule: DeadlineRule,
    pub initial: bool,
}

/// A deadline that a command makes, with its first act.
#[derive(Drop)]
pub struct NewDeadline {
    pub party: u32,
    pub rule: DeadlineRule,
    pub initial: bool,
    pub first: Act,
}

/// An act, numbered from 1 within its deadline.
#[derive(Clone, Copy)]
pub struct ActRow {
    pub case: u32,
    pub deadline: u32,
    pub number: u32,
    pub act: Act,
}

/// A rule of the court's own, numbered from 1.
#[derive(Drop)]
pub struct LocalRuleRow {
    pub number: u32,
    pub rule: LocalRule,
}

/// A command that was accepted, with the reply that it had.
#[derive(Drop)]
pub struct Receipt {
    pub command: Command,
    pub reply: Reply,
}

/// A row that is added, or the number of a calendar row that is removed. A receipt is no such row:
/// the store of receipts adds it for the command, with the reply.
#[derive(Drop)]
pub enum Change {
    AddCalendar(CalendarRow),
    RemoveCalendar(u32),
    AddCase(CaseRow),
    AddParty(PartyRow),
    AddEntry(EntryRow),
    AddDeadline(DeadlineRow),
    AddAct(ActRow),
    AddLocalRule(LocalRuleRow),
}
