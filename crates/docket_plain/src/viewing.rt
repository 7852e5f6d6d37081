//! What the tables show about a command.
ghost use Rattle.std.specs.Prelude.{◌≡◌, ◌==◌, ◌&&◌, ◌<◌, ◌≤◌, ◌^◌, length, option_copied, IfOk, if◌then◌else◌, []};
ghost use Rattle.std.specs.List.{All, find, list_any};
ghost use Rattle.std.specs.Option.{option_and_then};
ghost use Rattle.std.specs.Str.{bytes_eq};
ghost use Rattle.docket_history.specs.Actions.{case_named, asks_calendar, asks_cases, asks_next_row, asks_local_rules, if_asked};
ghost use Rattle.docket_history.specs.CalendarItems.{IsEnteredItem};
ghost use Rattle.docket_history.specs.Histories.{local_rule_in, acts_of_deadline, deadlines_of_case, deadlines_from, parties_of_case, entries_of_case, items_of};
ghost use Rattle.docket_decisions.specs.Outcomes.{under_key, is_label_taken, is_row_standing};
ghost use Rattle.docket_decisions.specs.Tables.{case_in, view_in};
ghost use Rattle.docket_history.specs.Views.{named_in, rule_name_asked};
ghost use Rattle.docket_plain.specs.Vectors.{lists_of, AreSmall};
ghost use Rattle.court_days.specs.Limits.{most_rows};

use crate::vectors::Vectors;
use court_rules::Act;
use docket_command::{Action, Command, LocalRule, Text};
use docket_history::{
    ActRow, Acts, CalendarItem, CalendarRow, CaseRow, CaseView, DeadlineView, EntryRow, Kept,
    LocalRuleRow, PartyRow, Receipt, StandingCalendar, Subject, View, rule_name_asked,
};
use std::alloc::{AllocError, Global};

/// The first receipt with a key.
fn receipt_of<'a>(receipts: &'a [Receipt], key: &Text) -> Option<&'a Receipt>
    ensures { option_copied result ≡ find (λ r. bytes_eq r.command.key key.now) receipts.now }
{
    receipts
        .iter()
        .find(|receipt| receipt.command.key.same(key))
}

fn under_key(receipts: &[Receipt], command: &Command) -> Kept
    ensures { result ≡ under_key receipts.now command.now }
{
    match receipt_of(receipts, &command.key) {
        Some(receipt) if receipt.command.same(command) => Kept::Same(receipt.reply),
        Some(_) => Kept::Other,
        None => Kept::Fresh,
    }
}

fn has_label(cases: &[CaseRow], label: &Text) -> bool
    ensures { result ≡ list_any (λ row. bytes_eq row.label label.now) cases.now }
{
    cases.iter().any(|row| row.label.same(label))
}

fn is_label_taken(cases: &[CaseRow], action: &Action) -> bool
    ensures { result ≡ is_label_taken action.now cases.now }
{
    match action {
        Action::OpenCase(a) => has_label(cases, &a.label),
        _ => false,
    }
}

fn has_row(rows: &[CalendarRow], number: u32) -> bool
    ensures { result ≡ list_any (λ row. row.number == number) rows.now }
{
    rows.iter().any(|row| row.number == number)
}

fn is_row_standing(rows: &[CalendarRow], action: &Action) -> bool
    ensures { result ≡ is_row_standing action.now rows.now }
{
    match action {
        Action::WithdrawCalendar(a) => has_row(rows, a.row),
        _ => false,
    }
}

fn count_parties(parties: &[PartyRow], case: u32) -> usize
    ensures { result ≡ length (parties_of_case case parties.now) }
{
    parties.iter().filter(|row| row.case == case).count()
}

fn count_entries(entries: &[EntryRow], case: u32) -> usize
    ensures { result ≡ length (entries_of_case case entries.now) }
{
    entries.iter().filter(|row| row.case == case).count()
}

fn acts_of(
    alloc: Global,
    acts: &[ActRow],
    case: u32,
    deadline: usize,
) -> Result<Vec<Act>, AllocError>
    ensures { IfOk result (λ found. found.items ≡ acts_of_deadline case deadline acts.now) }
{
    acts.iter()
        .filter(|row| row.case == case && row.deadline as usize == deadline)
        .map(|row| row.act)
        .collect(alloc)
}

/// The deadlines of a case, each with its acts.
pub(crate) fn deadlines_of(
    alloc: Global,
    tables: &Vectors,
    case: u32,
) -> Result<Vec<DeadlineView>, AllocError>
    ensures { IfOk result (λ found. found.items
        ≡ deadlines_from case 1 tables.now.acts.items (deadlines_of_case case tables.now.deadlines.items)) }
{
    let acts = tables.acts.as_slice();
    let mut found = Vec::new(alloc);
    for row in tables.deadlines.as_slice() {
        if row.case == case {
            found.push(DeadlineView {
                party: row.party,
                rule: row.rule.copied()?,
                initial: row.initial,
                acts: Acts::new(acts_of(alloc, acts, case, found.len() + 1)?),
            })?;
        }
    }
    Ok(found)
}

/// What the rows of the calendar enter.
pub(crate) fn items_of(alloc: Global, rows: &[CalendarRow]) -> Result<Vec<CalendarItem>, AllocError>
    ensures { IfOk result (λ items. items.items ≡ items_of rows.now) }
{
    rows.iter().map(|row| row.item).collect(alloc)
}

fn calendar_for(
    alloc: Global,
    rows: &[CalendarRow],
    action: &Action,
) -> Result<StandingCalendar, AllocError>
    requires items { All IsEnteredItem (items_of rows.now) }
    requires rows { length (items_of rows.now) ≤ most_rows }
    ensures { IfOk result (λ items. items ≡ (if asks_calendar action.now then items_of rows.now else [])) }
{
    if Subject::of(action).asks.calendar {
        Ok(StandingCalendar::new(alloc, items_of(alloc, rows)?)?)
    } else {
        Ok(StandingCalendar::empty(alloc))
    }
}

/// The case of a number, as an action needs it.
fn case_of(
    alloc: Global,
    tables: &Vectors,
    number: u32,
    action: &Action,
) -> Result<Option<CaseView>, AllocError>
    requires { AreSmall tables.now }
    ensures { IfOk result (λ case. case ≡ case_in (lists_of tables.now) action.now number) }
{
    if number < 1 || tables.cases.len() < number as usize {
        return Ok(None);
    }
    Ok(Some(CaseView::new(
        number,
        count_parties(tables.parties.as_slice(), number) as u32,
        count_entries(tables.entries.as_slice(), number) as u32,
        deadlines_of(alloc, tables, number)?,
        action,
    )))
}

fn case_for(
    alloc: Global,
    tables: &Vectors,
    action: &Action,
) -> Result<Option<CaseView>, AllocError>
    requires { AreSmall tables.now }
    ensures { IfOk result (λ case. case ≡ option_and_then (case_in (lists_of tables.now) action.now) (case_named action.now)) }
{
    match Subject::of(action).case {
        Some(number) => case_of(alloc, tables, number, action),
        None => Ok(None),
    }
}

/// How many cases there are, if the action asks.
fn cases_for(cases: &[CaseRow], action: &Action) -> u32
    requires { length cases.now < 2 ^ 32 }
    ensures { result ≡ if_asked (asks_cases action.now) (length cases.now) }
{
    if Subject::of(action).asks.cases {
        cases.len() as u32
    } else {
        0
    }
}

/// The number of the next calendar row, if the action asks.
fn next_row_for(next_row: u64, action: &Action) -> u64
    ensures { result ≡ if_asked (asks_next_row action.now) next_row }
{
    if Subject::of(action).asks.next_row {
        next_row
    } else {
        0
    }
}

/// The first local rule of a name.
fn rule_row<'a>(rules: &'a [LocalRuleRow], name: &Text) -> Option<&'a LocalRuleRow>
    ensures { option_copied result ≡ find (λ row. bytes_eq row.rule.name name.now) rules.now }
{
    rules.iter().find(|row| row.rule.name.same(name))
}

/// The local rule of a name.
fn rule_of(rules: &[LocalRuleRow], name: &Text) -> Result<Option<LocalRule>, AllocError>
    ensures { IfOk result (λ found. found ≡ local_rule_in rules.now name.now) }
{
    match rule_row(rules, name) {
        Some(row) => Ok(Some(row.rule.copied()?)),
        None => Ok(None),
    }
}

/// The local rule that the action names, or by which the deadline is timed that it extends.
fn rule_for(
    rules: &[LocalRuleRow],
    case: &Option<CaseView>,
    action: &Action,
) -> Result<Option<LocalRule>, AllocError>
    ensures { IfOk result (λ found. found
        ≡ option_and_then (local_rule_in rules.now) (rule_name_asked (named_in case.now) action.now)) }
{
    match rule_name_asked(case, action) {
        Some(name) => rule_of(rules, name),
        None => Ok(None),
    }
}

/// How many local rules there are, if the action asks.
fn rules_for(rules: &[LocalRuleRow], action: &Action) -> u32
    requires { length rules.now < 2 ^ 32 }
    ensures { result ≡ if_asked (asks_local_rules action.now) (length rules.now) }
{
    if Subject::of(action).asks.local_rules {
        rules.len() as u32
    } else {
        0
    }
}

/// What the tables show about a command.
pub(crate) fn view_of(
    alloc: Global,
    tables: &Vectors,
    command: &Command,
) -> Result<View, AllocError>
    requires small { AreSmall tables.now }
    requires items { All IsEnteredItem (items_of tables.now.calendar.items) }
    requires rows { length (items_of tables.now.calendar.items) ≤ most_rows }
    ensures { IfOk result (λ view. view ≡ view_in (lists_of tables.now) command.now) }
{
    let action = &command.action;
    let case = case_for(alloc, tables, action)?;
    let rules = tables.local_rules.as_slice();
    Ok(View {
        under_key: under_key(tables.receipts.as_slice(), command),
        cases: cases_for(tables.cases.as_slice(), action),
        label_taken: is_label_taken(tables.cases.as_slice(), action),
        local: rule_for(rules, &case, action)?,
        local_rules: rules_for(rules, action),
        case,
        row_stands: is_row_standing(tables.calendar.as_slice(), action),
        calendar: calendar_for(alloc, tables.calendar.as_slice(), action)?,
        next_row: next_row_for(tables.next_row, action),
    })
}
