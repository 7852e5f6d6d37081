//! The rows that an accepted action changes.
ghost use Rattle.std.specs.Prelude.{◌≡◌, ◌≢◌, [], ◌+◌, ◌≤◌, ◌<◌, ◌^◌, ◌++◌, length, map, false, IfOk, OnOk};
ghost use Rattle.docket_history.specs.Actions.{row_withdrawn, deadlines_made, acts_made};
ghost use Rattle.docket_history.specs.Histories.{numbered, deadline_rows_from, first_acts_from, act_rows_on, rows_added};
ghost use Rattle.docket_decisions.specs.Refusals.{is_full};
ghost use Rattle.docket_decisions.specs.Tables.{withdrawal, case_changes, party_changes, entry_changes, deadline_changes, first_act_changes, act_changes, local_rule_changes, action_changes};
ghost use Rattle.docket_history.specs.Views.{acts_in, count_deadlines, deadline_shown};
ghost use Rattle.docket_history.specs.declared.row.Change.TheVariants as Change;

use crate::deadline::act_made;
use docket_command::Action;
use docket_history::{
    ActRow, CalendarRow, CaseRow, Change, DeadlineRow, EntryRow, LocalRuleRow, NewDeadline, NewRow,
    PartyRow, Subject, View,
};
use std::alloc::{AllocError, Global};

fn push_withdrawal(changes: &mut Vec<Change>, action: &Action) -> Result<(), AllocError>
    ensures { OnOk result (changes.new.items ≡ changes.old.items ++ withdrawal (row_withdrawn action.now)) }
{
    if let Action::WithdrawCalendar(a) = action {
        changes.push(Change::RemoveCalendar(a.row))?;
    }
    Ok(())
}

/// Adds the rows, numbered from `first` on.
fn push_calendar(
    changes: &mut Vec<Change>,
    first: u64,
    mut rows: Vec<NewRow>,
) -> Result<(), AllocError>
    requires { first + length rows.items ≤ 2 ^ 32 }
    ensures { OnOk result (changes.new.items ≡ changes.old.items ++ map Change.AddCalendar (numbered first rows.items)) }
{
    let mut number = first;
    while !rows.is_empty() {
        let row = rows.remove(0);
        changes.push(Change::AddCalendar(CalendarRow {
            number: number as u32,
            item: row.item,
            name: row.name,
        }))?;
        number += 1;
    }
    Ok(())
}

fn push_case(changes: &mut Vec<Change>, view: &View, action: &Action) -> Result<(), AllocError>
    requires { is_full view.now action.now ≡ false }
    ensures { OnOk result (changes.new.items ≡ changes.old.items ++ case_changes view.now action.now) }
{
    if let Action::OpenCase(a) = action {
        let row = CaseRow {
            number: view.cases + 1,
            label: a.label.copied()?,
            caption: a.caption.copied()?,
            filed: a.filed,
        };
        changes.push(Change::AddCase(row))?;
    }
    Ok(())
}

fn push_party(changes: &mut Vec<Change>, view: &View, action: &Action) -> Result<(), AllocError>
    requires { is_full view.now action.now ≡ false }
    ensures { OnOk result (changes.new.items ≡ changes.old.items ++ party_changes view.now action.now) }
{
    if let Action::AddParty(a) = action {
        let row = PartyRow {
            case: a.case,
            number: view.parties() + 1,
            name: a.name.copied()?,
            role: a.role,
        };
        changes.push(Change::AddParty(row))?;
    }
    Ok(())
}

fn push_entry(changes: &mut Vec<Change>, view: &View, action: &Action) -> Result<(), AllocError>
    requires { is_full view.now action.now ≡ false }
    ensures { OnOk result (changes.new.items ≡ changes.old.items ++ entry_changes view.now action.now) }
{
    if let Action::FileEntry(a) = action {
        let row = EntryRow {
            case: a.case,
            number: view.entries() + 1,
            day: a.day,
            text: a.text.copied()?,
        };
        changes.push(Change::AddEntry(row))?;
    }
    Ok(())
}

/// Adds new deadlines of a case, numbered from `first` on.
fn push_deadlines(
    changes: &mut Vec<Change>,
    case: u32,
    first: u32,
    made: &[NewDeadline],
) -> Result<(), AllocError>
    requires { first + length made.now < 2 ^ 32 }
    ensures { OnOk result (changes.new.items
        ≡ changes.old.items ++ map Change.AddDeadline (deadline_rows_from case first made.now)) }
{
    let mut number = first;
    for new in made {
        changes.push(Change::AddDeadline(DeadlineRow {
            case,
            number,
            party: new.party,
            rule: new.rule.copied()?,
            initial: new.initial,
        }))?;
        number += 1;
    }
    Ok(())
}

/// Adds their first acts.
fn push_first_acts(
    changes: &mut Vec<Change>,
    case: u32,
    first: u32,
    made: &[NewDeadline],
) -> Result<(), AllocError>
    requires { first + length made.now < 2 ^ 32 }
    ensures { OnOk result (changes.new.items
        ≡ changes.old.items ++ map Change.AddAct (first_acts_from case first made.now)) }
{
    let mut number = first;
    for new in made {
        changes.push(Change::AddAct(ActRow {
            case,
            deadline: number,
            number: 1,
            act: new.first,
        }))?;
        number += 1;
    }
    Ok(())
}

/// Adds the deadlines that an action makes, and their first acts.
fn push_made(
    changes: &mut Vec<Change>,
    view: &View,
    made: &[NewDeadline],
    action: &Action,
) -> Result<(), AllocError>
    requires made { made.now ≡ deadlines_made view.now.local action.now }
    requires room { deadlines_made view.now.local action.now ≢ []
        → count_deadlines view.now.case + length (deadlines_made view.now.local action.now) ≤ 1000 }
    ensures { OnOk result (changes.new.items
        ≡ changes.old.items ++ deadline_changes view.now action.now ++ first_act_changes view.now action.now) }
{
    if made.is_empty() {
        return Ok(());
    }
    let case = Subject::of(action).case.unwrap_or(0);
    let first = view.deadlines() + 1;
    push_deadlines(changes, case, first, made)?;
    push_first_acts(changes, case, first, made)
}

/// Adds an act to the deadline that the action names.
fn push_act(changes: &mut Vec<Change>, view: &View, action: &Action) -> Result<(), AllocError>
    requires { length (acts_in (deadline_shown view.now)) ≤ 100 }
    ensures { OnOk result (changes.new.items ≡ changes.old.items ++ act_changes view.now action.now) }
{
    if let Some(act) = act_made(action) {
        let subject = Subject::of(action);
        changes.push(Change::AddAct(ActRow {
            case: subject.case.unwrap_or(0),
            deadline: subject.deadline.unwrap_or(0),
            number: view.acts_named().len() as u32 + 1,
            act,
        }))?;
    }
    Ok(())
}

fn push_local_rule(
    changes: &mut Vec<Change>,
    view: &View,
    action: &Action,
) -> Result<(), AllocError>
    requires { is_full view.now action.now ≡ false }
    ensures { OnOk result (changes.new.items ≡ changes.old.items ++ local_rule_changes view.now action.now) }
{
    if let Action::LocalRule(rule) = action {
        let row = LocalRuleRow {
            number: view.local_rules + 1,
            rule: rule.copied()?,
        };
        changes.push(Change::AddLocalRule(row))?;
    }
    Ok(())
}

/// The changes of an action that is not refused, but for the receipt. It adds these rows to the
/// calendar.
pub(crate) fn changes_of_action(
    alloc: Global,
    view: &View,
    added: Vec<NewRow>,
    made: Vec<NewDeadline>,
    action: &Action,
) -> Result<Vec<Change>, AllocError>
    requires added { added.items ≡ rows_added view.now.calendar action.now }
    requires numbers { view.now.next_row + length added.items ≤ 2 ^ 32 }
    requires room { is_full view.now action.now ≡ false }
    requires made { made.items ≡ deadlines_made view.now.local action.now }
    requires deadlines { deadlines_made view.now.local action.now ≢ []
        → count_deadlines view.now.case + length (deadlines_made view.now.local action.now) ≤ 1000 }
    requires acts { length (acts_in (deadline_shown view.now)) ≤ 100 }
    ensures { IfOk result (λ changes. changes.items ≡ action_changes view.now action.now) }
{
    let mut changes = Vec::new(alloc);
    push_withdrawal(&mut changes, action)?;
    push_calendar(&mut changes, view.next_row, added)?;
    push_case(&mut changes, view, action)?;
    push_party(&mut changes, view, action)?;
    push_entry(&mut changes, view, action)?;
    push_made(&mut changes, view, made.as_slice(), action)?;
    push_act(&mut changes, view, action)?;
    push_local_rule(&mut changes, view, action)?;
    Ok(changes)
}
