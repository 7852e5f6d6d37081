//! What a command would do, as a value, and the text of the deadlines with the acts that it adds.
ghost use Rattle.std.specs.Prelude.{◌≡◌, ◌++◌, ◌∷◌, [], IfErr, IfOk, OnOk, string_bytes, option_copied};
ghost use Rattle.docket_history.specs.Histories.{acts_of_deadline};
ghost use Rattle.docket_decisions.proofs.AddedActs.{acts_added};
ghost use Rattle.docket_applying.specs.Sound.{IsSoundCase};
ghost use Rattle.docket_applying.specs.Told.{IsNotTold};
ghost use Rattle.docket_questions.specs.Texts.{reasons_of};
ghost use Rattle.docket_questions.specs.Foreseeing.{act_title};
ghost use Rattle.docket_questions.specs.Prospects.{deadline_added, deadline_after, deadline_before, deadline_found, deadline_with, told_after, with_acts, IsSoundIfAny};

use crate::reasons::text_of_deadline;
use court_days::{Calendar, Court};
use court_rules::Act;
use docket_applying::is_sound_case;
use docket_command::{Refusal, Reply};
use docket_history::{ActRow, Acts, Change, DeadlineRow, DeadlineView};
use docket_store::{Fault, Grounds};
use std::alloc::{AllocError, Global};
use std::slice;

/// What a command would do.
#[derive(Drop)]
pub enum Foreseen {
    Refused(Refusal),
    /// It was entered already, with this reply.
    Known(Reply),
    /// It would be accepted. The text has the deadlines that it makes and those on which it acts, and why each
    /// would stand as it does.
    Accepted(String),
}

/// Which deadline an act is on.
fn act_title(alloc: Global, row: &ActRow) -> Result<String, AllocError>
    ensures { IfOk result (λ title. string_bytes title ≡ act_title row.now) }
{
    let new = if row.number == 1 { "new " } else { "" };
    let deadline = row.deadline;
    let case = row.case;
    format!(in alloc; "{new}deadline {deadline} of case {case}\n")
}

/// The acts that changes add.
pub(crate) fn acts_added(alloc: Global, changes: &[Change]) -> Result<Vec<ActRow>, AllocError>
    ensures { IfOk result (λ rows. rows.items ≡ acts_added changes.now) }
{
    let mut rows = Vec::new(alloc);
    for change in changes {
        if let Change::AddAct(row) = change {
            rows.push(*row)?;
        }
    }
    Ok(rows)
}

/// The deadline of a number in a case, where changes add it.
fn deadline_added(changes: &[Change], case: u32, number: u32) -> Option<&DeadlineRow>
    ensures { option_copied result ≡ deadline_added case number changes.now }
{
    for change in changes {
        if let Change::AddDeadline(row) = change {
            if row.case == case && row.number == number {
                return Some(row);
            }
        }
    }
    None
}

/// A deadline that is added, without acts.
fn new_deadline(alloc: Global, row: &DeadlineRow) -> Result<DeadlineView, AllocError>
    ensures { IfOk result (λ deadline. deadline ≡ deadline_with [] row.now) }
{
    Ok(DeadlineView {
        party: row.party,
        rule: row.rule.copied()?,
        initial: row.initial,
        acts: Acts::new(Vec::new(alloc)),
    })
}

/// The deadline of an act as it was found, or as it is added.
fn deadline_before(
    alloc: Global,
    found: Option<Grounds>,
    changes: &[Change],
    row: &ActRow,
) -> Result<Option<DeadlineView>, AllocError>
    ensures { IfOk result (λ deadline. deadline ≡ deadline_before (deadline_found found) changes.now row.now) }
{
    match found {
        Some(grounds) => Ok(Some(grounds.deadline)),
        None => match deadline_added(changes, row.case, row.deadline) {
            Some(added) => Ok(Some(new_deadline(alloc, added)?)),
            None => Ok(None),
        },
    }
}

/// Adds those of the acts that are on the deadline of this one.
fn push_acts(acts: &mut Vec<Act>, rows: &[ActRow], row: &ActRow) -> Result<(), AllocError>
    ensures { OnOk result (acts.new.items ≡ acts.old.items ++ acts_of_deadline row.now.case row.now.deadline rows.now) }
{
    for other in rows {
        if other.case == row.case && other.deadline == row.deadline {
            acts.push(other.act)?;
        }
    }
    Ok(())
}

/// The deadline of an act with those of the acts that are on it.
fn with_acts(
    alloc: Global,
    deadline: DeadlineView,
    rows: &[ActRow],
    row: &ActRow,
) -> Result<DeadlineView, AllocError>
    ensures { IfOk result (λ after. after ≡ with_acts (acts_of_deadline row.now.case row.now.deadline rows.now) deadline) }
{
    let mut acts = Vec::new(alloc);
    acts.extend_from_slice(deadline.acts.as_slice())?;
    push_acts(&mut acts, rows, row)?;
    Ok(DeadlineView {
        acts: Acts::new(acts),
        ..deadline
    })
}

/// Why a deadline stands as it does, if a history can show it.
fn reasons_told(
    alloc: Global,
    court: &Court,
    calendar: &Calendar,
    deadline: &DeadlineView,
) -> Result<String, Fault>
    ensures ok { IfOk result (λ text. string_bytes text ≡ reasons_of court.now calendar.now deadline.now) }
    ensures err { IfErr result (IsNotTold (IsSoundCase court.now (deadline.now ∷ []))) }
{
    if !is_sound_case(court, slice::from_ref(deadline)) {
        return Err(Fault::Damaged);
    }
    let text = text_of_deadline(alloc, court, calendar, deadline)?;
    Ok(text)
}

/// Which deadline an act is on, and why it stands as it does with the acts on it.
pub(crate) fn told_after(
    alloc: Global,
    court: &Court,
    calendar: &Calendar,
    found: Option<Grounds>,
    changes: &[Change],
    rows: &[ActRow],
    row: &ActRow,
) -> Result<String, Fault>
    ensures ok { IfOk result (λ text. string_bytes text
        ≡ told_after court.now calendar.now row.now (deadline_after (deadline_found found) changes.now rows.now row.now)) }
    ensures err { IfErr result (IsNotTold (IsSoundIfAny court.now (deadline_after (deadline_found found) changes.now rows.now row.now))) }
{
    let mut text = act_title(alloc, row)?;
    let Some(before) = deadline_before(alloc, found, changes, row)? else {
        return Ok(text);
    };
    let after = with_acts(alloc, before, rows, row)?;
    let reasons = reasons_told(alloc, court, calendar, &after)?;
    text.push_str(&reasons)?;
    Ok(text)
}
