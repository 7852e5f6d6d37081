//! The ends of deadlines as rows, and how they change.
ghost use Rattle.std.specs.Prelude.{◌≡◌, ◌++◌, ◌≤◌, List, length, Some, None, map, IfOk, OnOk, option_copied, false};
ghost use Rattle.std.specs.List.{All, AllByRecursion, Contains};
ghost use Rattle.std.specs.Prelude.{IsPermutation};
ghost use Rattle.court_days.specs.Court.{zone_of};
ghost use Rattle.civil_time.specs.Zone.{ZoneRules};
ghost use Rattle.court_days.specs.declared.filing.End.{End as Limit};
ghost use Rattle.court_rules.specs.Standings.{AreActs, IsEndAfter, StandsAfter};
ghost use Rattle.docket_decisions.specs.Additions.{AddsOnce, AddsAmong};
ghost use Rattle.docket_decisions.specs.EndRows.{time_of, end_of_time, end_running, end_rows_of, ends_running, all_changed_ends, IsElsewhere, AreRowsFrom, is_same_end, end_changes, first_end, after_first, changes_from, touches};
ghost use Rattle.docket_decisions.specs.declared.end_row.StoredEnd.{StoredEnd as Stored};
ghost use Rattle.docket_decisions.specs.declared.end_row.EndChange.TheVariants as change;

use court_days::{Calendar, Court, Day, End};
use court_rules::{Standing, due};
use docket_history::DeadlineView;
use std::alloc::{AllocError, Global};

/// An end as it is stored: its last day, which for an instant is the local day, and the instant, or
/// none where the time runs to the end of that day.
#[derive(Clone, Copy)]
pub struct EndTime {
    pub day: Day,
    pub moment: Option<i64>,
}

impl EndTime {
    /// The end that is stored so.
    pub fn end(self) -> End
        ensures value { result ≡ end_of_time self }
        ensures stored { (zone : ZoneRules) (end : Limit) → self ≡ time_of zone end → result ≡ end }
    {
        match self.moment {
            Some(at) => End::Moment(at),
            None => End::LastDay(self.day),
        }
    }
}

/// The end of a deadline whose time runs.
#[derive(Clone, Copy)]
pub struct StoredEnd {
    pub case: u32,
    pub deadline: u32,
    pub end: EndTime,
}

/// A row of an end that is added, the case and the deadline of one that is removed, or one whose end
/// moves, with its new end.
#[derive(Clone, Copy)]
pub enum EndChange {
    Add(StoredEnd),
    Remove(u32, u32),
    Move(StoredEnd),
}

fn time_of(court: &Court, end: End) -> EndTime
    requires { IsEndAfter 100 end }
    ensures { result ≡ time_of (zone_of court.now) end }
{
    match end {
        End::LastDay(day) => EndTime { day, moment: None },
        End::Moment(at) => EndTime {
            day: court.local(at).0,
            moment: Some(at),
        },
    }
}

/// The end of a time that runs.
pub fn end_running(court: &Court, standing: Standing) -> Option<EndTime>
    requires { StandsAfter 100 standing }
    ensures { result ≡ end_running (zone_of court.now) standing }
{
    match standing {
        Standing::Running(end) => Some(time_of(court, end)),
        _ => None,
    }
}

fn is_same_end(end: &EndTime, other: &EndTime) -> bool
    ensures { result ≡ is_same_end end.now other.now }
{
    end.day == other.day && end.moment == other.moment
}

/// The end of a deadline, where its row comes first.
pub fn first_end(rows: &[StoredEnd], deadline: u32) -> Option<EndTime>
    ensures { result ≡ first_end deadline rows.now }
{
    match rows.first() {
        Some(row) if row.deadline == deadline => Some(row.end),
        _ => None,
    }
}

/// The rows after that of a deadline, where it comes first.
pub fn after_first(rows: &[StoredEnd], deadline: u32) -> &[StoredEnd]
    ensures { result.now ≡ after_first deadline rows.now }
{
    match rows {
        [row, rest @ ..] if row.deadline == deadline => rest,
        _ => rows,
    }
}

/// Adds the row of a deadline.
fn add_end(
    changes: &mut Vec<EndChange>,
    case: u32,
    deadline: u32,
    end: EndTime,
) -> Result<(), AllocError>
    ensures { OnOk result (changes.new.items ≡ changes.old.items ++ end_changes case deadline None (Some end)) }
{
    changes.extend_from_slice(&[EndChange::Add(StoredEnd {
        case,
        deadline,
        end,
    })])?;
    Ok(())
}

/// Removes the row of a deadline.
fn remove_end(
    changes: &mut Vec<EndChange>,
    case: u32,
    deadline: u32,
    stored: EndTime,
) -> Result<(), AllocError>
    ensures { OnOk result (changes.new.items ≡ changes.old.items ++ end_changes case deadline (Some stored) None) }
{
    changes.extend_from_slice(&[EndChange::Remove(case, deadline)])?;
    Ok(())
}

/// Moves the end of a deadline, unless it is right.
fn move_end(
    changes: &mut Vec<EndChange>,
    case: u32,
    deadline: u32,
    stored: EndTime,
    end: &EndTime,
) -> Result<(), AllocError>
    ensures { OnOk result (changes.new.items ≡ changes.old.items ++ end_changes case deadline (Some stored) (Some end.now)) }
{
    if is_same_end(&stored, end) {
        return Ok(());
    }
    changes.extend_from_slice(&[EndChange::Move(StoredEnd {
        case,
        deadline,
        end: *end,
    })])?;
    Ok(())
}

/// Adds the changes of the row of a deadline, by the end that is stored and the one that its time
/// has.
pub(crate) fn change_end(
    changes: &mut Vec<EndChange>,
    case: u32,
    deadline: u32,
    stored: Option<EndTime>,
    end: Option<EndTime>,
) -> Result<(), AllocError>
    ensures { OnOk result (changes.new.items ≡ changes.old.items ++ end_changes case deadline stored end) }
{
    let Some(stored) = stored else {
        return match end {
            Some(end) => add_end(changes, case, deadline, end),
            None => Ok(()),
        };
    };
    match end {
        Some(end) => move_end(changes, case, deadline, stored, &end),
        None => remove_end(changes, case, deadline, stored),
    }
}

/// Adds the removals of these rows.
fn remove_ends(changes: &mut Vec<EndChange>, rows: &[StoredEnd]) -> Result<(), AllocError>
    ensures { OnOk result (changes.new.items ≡ changes.old.items ++ map (λ row. change.Remove row.case row.deadline) rows.now) }
{
    for row in rows {
        changes.extend_from_slice(&[EndChange::Remove(row.case, row.deadline)])?;
    }
    Ok(())
}

/// The changes of the rows that are stored of a case, deadline by deadline.
fn changes_of_case(
    alloc: Global,
    court: &Court,
    calendar: &Calendar,
    case: u32,
    deadlines: &[DeadlineView],
    stored: &[StoredEnd],
) -> Result<Vec<EndChange>, AllocError>
    requires few { length deadlines.now ≤ 1000 }
    requires acts { All (λ d. AreActs (zone_of court.now) d.acts) deadlines.now }
    ensures { IfOk result (λ changes. changes.items ≡ changes_from case 1 (ends_running (zone_of court.now) calendar.now deadlines.now) stored.now) }
{
    let mut changes = Vec::new(alloc);
    let mut rest = stored;
    let mut number = 1;
    for deadline in deadlines {
        let standing = due(court, calendar, deadline.acts.as_slice());
        let end = end_running(court, standing);
        change_end(&mut changes, case, number, first_end(rest, number), end)?;
        rest = after_first(rest, number);
        number += 1;
    }
    remove_ends(&mut changes, rest)?;
    Ok(changes)
}

/// The changes that lead from the rows that are stored of a case to the rows of its ends by the
/// calendar.
pub fn due_changes(
    alloc: Global,
    court: &Court,
    calendar: &Calendar,
    case: u32,
    deadlines: &[DeadlineView],
    stored: &[StoredEnd],
) -> Result<Vec<EndChange>, AllocError>
    requires few { length deadlines.now ≤ 1000 }
    requires acts { All (λ d. AreActs (zone_of court.now) d.acts) deadlines.now }
    // Among the rows of all cases they lead to the case's rows, and leave those of other cases.
    ensures rows { (others : List Stored) → AllByRecursion (IsElsewhere case 1) others → AreRowsFrom case 1 stored.now
        → IfOk result (λ changes. IsPermutation (all_changed_ends changes.items (others ++ stored.now)) (others ++ end_rows_of (zone_of court.now) calendar.now case deadlines.now)) }
    // A row that is right is not touched.
    ensures kept { AreRowsFrom case 1 stored.now → IfOk result (λ changes. (row : Stored) → Contains stored.now row
        → Contains (end_rows_of (zone_of court.now) calendar.now case deadlines.now) row → AllByRecursion (λ change. touches change row ≡ false) changes.items) }
    // No row is added beside one of its deadline, and each is of a deadline that is there.
    ensures once { (others : List Stored) → AllByRecursion (IsElsewhere case 1) others → AreRowsFrom case 1 stored.now
        → IfOk result (λ changes. AddsOnce changes.items (others ++ stored.now) × AddsAmong (λ k n. (k ≡ case) × (1 ≤ n) × (n ≤ length deadlines.now)) changes.items) }
{
    changes_of_case(alloc, court, calendar, case, deadlines, stored)
}
