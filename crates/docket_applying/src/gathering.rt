//! Rows that were read, put together.
ghost use Rattle.std.specs.Prelude.{◌≡◌, ◌==◌, ◌<◌, ◌≤◌, ℕ, List, map, length, filter, IfOk};
ghost use Rattle.std.specs.List.Sorted.{IsNonDecreasingBy, IsPartitionPoint};
ghost use Rattle.docket_history.specs.Histories.{deadlines_from, items_of};
ghost use Rattle.docket_history.specs.declared.row.ActRow.{ActRow as OnDeadline};
ghost use Rattle.docket_orderly.specs.Orderly.{RunsFrom};
ghost use Rattle.docket_tables.specs.Readings.{AreActsOf};

use court_rules::Act;
use docket_history::{ActRow, Acts, CalendarItem, CalendarRow, DeadlineRow, DeadlineView};
use std::alloc::{AllocError, Global};

/// The items of the rows, in their order.
pub(crate) fn items_of(alloc: Global, rows: &[CalendarRow]) -> Result<Vec<CalendarItem>, AllocError>
    ensures { IfOk result (λ items. items.items ≡ items_of rows.now) }
{
    let mut items = Vec::new(alloc);
    for row in rows {
        items.push(row.item)?;
    }
    Ok(items)
}

/// How many acts belong to deadlines up to this one.
fn count_up_to(rows: &[ActRow], deadline: u32) -> usize
    ensures bound { result ≤ length rows.now }
    ensures cut { IsNonDecreasingBy (λ (row : OnDeadline). row.deadline) rows.now
        → IsPartitionPoint (λ (row : OnDeadline). row.deadline ≤ deadline) (λ (row : OnDeadline). deadline < row.deadline) rows.now result }
{
    rows.partition_point(|row| row.deadline <= deadline)
}

/// The acts of a deadline, among those of its case.
fn acts_among(alloc: Global, rows: &[ActRow], deadline: u32) -> Result<Vec<Act>, AllocError>
    ensures { IfOk result (λ found. found.items ≡ map (λ row. row.act) (filter (λ row. row.deadline == deadline) rows.now)) }
{
    let mut found = Vec::new(alloc);
    for row in rows {
        if row.deadline == deadline {
            found.push(row.act)?;
        }
    }
    Ok(found)
}

/// These deadlines of a case, each with its acts among those of the case, which are in the order of their
/// deadlines.
pub(crate) fn with_acts(
    alloc: Global,
    deadlines: &[DeadlineRow],
    acts: &[ActRow],
) -> Result<Vec<DeadlineView>, AllocError>
    ensures { (k : ℕ) (all : List OnDeadline) → RunsFrom 1 (map (λ row. row.number) deadlines.now) → AreActsOf k all acts.now
        → IfOk result (λ found. found.items ≡ deadlines_from k 1 all deadlines.now) }
{
    let mut found = Vec::new(alloc);
    let mut rest = acts;
    for row in deadlines {
        let (own, later) = rest.split_at(count_up_to(rest, row.number));
        let list = acts_among(alloc, own, row.number)?;
        rest = later;
        found.push(DeadlineView {
            party: row.party,
            rule: row.rule.copied()?,
            initial: row.initial,
            acts: Acts::new(list),
        })?;
    }
    Ok(found)
}
