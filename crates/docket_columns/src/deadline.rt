//! Rows of the table of deadlines.
ghost use Rattle.std.specs.Prelude.{◌≡◌, Some, IfOk, IfSome};
ghost use Rattle.sqlite.specs.Values.{bound};
ghost use Rattle.sqlite_value.specs.Order.{column};
ghost use Rattle.sqlite_value.specs.declared.value.Value.TheVariants.{Text};
ghost use Rattle.court_rules.specs.LocalRules.{IsDeadlineRule, deadline_rule_name};
ghost use Rattle.court_rules.specs.declared.deadline_rule.DeadlineRule.{DeadlineRule as Named};
ghost use Rattle.docket_history.specs.declared.row.DeadlineRow.{DeadlineRow as Deadline};
ghost use Rattle.docket_columns.specs.Cells.{deadline_cells};
ghost use Rattle.docket_columns.specs.Fits.{IsDeadlineRow};

use crate::cell::{count_at, flag_at, has_values, text_at};
use crate::codes::flag_number;
use crate::stored::StoredRow;
use court_rules::DeadlineRule;
use docket_history::DeadlineRow;
use sqlite::Row;
use sqlite::types::{ToSql, ValueRef};
use std::alloc::{AllocError, Global};

/// The columns of a deadline: case_no, number, party, rule, initial.
pub fn deadline_values(row: &DeadlineRow) -> [ValueRef<'_>; 5]
    ensures { bound result ≡ deadline_cells row.now }
{
    [
        row.case.to_sql(),
        row.number.to_sql(),
        row.party.to_sql(),
        row.rule.name().to_sql(),
        flag_number(row.initial).to_sql(),
    ]
}

/// Reads the rule whose name is in a column.
fn rule_at(alloc: Global, row: &Row, at: usize) -> Result<Option<DeadlineRule>, AllocError>
    ensures reads { (rule : Named) → IsDeadlineRule rule → column row.now at ≡ Text (deadline_rule_name rule)
        → IfOk result (λ found. found ≡ Some rule) }
    ensures lawful { IfOk result (λ found. IfSome found IsDeadlineRule) }
{
    match text_at(row, at) {
        Some(text) => DeadlineRule::named(alloc, text),
        None => Ok(None),
    }
}

/// Reads the deadline of a row. `None`: it is not a row of a deadline.
pub fn deadline_of(alloc: Global, row: &Row) -> Result<Option<DeadlineRow>, AllocError>
    ensures reads { (d : Deadline) → IsDeadlineRow d → row.now ≡ deadline_cells d → IfOk result (λ found. found ≡ Some d) }
    ensures sound { IfOk result (λ found. IfSome found (λ d. row.now ≡ deadline_cells d)) }
    ensures fits { IfOk result (λ found. IfSome found IsDeadlineRow) }
{
    let Some(case) = count_at(row, 0) else {
        return Ok(None);
    };
    let Some(number) = count_at(row, 1) else {
        return Ok(None);
    };
    let Some(party) = count_at(row, 2) else {
        return Ok(None);
    };
    let Some(rule) = rule_at(alloc, row, 3)? else {
        return Ok(None);
    };
    let Some(initial) = flag_at(row, 4) else {
        return Ok(None);
    };
    let found = DeadlineRow {
        case,
        number,
        party,
        rule,
        initial,
    };
    if has_values(row, &deadline_values(&found)) {
        Ok(Some(found))
    } else {
        Ok(None)
    }
}

impl StoredRow for DeadlineRow {
    ghost use Rattle.docket_columns.specs.Cells.{deadline_cells};
    ghost use Rattle.docket_columns.specs.Fits.{IsDeadlineRow};

    ghost cells = { deadline_cells };

    ghost Is = { IsDeadlineRow };

    fn read(alloc: Global, row: &Row) -> Result<Option<DeadlineRow>, AllocError> {
        deadline_of(alloc, row)
    }
}
