//! Rows of the table of local rules.
ghost use Rattle.std.specs.Prelude.{◌≡◌, pos, Some, IfOk, IfSome, option_copied};
ghost use Rattle.sqlite.specs.Values.{bound};
ghost use Rattle.sqlite_value.specs.Order.{column};
ghost use Rattle.sqlite_value.specs.declared.value.Value.TheVariants.{Int};
ghost use Rattle.court_days.specs.declared.calendar.Direction.{Direction as Course};
ghost use Rattle.docket_history.specs.declared.row.LocalRuleRow.{LocalRuleRow as Rule};
ghost use Rattle.docket_columns.specs.Cells.{local_name_in, local_rule_cells};
ghost use Rattle.docket_columns.specs.Codes.{direction_number};
ghost use Rattle.docket_columns.specs.Fits.{IsLocalRuleRow};

use crate::cell::{count_at, flag_at, has_values, text_at};
use crate::codes::{direction_number, direction_of, flag_number};
use crate::stored::StoredRow;
use court_days::Direction;
use court_rules::is_local_name;
use docket_command::{LocalRule, Text};
use docket_history::LocalRuleRow;
use sqlite::Row;
use sqlite::types::{ToSql, ValueRef};
use std::alloc::{AllocError, Global};

/// The columns of a local rule: number, name, days, direction, three, extendable.
pub fn local_rule_values(row: &LocalRuleRow) -> [ValueRef<'_>; 6]
    ensures { bound result ≡ local_rule_cells row.now }
{
    [
        row.number.to_sql(),
        row.rule.name.as_str().to_sql(),
        row.rule.days.to_sql(),
        direction_number(row.rule.direction).to_sql(),
        flag_number(row.rule.three).to_sql(),
        flag_number(row.rule.extendable).to_sql(),
    ]
}

/// The direction in a column.
fn direction_at(row: &Row, at: usize) -> Option<Direction>
    ensures { (direction : Course) → column row.now at ≡ Int (pos (direction_number direction)) → result ≡ Some direction }
{
    direction_of(count_at(row, at)?)
}

/// Reads the local rule of a row. `None`: it is not a row of a local rule.
pub fn local_rule_of(alloc: Global, row: &Row) -> Result<Option<LocalRuleRow>, AllocError>
    ensures reads { (r : Rule) → IsLocalRuleRow r → row.now ≡ local_rule_cells r → IfOk result (λ found. found ≡ Some r) }
    ensures sound { IfOk result (λ found. IfSome found (λ r. row.now ≡ local_rule_cells r)) }
    ensures fits { IfOk result (λ found. IfSome found IsLocalRuleRow) }
{
    let Some(number) = count_at(row, 0) else {
        return Ok(None);
    };
    let Some(name) = text_at(row, 1) else {
        return Ok(None);
    };
    let Some(days) = count_at(row, 2) else {
        return Ok(None);
    };
    let Some(direction) = direction_at(row, 3) else {
        return Ok(None);
    };
    let Some(three) = flag_at(row, 4) else {
        return Ok(None);
    };
    let Some(extendable) = flag_at(row, 5) else {
        return Ok(None);
    };
    let rule = LocalRule {
        name: Text::from_str(alloc, name)?,
        days,
        direction,
        three,
        extendable,
    };
    let found = LocalRuleRow { number, rule };
    if has_values(row, &local_rule_values(&found)) {
        Ok(Some(found))
    } else {
        Ok(None)
    }
}

/// Reads the local name in the column of names, whatever else the row has. `None`: there is none.
pub fn local_name_of(row: &Row) -> Option<&str>
    ensures { option_copied result ≡ local_name_in row.now }
{
    let name = text_at(row, 1)?;
    if is_local_name(name) {
        Some(name)
    } else {
        None
    }
}

impl StoredRow for LocalRuleRow {
    ghost use Rattle.docket_columns.specs.Cells.{local_rule_cells};
    ghost use Rattle.docket_columns.specs.Fits.{IsLocalRuleRow};

    ghost cells = { local_rule_cells };

    ghost Is = { IsLocalRuleRow };

    fn read(alloc: Global, row: &Row) -> Result<Option<LocalRuleRow>, AllocError> {
        local_rule_of(alloc, row)
    }
}
