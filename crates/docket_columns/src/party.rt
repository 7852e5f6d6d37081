//! Rows of the table of parties.
ghost use Rattle.std.specs.Prelude.{◌≡◌, pos, Some, IfOk, IfSome};
ghost use Rattle.sqlite.specs.Values.{bound};
ghost use Rattle.sqlite_value.specs.Order.{column};
ghost use Rattle.sqlite_value.specs.declared.value.Value.TheVariants.{Int};
ghost use Rattle.docket_command.specs.declared.choice.Role.{Role as Choice};
ghost use Rattle.docket_history.specs.declared.row.PartyRow.{PartyRow as Party};
ghost use Rattle.docket_columns.specs.Codes.{role_number};
ghost use Rattle.docket_columns.specs.Cells.{party_cells};
ghost use Rattle.docket_columns.specs.Fits.{IsPartyRow};

use crate::cell::{count_at, has_values, text_at};
use crate::codes::{role_number, role_of};
use crate::stored::StoredRow;
use docket_command::{Role, Text};
use docket_history::PartyRow;
use sqlite::Row;
use sqlite::types::{ToSql, ValueRef};
use std::alloc::{AllocError, Global};

/// The columns of a party: case_no, number, name, role.
pub fn party_values(row: &PartyRow) -> [ValueRef<'_>; 4]
    ensures { bound result ≡ party_cells row.now }
{
    [
        row.case.to_sql(),
        row.number.to_sql(),
        row.name.as_str().to_sql(),
        role_number(row.role).to_sql(),
    ]
}

/// The role in a column.
fn role_at(row: &Row, at: usize) -> Option<Role>
    ensures { (role : Choice) → column row.now at ≡ Int (pos (role_number role)) → result ≡ Some role }
{
    role_of(count_at(row, at)?)
}

/// Reads the party of a row. `None`: it is not a row of a party.
pub fn party_of(alloc: Global, row: &Row) -> Result<Option<PartyRow>, AllocError>
    ensures reads { (p : Party) → IsPartyRow p → row.now ≡ party_cells p → IfOk result (λ found. found ≡ Some p) }
    ensures sound { IfOk result (λ found. IfSome found (λ p. row.now ≡ party_cells p)) }
    ensures fits { IfOk result (λ found. IfSome found IsPartyRow) }
{
    let Some(case) = count_at(row, 0) else {
        return Ok(None);
    };
    let Some(number) = count_at(row, 1) else {
        return Ok(None);
    };
    let Some(name) = text_at(row, 2) else {
        return Ok(None);
    };
    let Some(role) = role_at(row, 3) else {
        return Ok(None);
    };
    let found = PartyRow {
        case,
        number,
        name: Text::from_str(alloc, name)?,
        role,
    };
    if has_values(row, &party_values(&found)) {
        Ok(Some(found))
    } else {
        Ok(None)
    }
}

impl StoredRow for PartyRow {
    ghost use Rattle.docket_columns.specs.Cells.{party_cells};
    ghost use Rattle.docket_columns.specs.Fits.{IsPartyRow};

    ghost cells = { party_cells };

    ghost Is = { IsPartyRow };

    fn read(alloc: Global, row: &Row) -> Result<Option<PartyRow>, AllocError> {
        party_of(alloc, row)
    }
}
