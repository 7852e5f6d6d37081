//! Rows of the table of receipts.
ghost use Rattle.std.specs.Prelude.{◌≡◌, ℕ, List, Some, IfSome, option_copied};
ghost use Rattle.sqlite.specs.Values.{bound};
ghost use Rattle.sqlite_value.specs.Order.{column};
ghost use Rattle.sqlite_value.specs.declared.value.Value.TheVariants.{Text};
ghost use Rattle.docket_command.specs.declared.command.Command.{Command as Asked};
ghost use Rattle.docket_history.specs.declared.row.Receipt.{Receipt};
ghost use Rattle.docket_decisions.specs.Outcomes.{kept_by as kept_by_receipt, replied};
ghost use Rattle.docket_wire.specs.Valid.{IsCommand};
ghost use Rattle.docket_wire.specs.Writing.{canonical};
ghost use Rattle.docket_columns.specs.Cells.{stored_cells, receipt_cells, kept_as};
ghost use Rattle.docket_columns.specs.Fits.{IsCount, IsReceipt};

use crate::cell::{bytes_at, count_at, has_values};
use docket_command::{Command, Reply};
use docket_history::Kept;
use sqlite::Row;
use sqlite::types::{ToSql, ValueRef};

/// The columns of a receipt: command_key, body, reply. The body must be the canonical text of the command.
pub fn receipt_values<'a>(command: &'a Command, body: &'a str, reply: Reply) -> [ValueRef<'a>; 3]
    ensures stored { bound result ≡ stored_cells command.now.key body.now reply.number }
    ensures receipt { body.now ≡ canonical command.now
        → bound result ≡ receipt_cells (record { command = command.now; reply = reply }) }
{
    [
        command.key.as_str().to_sql(),
        body.to_sql(),
        reply.number.to_sql(),
    ]
}

/// Reads the reply of a row. `None`: it is not a row of a receipt.
pub fn reply_of(row: &Row) -> Option<Reply>
    ensures reads { (key body : List ℕ) (reply : ℕ) → IsCount reply → row.now ≡ stored_cells key body reply
        → result ≡ Some (replied reply) }
    ensures sound { IfSome result (λ reply. (key body : List ℕ) × (row.now ≡ stored_cells key body reply.number)) }
{
    let key = bytes_at(row, 0)?;
    let body = bytes_at(row, 1)?;
    let number = count_at(row, 2)?;
    if has_values(
        row,
        &[ValueRef::Text(key), ValueRef::Text(body), number.to_sql()],
    ) {
        Some(Reply { number })
    } else {
        None
    }
}

fn kept_as(stored: &[u8], reply: Reply, body: &str) -> Kept
    ensures { result ≡ kept_as stored.now reply.number body.now }
{
    if stored == body.as_bytes() {
        Kept::Same(reply)
    } else {
        Kept::Other
    }
}

/// Reads what is kept under the key of the row, for a command with this canonical text. `None`: it is not a
/// row of a receipt.
pub fn kept_by(row: &Row, body: &str) -> Option<Kept>
    ensures stored { (key stored : List ℕ) (reply : ℕ) → IsCount reply → row.now ≡ stored_cells key stored reply
        → result ≡ Some (kept_as stored reply body.now) }
    ensures kept { (r : Receipt) (c : Asked) → IsReceipt r → IsCommand c → body.now ≡ canonical c → row.now ≡ receipt_cells r
        → result ≡ Some (kept_by_receipt (Some r) c) }
    ensures sound { IfSome result (λ kept. (key stored : List ℕ) × (reply : ℕ) × (row.now ≡ stored_cells key stored reply)
        × (kept ≡ kept_as stored reply body.now)) }
{
    let reply = reply_of(row)?;
    let stored = bytes_at(row, 1)?;
    Some(kept_as(stored, reply, body))
}
