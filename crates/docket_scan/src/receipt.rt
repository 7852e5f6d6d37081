//! Rows of the table of receipts, whatever their bodies are.
ghost use Rattle.std.specs.Prelude.{◌≡◌, Some, IfOk, IfSome};
ghost use Rattle.docket_scan.specs.Records.{IsStoredReceipt, receipt_cells};
ghost use Rattle.docket_scan.specs.declared.receipt.StoredReceipt.{StoredReceipt as Stored};

use docket_columns::{StoredRow, reply_of, text_at};
use docket_command::{Reply, Text};
use docket_sound::ReceiptRecord;
use sqlite::Row;
use std::alloc::{AllocError, Global};

/// A receipt, and the reply of its command.
#[derive(Drop)]
pub struct StoredReceipt {
    pub receipt: ReceiptRecord,
    pub reply: Reply,
}

/// Reads the receipt of a row. `None`: it is not a row of a receipt.
fn receipt_of(alloc: Global, row: &Row) -> Result<Option<StoredReceipt>, AllocError>
    ensures reads { (r : Stored) → IsStoredReceipt r → row.now ≡ receipt_cells r → IfOk result (λ found. found ≡ Some r) }
    ensures sound { IfOk result (λ found. IfSome found (λ r. row.now ≡ receipt_cells r)) }
    ensures fits { IfOk result (λ found. IfSome found IsStoredReceipt) }
{
    let Some(reply) = reply_of(row) else {
        return Ok(None);
    };
    let Some(key) = text_at(row, 0) else {
        return Ok(None);
    };
    let Some(body) = text_at(row, 1) else {
        return Ok(None);
    };
    Ok(Some(StoredReceipt {
        receipt: ReceiptRecord {
            key: Text::from_str(alloc, key)?,
            body: Text::from_str(alloc, body)?,
        },
        reply,
    }))
}

impl StoredRow for StoredReceipt {
    ghost use Rattle.docket_scan.specs.Records.{IsStoredReceipt, receipt_cells};

    ghost cells = { receipt_cells };

    ghost Is = { IsStoredReceipt };

    fn read(alloc: Global, row: &Row) -> Result<Option<StoredReceipt>, AllocError> {
        receipt_of(alloc, row)
    }
}
