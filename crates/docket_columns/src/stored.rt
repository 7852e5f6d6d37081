//! What all rows of the docket's tables have in common.
ghost use Rattle.std.specs.Prelude.{◌≡◌, Some, IfOk, IfSome};

use sqlite::Row;
use std::alloc::{AllocError, Global};

/// A row of one of the docket's tables.
pub trait StoredRow: Drop {
    ghost use Rattle.sqlite_value.specs.Order.{Row as Cells};

    // The values of its columns, in order.
    ghost cells: { Self → Cells };

    // What its type holds.
    ghost Is: { Self → Type 0 };

    /// Reads a row of SQL. `None`: it is not a row of the table.
    fn read(alloc: Global, row: &Row) -> Result<Option<Self>, AllocError>
        ensures reads { (r : Self) → Is r → row.now ≡ cells r → IfOk result (λ found. found ≡ Some r) }
        ensures sound { IfOk result (λ found. IfSome found (λ r. row.now ≡ cells r)) }
        ensures fits { IfOk result (λ found. IfSome found Is) };
}
