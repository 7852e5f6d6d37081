//! Reading a table row by row.
ghost use Rattle.std.specs.Prelude.{◌≡◌, [], false, IfErr};
ghost use Rattle.sqlite.specs.Held.{state};
ghost use Rattle.sqlite.specs.State.{HasCleanDisk, Survives};
ghost use Rattle.docket_scan.specs.Causes.{IsCausedError};
ghost use Rattle.docket_scan.specs.Scans.{Scanned};

use crate::taker::Taker;
use crate::watch::Watch;
use docket_tables::{Table, scan_text};
use sqlite::{Alter, Connection, Error, ErrorCode};
use std::alloc::Global;

/// Reads the table row by row, and reports each row to `watch`. Returns how many rows it has, if the check
/// took them all; `None`: it refused one. More rows than a number counts are reported as out of memory.
pub(crate) fn scan<S: Alter, C: Taker, W: Watch>(
    conn: &mut Connection<S>,
    alloc: Global,
    table: Table,
    check: &mut C,
    watch: &mut W,
) -> Result<Option<u64>, Error>
    ensures writes_nothing { Survives (state S.Store conn.old) (state S.Store conn.new) (λ _. ⊥) }
    ensures mode { conn.old.in_transaction ≡ false → conn.new.in_transaction ≡ false }
    ensures told { HasCleanDisk (state S.Store conn.new) → C.HasTaken check.old []
        → Scanned table (state S.Store conn.old) (state S.Store conn.new) (C.HasTaken check.new) (C.IsSound (C.context check.old)) result }
    ensures cause { HasCleanDisk (state S.Store conn.new) → IfErr result (IsCausedError (state S.Store conn.old) (state S.Store conn.new)) }
    ensures context { C.context check.new ≡ C.context check.old }
{
    let mut rows = conn.query(scan_text(table), &[])?;
    'rows: for count in 0..u64::MAX {
        let Some(row) = rows.next()? else {
            return Ok(Some(count));
        };
        if !check.take(alloc, row)? {
            return Ok(None);
        }
        watch.on_row();
    }
    // There is no number left to count them.
    Err(Error::SqliteFailure(ErrorCode::OutOfMemory))
}
