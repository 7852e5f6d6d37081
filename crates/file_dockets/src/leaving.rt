//! Letting the files of a database go.
ghost use Rattle.std.specs.Prelude.{◌≡◌, IfErr};
ghost use Rattle.sqlite.specs.Files.{IsCleanLeft, over_files};
ghost use Rattle.sqlite.specs.Held.{state};
ghost use Rattle.sqlite.specs.State.{HasCleanDisk};
ghost use Rattle.docket_tables.specs.Layouts.{Rows};
ghost use Rattle.file_dockets.specs.Keeping.{HoldsBetween};
ghost use Rattle.docket_store.specs.Left.{Leaves, LeavesRows};

use crate::ended::{Ended, Worked};
use sqlite::{Connection, FileStore, Leftover};
use sqlite_disk::Disk;

/// Copies the log into the database file, and lets both go. Where that fails the log keeps its content.
fn close<D: Disk + Drop>(conn: Connection<FileStore<D>>) -> Leftover<D>
    ensures trust { IsCleanLeft result → HasCleanDisk (state over_files conn) }
    ensures left { (rows next : Rows) → HoldsBetween over_files conn rows next → IsCleanLeft result → LeavesRows result rows next }
{
    match conn.close_files() {
        Ok(files) => Leftover::Files(files),
        Err((_, store)) => Leftover::Store(store),
    }
}

/// Lets the files go as they are.
fn release<D: Disk + Drop>(conn: Connection<FileStore<D>>) -> Leftover<D>
    ensures trust { IsCleanLeft result → HasCleanDisk (state over_files conn) }
    ensures images { Leaves result (state over_files conn).may_leave }
    ensures left { (rows next : Rows) → HoldsBetween over_files conn rows next → IsCleanLeft result → LeavesRows result rows next }
{
    Leftover::Store(conn.into_store())
}

/// Lets the files of a database go, and copies its log where there is a docket.
pub fn leave<D: Disk + Drop, T, F>(worked: Worked<FileStore<D>, T, F>) -> Ended<D, T, F>
    ensures outcome { result.outcome ≡ worked.outcome }
    ensures failure { result.failure ≡ worked.failure }
    ensures trust { IsCleanLeft result.left → HasCleanDisk (state over_files worked.connection) }
    ensures left { (rows next : Rows) → HoldsBetween over_files worked.connection rows next → IsCleanLeft result.left → LeavesRows result.left rows next }
    ensures images { IfErr worked.outcome (λ _. Leaves result.left (state over_files worked.connection).may_leave) }
{
    let Worked {
        outcome,
        failure,
        connection,
    } = worked;
    match outcome {
        Ok(done) => Ended {
            outcome: Ok(done),
            failure,
            left: close(connection),
        },
        Err(fault) => Ended {
            outcome: Err(fault),
            failure,
            left: release(connection),
        },
    }
}
