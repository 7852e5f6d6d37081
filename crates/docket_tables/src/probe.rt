//! Distinguishing out of memory from a failure of the database.
ghost use Rattle.std.specs.Prelude.{◌≡◌, ◌≢◌, false, IsTrue};
ghost use Rattle.sqlite.specs.Held.{state};
ghost use Rattle.sqlite.specs.State.{Survives};
ghost use Rattle.sqlite.specs.declared.error.Error.TheVariants.{SqliteFailure};
ghost use Rattle.sqlite.specs.declared.error.ErrorCode.TheVariants.{OutOfMemory};
ghost use Rattle.docket_tables.specs.declared.fault.StoreFault.TheVariants.{NoMemory, StoreFailed};
ghost use Rattle.docket_tables.specs.Layouts.{Rows};
ghost use Rattle.docket_tables.specs.Stands.{HoldsRows, LastsAsEither, Leaves};

use crate::fault::StoreFault;
use sqlite::{Alter, Connection, Error, ErrorCode};

/// Whether the store still answers. The empty statement is only prepared, so nothing is written.
fn is_alive<S: Alter>(conn: &mut Connection<S>) -> bool
    requires { conn.old.in_transaction ≡ false }
    ensures idle { conn.new.in_transaction ≡ false }
    ensures writes_nothing { Survives (state S.Store conn.old) (state S.Store conn.new) (λ _. ⊥) }
    ensures either { (rows next : Rows) → LastsAsEither S.Store conn.old rows next → LastsAsEither S.Store conn.new rows next }
    ensures alive { (rows next : Rows) → LastsAsEither S.Store conn.old rows next → IsTrue result → HoldsRows S.Store conn.new rows }
{
    conn.prepare("").is_ok()
}

/// Returns the fault for an error of a question or of a write. It is out of memory if the store still answers
/// and the rows are as they were, else a failure of the database. Nothing is written.
pub fn fault_of<S: Alter>(conn: &mut Connection<S>, error: Error) -> StoreFault
    requires { conn.old.in_transaction ≡ false }
    ensures idle { conn.new.in_transaction ≡ false }
    ensures writes_nothing { Survives (state S.Store conn.old) (state S.Store conn.new) (λ _. ⊥) }
    ensures other { error ≢ SqliteFailure OutOfMemory → result ≡ StoreFailed }
    ensures memory { result ≡ NoMemory → error ≡ SqliteFailure OutOfMemory }
    ensures left { (rows next : Rows) → LastsAsEither S.Store conn.old rows next → Leaves S.Store conn.new rows next result }
{
    if error != Error::SqliteFailure(ErrorCode::OutOfMemory) {
        return StoreFault::StoreFailed;
    }
    if is_alive(conn) {
        StoreFault::NoMemory
    } else {
        StoreFault::StoreFailed
    }
}
