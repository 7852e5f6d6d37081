//! Why a docket gave no answer.
ghost use Rattle.std.specs.Prelude.{◌≡◌, ◌↔◌, false, true, Option, Some, Err, IfErr, is_some};
ghost use Rattle.sqlite.specs.Held.{state};
ghost use Rattle.sqlite.specs.State.{Survives};
ghost use Rattle.sqlite.specs.declared.error.Error.{Error as Failure};
ghost use Rattle.docket_tables.specs.Layouts.{Rows};
ghost use Rattle.docket_tables.specs.Readings.{Fails, StaysAt};
ghost use Rattle.docket_tables.specs.Stands.{Lasts, LastsAsEither};
ghost use Rattle.docket_applying.specs.AnyRows.{PreservesAt};
ghost use Rattle.docket_tables.specs.declared.fault.ReadFault.TheVariants.{Store};
ghost use Rattle.docket_applying.specs.Applying.{FailsAs};
ghost use Rattle.docket_applying.specs.Causes.{IsNamed};
ghost use Rattle.docket_applying.specs.declared.fault.Fault.TheVariants.{StoreFailed};

use docket_command::Refusal;
use docket_tables::{ReadFault, StoreFault, fault_of};
use sqlite::{Alter, Connection, Error};
use std::alloc::{AllocError, AllocFailed};
use std::fmt;

/// Why a command was not applied, or a question was not answered.
#[derive(Clone, Copy)]
pub enum Fault {
    /// The command is refused. Nothing is changed.
    Refused(Refusal),
    /// Nothing is changed.
    NoMemory,
    /// The database failed. A power failure leaves the docket without the command, or with it. From
    /// now on the docket is closed; its database may be opened and adopted anew.
    StoreFailed,
    /// The database failed before. Nothing was done.
    Closed,
    /// The tables are not those of a docket. Nothing is changed.
    Damaged,
}

impl From<AllocError> for Fault {
    ghost use Rattle.std.specs.Prelude.{◌≡◌};
    ghost use Rattle.docket_applying.specs.declared.fault.Fault.TheVariants.{NoMemory};

    ghost from_gives = { λ _ fault. fault ≡ NoMemory };

    fn from(_: AllocError) -> Fault {
        Fault::NoMemory
    }
}

impl<T: Drop> From<AllocFailed<T>> for Fault {
    ghost use Rattle.std.specs.Prelude.{◌≡◌};
    ghost use Rattle.docket_applying.specs.declared.fault.Fault.TheVariants.{NoMemory};

    ghost from_gives = { λ _ fault. fault ≡ NoMemory };

    fn from(_: AllocFailed<T>) -> Fault {
        Fault::NoMemory
    }
}

impl fmt::Display for Fault {
    fn fmt<W: fmt::Write>(&self, f: &mut fmt::Formatter<W>) -> fmt::Result {
        f.write_str(match self {
            Fault::Refused(_) => "the command is refused",
            Fault::NoMemory => "there is not enough memory",
            Fault::StoreFailed => "the database failed",
            Fault::Closed => "the docket is closed since its database failed",
            Fault::Damaged => "the database is not that of a docket",
        })
    }
}

/// Returns the fault for an error of the database, and stores the error as the last failure.
pub(crate) fn store_fault<S: Alter>(
    conn: &mut Connection<S>,
    error: Error,
    failure: &mut Option<Error>,
) -> Fault
    requires { conn.old.in_transaction ≡ false }
    ensures idle { conn.new.in_transaction ≡ false }
    ensures writes_nothing { Survives (state S.Store conn.old) (state S.Store conn.new) (λ _. ⊥) }
    ensures stays { (rows : Rows) → Lasts S.Store conn.old rows → PreservesAt S.Store conn.new rows result }
    ensures left { (rows next : Rows) → LastsAsEither S.Store conn.old rows next → FailsAs S.Store conn.new rows next result }
    ensures named { IsNamed failure.new result }
    ensures kept { failure.new ≡ Some error }
{
    *failure = Some(error);
    match fault_of(conn, error) {
        StoreFault::NoMemory => Fault::NoMemory,
        StoreFault::StoreFailed => Fault::StoreFailed,
    }
}

/// Returns the fault for a question that the tables did not answer. An error of the database is stored in
/// `failure`.
pub fn read_fault<S: Alter>(
    conn: &mut Connection<S>,
    fault: ReadFault,
    failure: &mut Option<Error>,
) -> Fault
    requires { conn.old.in_transaction ≡ false }
    ensures idle { conn.new.in_transaction ≡ false }
    ensures writes_nothing { Survives (state S.Store conn.old) (state S.Store conn.new) (λ _. ⊥) }
    ensures stays { (rows : Rows) → StaysAt S.Store conn.old rows fault → PreservesAt S.Store conn.new rows result }
    ensures left { (rows next : Rows) → Fails S.Store conn.old rows fault → FailsAs S.Store conn.new rows next result }
    ensures named { IsNamed failure.new result }
    ensures blames { result ≡ StoreFailed → (e : Failure) × (fault ≡ Store e) × (failure.new ≡ Some e) }
{
    match fault {
        ReadFault::Store(error) => store_fault(conn, error, failure),
        ReadFault::NoMemory => Fault::NoMemory,
        ReadFault::Damaged => Fault::Damaged,
    }
}

/// Whether the database failed.
fn is_store_failure<T>(answer: &Result<T, Fault>) -> bool
    ensures { (result ≡ true) ↔ (answer.now ≡ Err StoreFailed) }
{
    matches!(answer, Err(Fault::StoreFailed))
}

/// The error that closes the docket: the last failure, if the database failed.
pub fn closing_error<T>(answer: &Result<T, Fault>, failure: Option<Error>) -> Option<Error>
    requires { IfErr answer.now (IsNamed failure) }
    ensures fails { (is_some result ≡ true) ↔ (answer.now ≡ Err StoreFailed) }
    ensures kept { answer.now ≡ Err StoreFailed → result ≡ failure }
{
    if is_store_failure(answer) {
        return failure;
    }
    None
}
