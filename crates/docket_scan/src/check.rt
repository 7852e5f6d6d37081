//! Checks that take the records of a table one after another.
ghost use Rattle.std.specs.Prelude.{◌≡◌, ◌++◌, ◌∷◌, [], List, Ok, true, false};

use docket_columns::StoredRow;
use std::alloc::{AllocError, Global};

/// A check that takes the records of a table, in the order of its key.
pub(crate) trait RecordCheck: Drop {
    ghost use Rattle.std.specs.Prelude.{List};

    /// A row of the table.
    type Record: StoredRow;

    // The check took these records: they are those of a sound table, so far.
    ghost HasTaken: { Self → List Self.Record → Type 0 };

    // What the table refers to, as contracts see it.
    ghost Context: { Type 0 };

    // What this check's table refers to.
    ghost context: { Self → Context };

    // The records are those of a sound table.
    ghost AreSound: { Context → List Self.Record → Type 0 };

    /// Takes the next record. `false`: this record makes the table unsound, whatever records follow.
    fn take(&mut self, alloc: Global, next: &Self::Record) -> Result<bool, AllocError>
        ensures taken { (before : List Self.Record) → HasTaken self.old before → result ≡ Ok true → HasTaken self.new (before ++ next.now ∷ []) }
        ensures refused { (before more : List Self.Record) → HasTaken self.old before → result ≡ Ok false → AreSound (context self.old) (before ++ next.now ∷ more) → ⊥ }
        ensures same { context self.new ≡ context self.old };
}
