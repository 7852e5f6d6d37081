//! The table of entries.
ghost use Rattle.std.specs.Prelude.{◌≡◌, ◌++◌, ◌∷◌, [], List, true, false, IfOk};
ghost use Rattle.docket_history.specs.declared.row.EntryRow.{EntryRow as Entry};
ghost use Rattle.docket_sound.specs.Entries.{is_sound_entry, entry_key, AreSoundEntries, HasTakenEntries, entries_checked};

use crate::numbering::{Key, Numbering};
use docket_history::EntryRow;
use docket_values::{is_entered, is_text};
use std::alloc::{AllocError, Global};

/// How many entries a case has at most.
const MOST_ENTRIES: u32 = 10_000;

/// Whether the values of the entry are within their limits.
fn is_sound_entry(row: &EntryRow) -> bool
    ensures { result ≡ is_sound_entry row.now }
{
    is_entered(row.day) && is_text(2000, &row.text)
}

fn entry_key(row: &EntryRow) -> Key
    ensures { result ≡ entry_key row.now }
{
    Key {
        case: row.case,
        number: row.number,
    }
}

/// The check of the entries of so many cases.
#[derive(Drop)]
pub struct EntryCheck {
    pub(crate) numbering: Numbering,
}

impl EntryCheck {
    pub fn new(alloc: Global, cases: u32) -> Result<EntryCheck, AllocError>
        ensures none { IfOk result (λ check. HasTakenEntries check []) }
        ensures cases { IfOk result (λ check. entries_checked check ≡ cases) }
    {
        Ok(EntryCheck {
            numbering: Numbering::new(alloc, cases, MOST_ENTRIES)?,
        })
    }

    /// Takes the next row, unless the table is unsound by it.
    pub fn take(&mut self, row: &EntryRow) -> bool
        ensures taken { (rows : List Entry) → HasTakenEntries self.old rows → result ≡ true
            → HasTakenEntries self.new (rows ++ row.now ∷ []) }
        ensures refused { (rows more : List Entry) → HasTakenEntries self.old rows → result ≡ false
            → AreSoundEntries (entries_checked self.old) (rows ++ row.now ∷ more) → ⊥ }
        ensures cases { entries_checked self.new ≡ entries_checked self.old }
    {
        is_sound_entry(row) && self.numbering.take(entry_key(row))
    }
}
