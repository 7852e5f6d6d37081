//! The table of parties.
ghost use Rattle.std.specs.Prelude.{◌≡◌, ◌++◌, ◌∷◌, [], List, true, false, IfOk};
ghost use Rattle.docket_history.specs.declared.row.PartyRow.{PartyRow as Party};
ghost use Rattle.docket_sound.specs.Parties.{is_sound_party, party_key, AreSoundParties, HasTakenParties, parties_checked};

use crate::numbering::{Key, Numbering};
use docket_history::PartyRow;
use docket_values::is_text;
use std::alloc::{AllocError, Global};

/// How many parties a case has at most.
const MOST_PARTIES: u32 = 1000;

/// Whether the values of the party are within their limits.
fn is_sound_party(row: &PartyRow) -> bool
    ensures { result ≡ is_sound_party row.now }
{
    is_text(100, &row.name)
}

fn party_key(row: &PartyRow) -> Key
    ensures { result ≡ party_key row.now }
{
    Key {
        case: row.case,
        number: row.number,
    }
}

/// The check of the parties of so many cases.
#[derive(Drop)]
pub struct PartyCheck {
    pub(crate) numbering: Numbering,
}

impl PartyCheck {
    pub fn new(alloc: Global, cases: u32) -> Result<PartyCheck, AllocError>
        ensures none { IfOk result (λ check. HasTakenParties check []) }
        ensures cases { IfOk result (λ check. parties_checked check ≡ cases) }
    {
        Ok(PartyCheck {
            numbering: Numbering::new(alloc, cases, MOST_PARTIES)?,
        })
    }

    /// Takes the next row, unless the table is unsound by it.
    pub fn take(&mut self, row: &PartyRow) -> bool
        ensures taken { (rows : List Party) → HasTakenParties self.old rows → result ≡ true
            → HasTakenParties self.new (rows ++ row.now ∷ []) }
        ensures refused { (rows more : List Party) → HasTakenParties self.old rows → result ≡ false
            → AreSoundParties (parties_checked self.old) (rows ++ row.now ∷ more) → ⊥ }
        ensures cases { parties_checked self.new ≡ parties_checked self.old }
    {
        is_sound_party(row) && self.numbering.take(party_key(row))
    }

    /// How many parties each case has.
    pub fn counts(self) -> Numbering
        ensures { result ≡ self.numbering }
    {
        self.numbering
    }
}
