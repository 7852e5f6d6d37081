//! The table of cases.
ghost use Rattle.std.specs.Prelude.{◌≡◌, ◌++◌, ◌∷◌, [], List, Ok, length};
ghost use Rattle.docket_history.specs.declared.row.CaseRow.{CaseRow as Case};
ghost use Rattle.docket_sound.specs.Cases.{is_sound_case, AreSoundCases, HasTakenCases, may_follow};
ghost use Rattle.std.specs.Prelude.{true, false};

use crate::known_texts::KnownTexts;
use docket_history::CaseRow;
use docket_values::{is_entered, is_text, is_word};
use std::alloc::{AllocError, Global};

/// How many cases there are at most.
const MOST_CASES: u32 = 100_000;

/// Whether the values of the case are within their limits.
fn is_sound_case(row: &CaseRow) -> bool
    ensures { result ≡ is_sound_case row.now }
{
    is_word(40, &row.label) && is_text(200, &row.caption) && is_entered(row.filed)
}

/// The check of the cases. It keeps their labels.
#[derive(Drop)]
pub struct CaseCheck {
    pub(crate) count: u32,
    pub(crate) labels: KnownTexts,
}

impl CaseCheck {
    /// It takes no memory yet.
    pub fn new(alloc: Global) -> CaseCheck
        ensures { HasTakenCases result [] }
    {
        CaseCheck {
            count: 0,
            labels: KnownTexts::new(alloc),
        }
    }

    /// Whether the case may come next: it has the next number, there is room for it, and no case has
    /// its label.
    fn may_follow(&self, row: &CaseRow) -> bool
        ensures { result ≡ may_follow self.now row.now }
    {
        self.count < MOST_CASES
            && row.number == self.count + 1
            && is_sound_case(row)
            && !self.labels.has(&row.label)
    }

    /// Takes the next row, unless the table is unsound by it.
    pub fn take(&mut self, alloc: Global, row: &CaseRow) -> Result<bool, AllocError>
        ensures taken { (rows : List Case) → HasTakenCases self.old rows → result ≡ Ok true
            → HasTakenCases self.new (rows ++ row.now ∷ []) }
        ensures refused { (rows more : List Case) → HasTakenCases self.old rows → result ≡ Ok false
            → AreSoundCases (rows ++ row.now ∷ more) → ⊥ }
    {
        if !self.may_follow(row) {
            return Ok(false);
        }
        self.labels.put(alloc, row.label.as_str())?;
        self.count += 1;
        Ok(true)
    }

    /// How many cases there are.
    pub fn cases(&self) -> u32
        ensures { (rows : List Case) → HasTakenCases self.now rows → result ≡ length rows }
    {
        self.count
    }
}
