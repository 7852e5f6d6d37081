//! Rows that are numbered from 1 without gaps, each within its case.
ghost use Rattle.std.specs.Prelude.{◌≡◌, ◌+◌, ◌++◌, ◌∷◌, [], List, true, false, IfOk, slice_get};
ghost use Rattle.docket_sound.specs.Numbers.{AreNumbered};
ghost use Rattle.docket_sound.specs.Counted.{HasNumbered, count_of, is_next, most_of, cases_of};
ghost use Rattle.docket_sound.specs.declared.numbering.Key.{Key as Place};

use std::alloc::{AllocError, Global};

/// The case of a row, and the number of the row in it.
#[derive(Clone, Copy)]
pub struct Key {
    pub case: u32,
    pub number: u32,
}

/// How many rows of each case were taken. Rows come numbered within their case, so the next number of
/// a case is one more.
#[derive(Drop)]
pub struct Numbering {
    pub(crate) most: u32,
    pub(crate) counts: Vec<u32>,
}

impl Numbering {
    /// No rows of so many cases, of which each may have so many rows.
    pub(crate) fn new(alloc: Global, cases: u32, most: u32) -> Result<Numbering, AllocError>
        ensures none { IfOk result (λ n. HasNumbered n []) }
        ensures cases { IfOk result (λ n. cases_of n ≡ cases) }
        ensures most { IfOk result (λ n. most_of n ≡ most) }
    {
        let counts = vec![in alloc; 0; cases as usize + 1]?;
        Ok(Numbering { most, counts })
    }

    /// No rows of no cases.
    pub fn none(alloc: Global) -> Result<Numbering, AllocError>
        ensures { IfOk result (λ n. HasNumbered n []) }
    {
        Numbering::new(alloc, 0, 0)
    }

    /// No rows of as many cases as another has, of which each may have so many rows.
    pub(crate) fn alike(
        alloc: Global,
        other: &Numbering,
        most: u32,
    ) -> Result<Numbering, AllocError>
        ensures none { (keys : List Place) → HasNumbered other.now keys → IfOk result (λ n. HasNumbered n []) }
        ensures cases { IfOk result (λ n. cases_of n ≡ cases_of other.now) }
        ensures most { IfOk result (λ n. most_of n ≡ most) }
    {
        let counts = vec![in alloc; 0; other.counts.len()]?;
        Ok(Numbering { most, counts })
    }

    /// How many rows of the case were taken. `None`: there is no such case.
    pub fn count(&self, case: u32) -> Option<u32>
        ensures { result ≡ count_of self.now case }
    {
        if case == 0 {
            return None;
        }
        self.counts.get(case as usize).copied()
    }

    /// Whether the row may come next: its number is the next in its case, which has room.
    fn is_next(&self, key: Key) -> bool
        ensures { result ≡ is_next self.now key }
    {
        match self.count(key.case) {
            Some(count) => count < self.most && key.number == count + 1,
            None => false,
        }
    }

    /// Takes a row, unless there is no such case, its number is not the next in its case, or its case would
    /// have too many rows.
    pub(crate) fn take(&mut self, key: Key) -> bool
        ensures taken { (keys : List Place) → HasNumbered self.old keys → result ≡ true
            → HasNumbered self.new (keys ++ key ∷ []) }
        ensures refused { (keys more : List Place) → HasNumbered self.old keys → result ≡ false
            → AreNumbered (cases_of self.old) (most_of self.old) (keys ++ key ∷ more) → ⊥ }
        ensures cases { cases_of self.new ≡ cases_of self.old }
        ensures most { most_of self.new ≡ most_of self.old }
    {
        if !self.is_next(key) {
            return false;
        }
        self.counts[key.case as usize] = key.number;
        true
    }
}
