//! The days on which the clerk's office is scheduled to close earlier, kept in ascending order, so that
//! a look-up is a binary search.
ghost use Rattle.std.specs.Prelude.{◌≡◌, false, IfOk, IfErr, OnOk, OnErr};
ghost use Rattle.std.specs.Ordering.{nat_cmp};
ghost use Rattle.std.specs.FinMap as map;
ghost use Rattle.court_days.specs.SortedClosings.{IsSortedByDay, IsAt, IsGapFor};

use civil_time::Day;
use std::alloc::{AllocFailed, Global};
use std::marker::Model;

/// Days in ascending order, each of them once, and the minute of each at which the office closes.
#[derive(Drop)]
pub(crate) struct ShortDays {
    closings: Vec<(Day, u32)>,
}

impl Model for ShortDays {
    ghost use Rattle.std.specs.Prelude.{ℕ};
    ghost use Rattle.std.specs.Ordering.{nat_cmp};
    ghost use Rattle.std.specs.FinMap as map;
    ghost use Rattle.std.specs.Coded.{coded_ℕ};
    ghost use Rattle.court_days.specs.SortedClosings.{IsSortedByDay};

    ghost Value = { map.FinMap nat_cmp ℕ };

    ghost coded = { map.code coded_ℕ coded_ℕ };

    ghost view = { λ s. map.from_entries s.closings.items };

    ghost invariant = { λ s. IsSortedByDay s.closings.items };
}

/// Where the day is, or where it would go.
fn place_of(closings: &[(Day, u32)], day: Day) -> Result<usize, usize>
    requires { IsSortedByDay closings.now }
    ensures found { IfOk result (IsAt closings.now day) }
    ensures absent { IfErr result (IsGapFor closings.now day) }
{
    closings.binary_search_by_key(&day, |closing| closing.0)
}

impl ShortDays {
    /// No days. It takes no memory yet.
    pub(crate) fn new(alloc: Global) -> Self
        ensures { result ≡ map.empty }
    {
        ShortDays {
            closings: Vec::new(alloc),
        }
    }

    /// How many days there are.
    pub(crate) fn len(&self) -> usize
        ensures { result ≡ map.len self.now }
    {
        self.closings.len()
    }

    /// The minute at which the office closes on the day, if the day is one of them.
    pub(crate) fn get(&self, day: Day) -> Option<u32>
        ensures { result ≡ map.get self.now day }
    {
        match place_of(&self.closings, day) {
            Ok(place) => Some(self.closings[place].1),
            Err(_) => None,
        }
    }

    /// Adds a day that is not one of them yet. After an error all is as it was.
    pub(crate) fn insert(&mut self, day: Day, minute: u32) -> Result<(), AllocFailed<(Day, u32)>>
        requires { map.contains_key self.old day ≡ false }
        ensures ok { OnOk result (self.new ≡ map.insert self.old day minute) }
        ensures err { OnErr result (self.new ≡ self.old) }
    {
        match place_of(&self.closings, day) {
            Ok(_) => unreachable!(),
            Err(place) => {
                self.closings.insert(place, (day, minute))?;
                Ok(())
            }
        }
    }
}
