//! The days of an import.
ghost use Rattle.std.specs.Prelude.{◌≡◌, IfOk};
ghost use Rattle.docket_command.specs.Sameness.{is_same_new_day, are_same_new_days};

use crate::same::is_same_word;
use civil_time::Day;
use court_rules::{DayKind, Text};
use std::alloc::{AllocError, Global};
use std::marker::Model;

/// A day to be entered in the court's calendar, with its name.
#[derive(Drop)]
pub struct NewDay {
    pub kind: DayKind,
    pub day: Day,
    pub name: Text,
}

/// Days to be entered, seen as the list of them.
#[derive(Drop)]
pub struct NewDays {
    days: Vec<NewDay>,
}

impl Model for NewDays {
    ghost use Rattle.std.specs.Prelude.{List};
    ghost use Rattle.docket_command.specs.declared.new_day.NewDay.{NewDay};

    ghost Value = { List NewDay };

    ghost view = { λ d. d.days.items };
}

impl Clone for NewDays {
    ghost use Rattle.std.specs.Prelude.{◌≡◌};

    ghost is_clone = { λ days copy. copy ≡ days };

    fn clone(&self) -> Result<NewDays, AllocError> {
        days_copied(*self.days.allocator(), self.as_slice())
    }
}

impl NewDays {
    /// Those days, in that order.
    pub fn new(days: Vec<NewDay>) -> NewDays
        ensures { result ≡ days.items }
    {
        NewDays { days }
    }

    /// The days, in their order.
    pub fn as_slice(&self) -> &[NewDay]
        ensures { result.now ≡ self.now }
    {
        self.days.as_slice()
    }

    pub(crate) fn same(&self, other: &NewDays) -> bool
        ensures { result ≡ are_same_new_days self.now other.now }
    {
        are_same_new_days(self.as_slice(), other.as_slice())
    }
}

impl NewDay {
    fn copied(&self) -> Result<NewDay, AllocError>
        ensures { IfOk result (λ copy. copy ≡ self.now) }
    {
        Ok(NewDay {
            kind: self.kind,
            day: self.day,
            name: self.name.copied()?,
        })
    }

    fn same(&self, other: &NewDay) -> bool
        ensures { result ≡ is_same_new_day self.now other.now }
    {
        is_same_word(self.kind, other.kind)
            && self.day.epoch_day() == other.day.epoch_day()
            && self.name.same(&other.name)
    }
}

fn days_copied(alloc: Global, days: &[NewDay]) -> Result<NewDays, AllocError>
    ensures { IfOk result (λ copy. copy ≡ days.now) }
{
    let mut copy = Vec::new(alloc);
    for day in days {
        copy.push(day.copied()?)?;
    }
    Ok(NewDays::new(copy))
}

fn are_same_new_days(a: &[NewDay], b: &[NewDay]) -> bool
    ensures { result ≡ are_same_new_days a.now b.now }
{
    if a.len() != b.len() {
        return false;
    }
    for i in 0..a.len() {
        if !a[i].same(&b[i]) {
            return false;
        }
    }
    true
}
