//! Commands on the court's calendar.
ghost use Rattle.std.specs.Prelude.{◌≡◌};
ghost use Rattle.docket_command.specs.Sameness.{is_same_action};
ghost use Rattle.docket_command.specs.declared.command.Action.TheVariants as action;

use crate::choice::Sovereign;
use crate::moment::Moment;
use crate::new_day::NewDays;
use crate::time_of_day::TimeOfDay;
use civil_time::Day;
use court_rules::Text;

/// A holiday is declared (Fed. R. Civ. P. 6(a)(6)(B) and (C)).
#[derive(Clone, PartialEq, Drop)]
pub struct DeclareDay {
    pub day: Day,
    pub kind: Sovereign,
    pub name: Text,
}

impl DeclareDay {
    #[tactic(auto, unfolding(crate::specs::Sameness::is_same_action))]
    pub(crate) fn same(&self, other: &DeclareDay) -> bool
        ensures { result ≡ is_same_action (action.DeclareDay self.now) (action.DeclareDay other.now) }
    {
        *self == *other
    }
}

/// The clerk's office is inaccessible on a day (Fed. R. Civ. P. 6(a)(3)).
#[derive(Clone, PartialEq, Drop)]
pub struct CloseDay {
    pub day: Day,
    pub name: Text,
}

impl CloseDay {
    #[tactic(auto, unfolding(crate::specs::Sameness::is_same_action))]
    pub(crate) fn same(&self, other: &CloseDay) -> bool
        ensures { result ≡ is_same_action (action.CloseDay self.now) (action.CloseDay other.now) }
    {
        *self == *other
    }
}

/// The clerk's office is inaccessible from `start` up to but not with `end`, which counts for periods
/// of hours (Fed. R. Civ. P. 6(a)(3)).
#[derive(Clone, Copy, PartialEq)]
pub struct CloseSpan {
    pub start: Moment,
    pub end: Moment,
}

impl CloseSpan {
    #[tactic(auto, unfolding(crate::specs::Sameness::is_same_action))]
    pub(crate) fn same(&self, other: &CloseSpan) -> bool
        ensures { result ≡ is_same_action (action.CloseSpan self.now) (action.CloseSpan other.now) }
    {
        *self == *other
    }
}

/// The clerk's office is scheduled to close earlier on a day, which counts for filings there (Fed. R.
/// Civ. P. 6(a)(4)(B)).
#[derive(Clone, PartialEq, Drop)]
pub struct ShortDay {
    pub day: Day,
    pub close: TimeOfDay,
    pub name: Text,
}

impl ShortDay {
    #[tactic(auto, unfolding(crate::specs::Sameness::is_same_action))]
    pub(crate) fn same(&self, other: &ShortDay) -> bool
        ensures { result ≡ is_same_action (action.ShortDay self.now) (action.ShortDay other.now) }
    {
        *self == *other
    }
}

/// A row of the calendar is taken back.
#[derive(Clone, Copy, PartialEq)]
pub struct WithdrawCalendar {
    pub row: u32,
}

impl WithdrawCalendar {
    #[tactic(auto, unfolding(crate::specs::Sameness::is_same_action))]
    pub(crate) fn same(&self, other: &WithdrawCalendar) -> bool
        ensures { result ≡ is_same_action (action.WithdrawCalendar self.now) (action.WithdrawCalendar other.now) }
    {
        *self == *other
    }
}

/// Days are entered together, but for those that are there already.
#[derive(Clone, Drop)]
pub struct ImportCalendar {
    pub rows: NewDays,
}

impl ImportCalendar {
    #[tactic(auto, unfolding(crate::specs::Sameness::is_same_action))]
    pub(crate) fn same(&self, other: &ImportCalendar) -> bool
        ensures { result ≡ is_same_action (action.ImportCalendar self.now) (action.ImportCalendar other.now) }
    {
        self.rows.same(&other.rows)
    }
}
