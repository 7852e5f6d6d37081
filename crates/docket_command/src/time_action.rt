//! Commands that set times, extend them and end them.
ghost use Rattle.std.specs.Prelude.{◌≡◌};
ghost use Rattle.docket_command.specs.Sameness.{is_same_action};
ghost use Rattle.docket_command.specs.declared.command.Action.TheVariants as action;

use crate::choice::{PeriodUnit, ServiceMethod};
use crate::moment::Moment;
use crate::same::{
    is_same_day, is_same_direction, is_same_method, is_same_moment, is_same_number, is_same_word,
};
use civil_time::Day;
use court_rules::{Direction, Way};

/// A hearing is noticed (Fed. R. Civ. P. 6(c)).
#[derive(Clone, Copy, PartialEq)]
pub struct NoticeHearing {
    pub case: u32,
    /// Who moves.
    pub party: u32,
    /// Who opposes the motion.
    pub opponent: u32,
    pub hearing: Day,
}

impl NoticeHearing {
    #[tactic(auto, unfolding(crate::specs::Sameness::is_same_action))]
    pub(crate) fn same(&self, other: &NoticeHearing) -> bool
        ensures { result ≡ is_same_action (action.NoticeHearing self.now) (action.NoticeHearing other.now) }
    {
        *self == *other
    }
}

/// The court orders a period or sets a day (Fed. R. Civ. P. 6(a)).
#[derive(Clone, Copy, PartialEq)]
pub struct OrderPeriod {
    pub case: u32,
    /// Whose time it is, 0 for every party's.
    pub party: u32,
    pub unit: PeriodUnit,
    /// The day of the event, for days and months.
    pub start: Option<Day>,
    /// The moment of the event, for hours.
    pub at: Option<Moment>,
    pub count: Option<u32>,
    pub direction: Option<Direction>,
    /// How the paper was served from which the period runs.
    pub method: Option<ServiceMethod>,
    /// The fixed day.
    pub until: Option<Day>,
}

impl OrderPeriod {
    #[tactic(auto, unfolding(crate::specs::Sameness::is_same_action))]
    pub(crate) fn same(&self, other: &OrderPeriod) -> bool
        ensures { result ≡ is_same_action (action.OrderPeriod self.now) (action.OrderPeriod other.now) }
    {
        self.case == other.case
            && self.party == other.party
            && is_same_word(self.unit, other.unit)
            && is_same_day(self.start, other.start)
            && is_same_moment(self.at, other.at)
            && is_same_number(self.count, other.count)
            && is_same_direction(self.direction, other.direction)
            && is_same_method(self.method, other.method)
            && is_same_day(self.until, other.until)
    }
}

/// Judgment is entered (Fed. R. Civ. P. 50, 52, 59 and 60).
#[derive(Clone, Copy, PartialEq)]
pub struct EnterJudgment {
    pub case: u32,
    pub entered: Day,
    /// The day of the jury's discharge, for a jury issue that no verdict decided (Fed. R. Civ. P. 50(b)).
    pub discharged: Option<Day>,
}

impl EnterJudgment {
    #[tactic(auto, unfolding(crate::specs::Sameness::is_same_action))]
    pub(crate) fn same(&self, other: &EnterJudgment) -> bool
        ensures { result ≡ is_same_action (action.EnterJudgment self.now) (action.EnterJudgment other.now) }
    {
        *self == *other
    }
}

/// The court extends a time, by days or until a day (Fed. R. Civ. P. 6(b)).
#[derive(Clone, Copy, PartialEq)]
pub struct Extend {
    pub case: u32,
    pub deadline: u32,
    /// The moment of the court's act, or of an earlier request.
    pub at: Moment,
    /// Whether the party failed to act because of excusable neglect.
    pub neglect: bool,
    pub days: Option<u32>,
    pub until: Option<Day>,
}

impl Extend {
    #[tactic(auto, unfolding(crate::specs::Sameness::is_same_action))]
    pub(crate) fn same(&self, other: &Extend) -> bool
        ensures { result ≡ is_same_action (action.Extend self.now) (action.Extend other.now) }
    {
        *self == *other
    }
}

/// What a deadline asks for is filed.
#[derive(Clone, Copy, PartialEq)]
pub struct Satisfy {
    pub case: u32,
    pub deadline: u32,
    pub at: Moment,
    pub way: Way,
}

impl Satisfy {
    #[tactic(auto, unfolding(crate::specs::Sameness::is_same_action))]
    pub(crate) fn same(&self, other: &Satisfy) -> bool
        ensures { result ≡ is_same_action (action.Satisfy self.now) (action.Satisfy other.now) }
    {
        *self == *other
    }
}

/// A deadline is vacated.
#[derive(Clone, Copy, PartialEq)]
pub struct Vacate {
    pub case: u32,
    pub deadline: u32,
}

impl Vacate {
    #[tactic(auto, unfolding(crate::specs::Sameness::is_same_action))]
    pub(crate) fn same(&self, other: &Vacate) -> bool
        ensures { result ≡ is_same_action (action.Vacate self.now) (action.Vacate other.now) }
    {
        *self == *other
    }
}
