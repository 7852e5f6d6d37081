//! Commands on motions under Fed. R. Civ. P. 12 and on what follows them.
ghost use Rattle.std.specs.Prelude.{◌≡◌};
ghost use Rattle.docket_command.specs.Sameness.{is_same_action};
ghost use Rattle.docket_command.specs.declared.command.Action.TheVariants as action;

use crate::choice::{Ruling, ServiceMethod};
use civil_time::Day;
use court_rules::MotionKind;

/// A motion suspends a deadline (Fed. R. Civ. P. 12(a)(4)).
#[derive(Clone, Copy, PartialEq)]
pub struct RuleMotion {
    pub case: u32,
    pub deadline: u32,
    pub kind: MotionKind,
    pub served: Day,
}

impl RuleMotion {
    #[tactic(auto, unfolding(crate::specs::Sameness::is_same_action))]
    pub(crate) fn same(&self, other: &RuleMotion) -> bool
        ensures { result ≡ is_same_action (action.RuleMotion self.now) (action.RuleMotion other.now) }
    {
        *self == *other
    }
}

/// The court rules on the motion that suspends a deadline (Fed. R. Civ. P. 12(a)(4), 12(e)).
#[derive(Clone, Copy, PartialEq)]
pub struct Dispose {
    pub case: u32,
    pub deadline: u32,
    pub outcome: Ruling,
    /// The day of the notice of the court's action.
    pub notice: Day,
    /// Who is to make the more definite statement.
    pub party: Option<u32>,
    /// The day that the court sets.
    pub due: Option<Day>,
}

impl Dispose {
    #[tactic(auto, unfolding(crate::specs::Sameness::is_same_action))]
    pub(crate) fn same(&self, other: &Dispose) -> bool
        ensures { result ≡ is_same_action (action.Dispose self.now) (action.Dispose other.now) }
    {
        *self == *other
    }
}

/// The more definite statement is served (Fed. R. Civ. P. 12(a)(4)(B)).
#[derive(Clone, Copy, PartialEq)]
pub struct StatementServed {
    pub case: u32,
    pub deadline: u32,
    pub served: Day,
    pub method: ServiceMethod,
}

impl StatementServed {
    #[tactic(auto, unfolding(crate::specs::Sameness::is_same_action))]
    pub(crate) fn same(&self, other: &StatementServed) -> bool
        ensures { result ≡ is_same_action (action.StatementServed self.now) (action.StatementServed other.now) }
    {
        *self == *other
    }
}
