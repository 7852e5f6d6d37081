//! Commands that enter the court's own rules and set times by them.
ghost use Rattle.std.specs.Prelude.{◌≡◌};
ghost use Rattle.docket_command.specs.Sameness.{is_same_action};
ghost use Rattle.docket_command.specs.declared.command.Action.TheVariants as action;

use crate::choice::ServiceMethod;
use civil_time::Day;
use court_rules::{LocalRule, Text};

/// Whether they enter the same local rule.
#[tactic(auto, unfolding(crate::specs::Sameness::is_same_action))]
pub(crate) fn is_same_local_rule(rule: &LocalRule, other: &LocalRule) -> bool
    ensures { result ≡ is_same_action (action.LocalRule rule.now) (action.LocalRule other.now) }
{
    *rule == *other
}

/// A time runs by a local rule.
#[derive(Clone, PartialEq, Drop)]
pub struct LocalPeriod {
    pub case: u32,
    pub party: u32,
    /// The name of the local rule.
    pub rule: Text,
    /// The day of the event.
    pub start: Day,
    /// How the paper was served from which the period runs.
    pub method: Option<ServiceMethod>,
}

impl LocalPeriod {
    #[tactic(auto, unfolding(crate::specs::Sameness::is_same_action))]
    pub(crate) fn same(&self, other: &LocalPeriod) -> bool
        ensures { result ≡ is_same_action (action.LocalPeriod self.now) (action.LocalPeriod other.now) }
    {
        *self == *other
    }
}
