//! Commands on what is served on a party, each of which makes the deadline of its answer.
ghost use Rattle.std.specs.Prelude.{◌≡◌};
ghost use Rattle.docket_command.specs.Sameness.{is_same_action};
ghost use Rattle.docket_command.specs.declared.command.Action.TheVariants as action;

use crate::choice::{Basis, PleadingKind, ServiceMethod};
use crate::same::{is_same_day, is_same_method, is_same_word};
use civil_time::Day;

/// The summons and the complaint are served (Fed. R. Civ. P. 12(a)(1)(A)(i), 12(a)(2), 12(a)(3)).
#[derive(Clone, Copy, PartialEq)]
pub struct ServeSummons {
    pub case: u32,
    pub party: u32,
    pub basis: Basis,
    /// The day of service, for the United States that on the United States attorney.
    pub served: Day,
    /// The day of service on the United States attorney, where an officer is served too.
    pub attorney: Option<Day>,
}

impl ServeSummons {
    #[tactic(auto, unfolding(crate::specs::Sameness::is_same_action))]
    pub(crate) fn same(&self, other: &ServeSummons) -> bool
        ensures { result ≡ is_same_action (action.ServeSummons self.now) (action.ServeSummons other.now) }
    {
        *self == *other
    }
}

/// A party waives service (Fed. R. Civ. P. 4(d), 12(a)(1)(A)(ii)).
#[derive(Clone, Copy, PartialEq)]
pub struct FileWaiver {
    pub case: u32,
    pub party: u32,
    /// The day on which the request was sent.
    pub sent: Day,
    /// How many days the request allows for the waiver to come back.
    pub allowed: u32,
    /// The day on which the waiver came back.
    pub returned: Day,
    /// Whether the request was sent outside any judicial district of the United States.
    pub abroad: bool,
}

impl FileWaiver {
    #[tactic(auto, unfolding(crate::specs::Sameness::is_same_action))]
    pub(crate) fn same(&self, other: &FileWaiver) -> bool
        ensures { result ≡ is_same_action (action.FileWaiver self.now) (action.FileWaiver other.now) }
    {
        *self == *other
    }
}

/// A counterclaim, a crossclaim or a pleading to which no response is allowed is served (Fed. R. Civ.
/// P. 12(a)(1)(B), 12(a)(2), 12(a)(3), 12(f)(2)).
#[derive(Clone, Copy, PartialEq)]
pub struct ServePleading {
    pub case: u32,
    pub party: u32,
    pub kind: PleadingKind,
    pub basis: Basis,
    /// The day of service, for the United States that on the United States attorney.
    pub served: Day,
    pub method: ServiceMethod,
    /// The day of service on the United States attorney, where an officer is served too.
    pub attorney: Option<Day>,
    /// How the United States attorney was served.
    pub attorney_method: Option<ServiceMethod>,
}

impl ServePleading {
    #[tactic(auto, unfolding(crate::specs::Sameness::is_same_action))]
    pub(crate) fn same(&self, other: &ServePleading) -> bool
        ensures { result ≡ is_same_action (action.ServePleading self.now) (action.ServePleading other.now) }
    {
        self.case == other.case
            && self.party == other.party
            && is_same_word(self.kind, other.kind)
            && is_same_word(self.basis, other.basis)
            && self.served == other.served
            && is_same_word(self.method, other.method)
            && is_same_day(self.attorney, other.attorney)
            && is_same_method(self.attorney_method, other.attorney_method)
    }
}

/// An order to reply to an answer is served (Fed. R. Civ. P. 12(a)(1)(C)).
#[derive(Clone, Copy, PartialEq)]
pub struct OrderReply {
    pub case: u32,
    pub party: u32,
    pub served: Day,
    pub method: ServiceMethod,
    /// The day that the order sets.
    pub due: Option<Day>,
}

impl OrderReply {
    #[tactic(auto, unfolding(crate::specs::Sameness::is_same_action))]
    pub(crate) fn same(&self, other: &OrderReply) -> bool
        ensures { result ≡ is_same_action (action.OrderReply self.now) (action.OrderReply other.now) }
    {
        *self == *other
    }
}
