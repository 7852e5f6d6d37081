//! What a command chooses among, where the rules of counting have no type for it.
use court_rules::{DayKind, Method};

/// Who declared a legal holiday: the President or Congress (Fed. R. Civ. P. 6(a)(6)(B)), or the state
/// (6(a)(6)(C)).
#[derive(Clone, Copy, PartialEq, Eq)]
pub enum Sovereign {
    Federal,
    State,
}

/// What a party is in its case.
#[derive(Clone, Copy, PartialEq, Eq)]
pub enum Role {
    Plaintiff,
    Defendant,
    Other,
}

/// Why a party has the time that it has to answer: as a private party (Fed. R. Civ. P. 12(a)(1)), as
/// the United States, its agency, or its officer or employee sued only in an official capacity
/// (12(a)(2)), or as its officer or employee sued individually for acts in connection with duties
/// (12(a)(3)).
#[derive(Clone, Copy, PartialEq, Eq)]
pub enum Basis {
    Private,
    UnitedStates,
    Officer,
}

/// A pleading that is served on a party: a counterclaim or a crossclaim, which it is to answer (Fed.
/// R. Civ. P. 12(a)(1)(B)), or one to which no response is allowed (12(f)(2)).
#[derive(Clone, Copy, PartialEq, Eq)]
pub enum PleadingKind {
    Counterclaim,
    Crossclaim,
    Unanswered,
}

/// How the court rules on a motion that suspended a time (Fed. R. Civ. P. 12(a)(4)): it denies it,
/// postpones its disposition until trial, or orders a more definite statement.
#[derive(Clone, Copy, PartialEq, Eq)]
pub enum Ruling {
    Denied,
    Postponed,
    Statement,
}

/// How an ordered period is set: as a number of days, of months or of hours, or as a fixed day.
#[derive(Clone, Copy, PartialEq, Eq)]
pub enum PeriodUnit {
    Days,
    Months,
    Hours,
    Fixed,
}

/// How a paper after the summons is served: by one of the methods of Fed. R. Civ. P. 5(b)(2)(A) to
/// (F).
#[derive(Clone, Copy, PartialEq, Eq)]
pub enum ServiceMethod {
    /// Handed to the person.
    A,
    /// Left at the office or the home.
    B,
    /// Mailed.
    C,
    /// Left with the clerk.
    D,
    /// Sent electronically.
    E,
    /// Delivered by other means consented to.
    F,
}

impl From<Sovereign> for DayKind {
    ghost use Rattle.std.specs.Prelude.{◌≡◌};
    ghost use Rattle.docket_command.specs.Conversions.{day_kind_of};

    ghost from_gives = { λ sovereign kind. kind ≡ day_kind_of sovereign };

    fn from(sovereign: Sovereign) -> DayKind {
        match sovereign {
            Sovereign::Federal => DayKind::Federal,
            Sovereign::State => DayKind::State,
        }
    }
}

impl From<ServiceMethod> for Method {
    ghost use Rattle.std.specs.Prelude.{◌≡◌};
    ghost use Rattle.docket_command.specs.Conversions.{method_of};

    ghost from_gives = { λ served method. method ≡ method_of served };

    fn from(served: ServiceMethod) -> Method {
        match served {
            ServiceMethod::A => Method::A,
            ServiceMethod::B => Method::B,
            ServiceMethod::C => Method::C,
            ServiceMethod::D => Method::D,
            ServiceMethod::E => Method::E,
            ServiceMethod::F => Method::F,
        }
    }
}
