//! Words for the values of a type.
ghost use Rattle.std.specs.Prelude.{◌≡◌, List, ℕ, Option};
ghost use Rattle.docket_command.specs.Words.{named_in};

use crate::choice::{Basis, PeriodUnit, PleadingKind, Role, Ruling, ServiceMethod, Sovereign};
use court_rules::{DayKind, Direction, MotionKind, Way};

/// A type each of whose values has a word.
pub trait Word: Copy + 'static {
    // The word of a value.
    ghost word_of: { Self → List ℕ };

    // The value whose word it is.
    ghost named: { List ℕ → Option Self };

    /// The word of the value.
    fn word(self) -> &'static str
        ensures { result.now ≡ word_of self };

    /// All values.
    fn values() -> &'static [Self]
        ensures { (text : List ℕ) → named text ≡ named_in word_of result.now text };
}

/// The value among these that has the word.
fn value_among<W: Word>(values: &[W], text: &str) -> Option<W>
    ensures { result ≡ named_in W.word_of values.now text.now }
{
    values.iter().copied().find(|value| value.word() == text)
}

/// The value of that type that has the word. `None`: no value has it.
pub fn from_word<W: Word>(text: &str) -> Option<W>
    ensures { result ≡ W.named text.now }
{
    value_among(W::values(), text)
}

impl Word for Sovereign {
    ghost use Rattle.docket_command.specs.Words.{sovereign_word, sovereign_named};

    ghost word_of = { sovereign_word };

    ghost named = { sovereign_named };

    fn word(self) -> &'static str {
        match self {
            Sovereign::Federal => "federal",
            Sovereign::State => "state",
        }
    }

    fn values() -> &'static [Sovereign] {
        &[Sovereign::Federal, Sovereign::State]
    }
}

impl Word for DayKind {
    ghost use Rattle.docket_command.specs.Words.{day_kind_word, day_kind_named};

    ghost word_of = { day_kind_word };

    ghost named = { day_kind_named };

    fn word(self) -> &'static str {
        match self {
            DayKind::Federal => "federal",
            DayKind::State => "state",
            DayKind::Closed => "closed",
        }
    }

    fn values() -> &'static [DayKind] {
        &[DayKind::Federal, DayKind::State, DayKind::Closed]
    }
}

impl Word for Role {
    ghost use Rattle.docket_command.specs.Words.{role_word, role_named};

    ghost word_of = { role_word };

    ghost named = { role_named };

    fn word(self) -> &'static str {
        match self {
            Role::Plaintiff => "plaintiff",
            Role::Defendant => "defendant",
            Role::Other => "other",
        }
    }

    fn values() -> &'static [Role] {
        &[Role::Plaintiff, Role::Defendant, Role::Other]
    }
}

impl Word for Basis {
    ghost use Rattle.docket_command.specs.Words.{basis_word, basis_named};

    ghost word_of = { basis_word };

    ghost named = { basis_named };

    fn word(self) -> &'static str {
        match self {
            Basis::Private => "private",
            Basis::UnitedStates => "united_states",
            Basis::Officer => "officer",
        }
    }

    fn values() -> &'static [Basis] {
        &[Basis::Private, Basis::UnitedStates, Basis::Officer]
    }
}

impl Word for PleadingKind {
    ghost use Rattle.docket_command.specs.Words.{pleading_kind_word, pleading_kind_named};

    ghost word_of = { pleading_kind_word };

    ghost named = { pleading_kind_named };

    fn word(self) -> &'static str {
        match self {
            PleadingKind::Counterclaim => "counterclaim",
            PleadingKind::Crossclaim => "crossclaim",
            PleadingKind::Unanswered => "unanswered",
        }
    }

    fn values() -> &'static [PleadingKind] {
        &[
            PleadingKind::Counterclaim,
            PleadingKind::Crossclaim,
            PleadingKind::Unanswered,
        ]
    }
}

impl Word for Ruling {
    ghost use Rattle.docket_command.specs.Words.{ruling_word, ruling_named};

    ghost word_of = { ruling_word };

    ghost named = { ruling_named };

    fn word(self) -> &'static str {
        match self {
            Ruling::Denied => "denied",
            Ruling::Postponed => "postponed",
            Ruling::Statement => "statement",
        }
    }

    fn values() -> &'static [Ruling] {
        &[Ruling::Denied, Ruling::Postponed, Ruling::Statement]
    }
}

impl Word for PeriodUnit {
    ghost use Rattle.docket_command.specs.Words.{period_unit_word, period_unit_named};

    ghost word_of = { period_unit_word };

    ghost named = { period_unit_named };

    fn word(self) -> &'static str {
        match self {
            PeriodUnit::Days => "days",
            PeriodUnit::Months => "months",
            PeriodUnit::Hours => "hours",
            PeriodUnit::Fixed => "fixed",
        }
    }

    fn values() -> &'static [PeriodUnit] {
        &[
            PeriodUnit::Days,
            PeriodUnit::Months,
            PeriodUnit::Hours,
            PeriodUnit::Fixed,
        ]
    }
}

impl Word for Direction {
    ghost use Rattle.docket_command.specs.Words.{direction_word, direction_named};

    ghost word_of = { direction_word };

    ghost named = { direction_named };

    fn word(self) -> &'static str {
        match self {
            Direction::Forward => "forward",
            Direction::Backward => "backward",
        }
    }

    fn values() -> &'static [Direction] {
        &[Direction::Forward, Direction::Backward]
    }
}

impl Word for Way {
    ghost use Rattle.docket_command.specs.Words.{way_word, way_named};

    ghost word_of = { way_word };

    ghost named = { way_named };

    fn word(self) -> &'static str {
        match self {
            Way::Electronic => "electronic",
            Way::Office => "office",
        }
    }

    fn values() -> &'static [Way] {
        &[Way::Electronic, Way::Office]
    }
}

impl Word for MotionKind {
    ghost use Rattle.docket_command.specs.Words.{motion_kind_word, motion_kind_named};

    ghost word_of = { motion_kind_word };

    ghost named = { motion_kind_named };

    fn word(self) -> &'static str {
        match self {
            MotionKind::B => "b",
            MotionKind::E => "e",
            MotionKind::F => "f",
        }
    }

    fn values() -> &'static [MotionKind] {
        &[MotionKind::B, MotionKind::E, MotionKind::F]
    }
}

impl Word for ServiceMethod {
    ghost use Rattle.docket_command.specs.Words.{service_method_word, service_method_named};

    ghost word_of = { service_method_word };

    ghost named = { service_method_named };

    fn word(self) -> &'static str {
        match self {
            ServiceMethod::A => "A",
            ServiceMethod::B => "B",
            ServiceMethod::C => "C",
            ServiceMethod::D => "D",
            ServiceMethod::E => "E",
            ServiceMethod::F => "F",
        }
    }

    fn values() -> &'static [ServiceMethod] {
        &[
            ServiceMethod::A,
            ServiceMethod::B,
            ServiceMethod::C,
            ServiceMethod::D,
            ServiceMethod::E,
            ServiceMethod::F,
        ]
    }
}
