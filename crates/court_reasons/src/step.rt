//! The steps by which the standing of a deadline is found.
ghost use Rattle.std.specs.Prelude.{◌≡◌, ◌++◌, [], ◌∷◌, OnOk};

use crate::cause::Causes;
use court_days::{Day, Direction, End, Way};
use court_rules::{DayPeriod, HourPeriod, MotionKind, Period, Standing};
use std::alloc::{AllocError, Global};
use std::marker::Model;

/// A step on the way from the first act of a deadline to where it stands.
#[derive(Clone, Copy)]
pub enum Step {
    /// A period of days or months begins.
    Period(DayPeriod),
    /// A period of hours begins.
    Hours(HourPeriod),
    /// The court sets a day, which neither runs on to a business day nor moves.
    Fixed(Day),
    /// The time, which ended on that day, is extended by that many days.
    Extended(Day, u32),
    /// The time is extended to a day, which neither runs on nor moves.
    ExtendedTo(Day),
    /// A rule 12 motion, served on that day, suspends the time.
    Motion(Day, MotionKind),
    /// The time runs again for 14 days from that day; whether service adds three days.
    Resumed(Day, bool),
    /// The court ordered a more definite statement, of which the parties had notice on that day.
    Awaited(Day),
    /// What was due was done at that instant.
    Done(i64, Way),
    /// The court vacated the deadline.
    Vacated,
    /// The count of the period runs to that day or moment.
    Counted(End),
    /// The period goes on over that day, for these causes.
    Passed(Day, Causes),
    /// A period counted backward comes to that day or moment, but the clerk's office was
    /// inaccessible then: it moves forward.
    Moved(End),
    /// Service adds three days, which run to that day.
    ThreeAdded(Day),
    /// The period ends.
    Ends(End),
    /// Where the deadline stands at last.
    Stands(Standing),
}

/// The types of other crates that a step has parts of.
type Parts = (
    Option<Direction>,
    Option<End>,
    Option<MotionKind>,
    Option<Period>,
    Option<Standing>,
    Option<Way>,
);

/// The steps by which the standing of a deadline was found, in order.
#[derive(Drop)]
pub struct Reasons {
    steps: Vec<Step>,
}

impl Model for Reasons {
    ghost use Rattle.std.specs.Prelude.{List};
    ghost use Rattle.court_reasons.specs.declared.step.Step.{Step};

    ghost Value = { List Step };

    ghost view = { λ r. r.steps.items };
}

impl Reasons {
    /// No steps. It takes no memory yet.
    pub(crate) fn new(alloc: Global) -> Self
        ensures { result ≡ [] }
    {
        Reasons {
            steps: Vec::new(alloc),
        }
    }

    /// Adds a step.
    pub(crate) fn push(&mut self, step: Step) -> Result<(), AllocError>
        ensures { OnOk result (self.new ≡ self.old ++ step ∷ []) }
    {
        // The prover needs the types of a step's parts to show what stays as it was over the `?`,
        // and knows those of other crates only where they are named.
        let _parts: Parts = (None, None, None, None, None, None);
        self.steps.push(step)?;
        Ok(())
    }

    /// The steps, from the first act on.
    pub fn steps(&self) -> &[Step]
        ensures { result.now ≡ self.now }
    {
        self.steps.as_slice()
    }
}
