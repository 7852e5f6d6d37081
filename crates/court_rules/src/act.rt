//! What happens to a deadline, and where it stands.
use crate::table::Period;
use court_days::{Day, Direction, End, Way};

/// A period in days or months from the day of an event.
#[derive(Clone, Copy)]
pub struct DayPeriod {
    pub trigger: Day,
    pub period: Period,
    pub direction: Direction,
    /// Whether service adds three days to it (Fed. R. Civ. P. 6(d)).
    pub three_days: bool,
}

/// A period in hours from an instant, in seconds since 1970-01-01T00:00Z.
#[derive(Clone, Copy)]
pub struct HourPeriod {
    pub at: i64,
    pub hours: u32,
    pub direction: Direction,
}

/// The beginning of a period.
#[derive(Clone, Copy)]
pub enum Start {
    Days(DayPeriod),
    Hours(HourPeriod),
}

/// A rule 12 motion: by a rule 12(b) defense, for a more definite statement under rule 12(e), or to
/// strike under rule 12(f).
#[derive(Clone, Copy, PartialEq, Eq)]
pub enum MotionKind {
    B,
    E,
    F,
}

/// What happens to a deadline.
#[derive(Clone, Copy)]
pub enum Act {
    /// A period begins.
    Start(Start),
    /// The court sets a day to act.
    Fixed(Day),
    /// The court extends the time by that many days.
    ExtendBy(u32),
    /// The court extends the time to a day.
    ExtendTo(Day),
    /// A rule 12 motion, served on that day, suspends the time.
    Motion(Day, MotionKind),
    /// After the ruling on the motion, or the more definite statement, the time runs for 14 days from
    /// that day; whether service adds three days to them.
    Resume(Day, bool),
    /// The court ordered a more definite statement; the parties had notice of it on that day.
    AwaitStatement(Day),
    /// What was due was done at that instant, in seconds since 1970-01-01T00:00Z.
    Done(i64, Way),
    /// The court vacated the deadline.
    Vacated,
}

/// Where a deadline stands.
#[derive(Clone, Copy)]
pub enum Standing {
    /// The time runs, to this end.
    Running(End),
    /// A motion suspends the time.
    Suspended,
    /// The time awaits a more definite statement.
    Awaiting,
    Done,
    Vacated,
}
