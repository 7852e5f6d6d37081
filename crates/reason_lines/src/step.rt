//! The line of a step.

use crate::due::StandingLine;
use crate::line::{DoneLine, ExtendedLine, MotionLine, PassedLine, day_line, end_line};
use crate::period::{HoursLine, PeriodLine};
use court_days::{Calendar, Court};
use court_reasons::Step;
use court_rules::DeadlineRule;
use std::fmt;

const FIXED: &str = "day set by the court; it stays, whatever day it is";

const EXTENDED_TO: &str = "extended to this day; it stays, whatever day it is, 6(b)(1)";

const RESUMED: &str = "the time runs again; 14 days after, 12(a)(4)";

const AWAITED: &str = "more definite statement ordered; the time awaits it, 12(a)(4)(B)";

const COUNTED_TO_DAY: &str = "counted to this day, 6(a)(1)(A), (B)";

const COUNTED_TO_TIME: &str = "counted to this time, 6(a)(2)(A), (B)";

const DAY_MOVED: &str = "clerk's office closed; the time moves forward, 6(a)(3)(A)";

const TIME_MOVED: &str =
    "clerk's office closed in the hour before; the time moves forward, 6(a)(3)(B)";

const THREE_ADDED: &str = "three days added for service, 6(d)";

const DAYS_END: &str = "the period ends, 6(a)(1)(C)";

const HOURS_END: &str = "the period ends, 6(a)(2)(C)";

/// The line of a step, by the rule that sets the time, where one does.
#[derive(Clone, Copy)]
pub(crate) struct StepLine<'a> {
    pub(crate) court: &'a Court,
    pub(crate) calendar: &'a Calendar,
    pub(crate) rule: Option<&'a DeadlineRule>,
    pub(crate) step: &'a Step,
}

impl fmt::Display for StepLine<'_> {
    ghost use Rattle.std.specs.Prelude.{Some, option_copied};
    ghost use Rattle.reason_lines.specs.Lines.{step_line};

    ghost output = { λ line. Some (step_line line.court.now line.calendar.now (option_copied line.rule) line.step.now) };

    fn fmt<W: fmt::Write>(&self, f: &mut fmt::Formatter<W>) -> fmt::Result {
        let StepLine {
            court,
            calendar,
            rule,
            step,
        } = *self;
        match step {
            Step::Period(days) => PeriodLine { rule, days }.fmt(f),
            Step::Hours(hours) => HoursLine { court, hours }.fmt(f),
            Step::Fixed(day) => day_line(day, FIXED).fmt(f),
            Step::Extended(day, days) => ExtendedLine(*day, *days).fmt(f),
            Step::ExtendedTo(day) => day_line(day, EXTENDED_TO).fmt(f),
            Step::Motion(day, kind) => MotionLine(*day, *kind).fmt(f),
            Step::Resumed(day, _) => day_line(day, RESUMED).fmt(f),
            Step::Awaited(day) => day_line(day, AWAITED).fmt(f),
            Step::Done(at, way) => DoneLine(court, *at, *way).fmt(f),
            Step::Vacated => f.write_str("vacated by the court\n"),
            Step::Counted(end) => end_line(court, end, COUNTED_TO_DAY, COUNTED_TO_TIME).fmt(f),
            Step::Passed(day, causes) => PassedLine { day: *day, causes }.fmt(f),
            Step::Moved(end) => end_line(court, end, DAY_MOVED, TIME_MOVED).fmt(f),
            Step::ThreeAdded(day) => day_line(day, THREE_ADDED).fmt(f),
            Step::Ends(end) => end_line(court, end, DAYS_END, HOURS_END).fmt(f),
            Step::Stands(standing) => StandingLine {
                court,
                calendar,
                standing,
            }
            .fmt(f),
        }
    }
}
