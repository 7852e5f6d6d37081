//! The line of a period that begins.

use crate::mark::{DayMark, MomentMark};
use crate::words::{Counted, PeriodText, cited_rule, direction_word, event_word};
use court_days::Court;
use court_rules::{DayPeriod, DeadlineRule, HourPeriod};
use std::fmt;

/// A period of days or months begins.
#[derive(Clone, Copy)]
pub(crate) struct PeriodLine<'a> {
    pub(crate) rule: Option<&'a DeadlineRule>,
    pub(crate) days: &'a DayPeriod,
}

impl fmt::Display for PeriodLine<'_> {
    ghost use Rattle.std.specs.Prelude.{Some, option_copied};
    ghost use Rattle.reason_lines.specs.Lines.{period_line};

    ghost output = { λ line. Some (period_line (option_copied line.rule) line.days.now) };

    fn fmt<W: fmt::Write>(&self, f: &mut fmt::Formatter<W>) -> fmt::Result {
        let days = self.days;
        let mark = DayMark(days.trigger);
        let event = event_word(self.rule);
        let period = PeriodText(days.period);
        let direction = direction_word(days.direction);
        let rule = cited_rule(self.rule);
        writeln!(f, "{mark}{event}; {period} {direction}, {rule}")
    }
}

/// A period of hours begins.
#[derive(Clone, Copy)]
pub(crate) struct HoursLine<'a> {
    pub(crate) court: &'a Court,
    pub(crate) hours: &'a HourPeriod,
}

impl fmt::Display for HoursLine<'_> {
    ghost use Rattle.std.specs.Prelude.{Some};
    ghost use Rattle.reason_lines.specs.Lines.{hours_line};

    ghost output = { λ line. Some (hours_line line.court.now line.hours.now) };

    fn fmt<W: fmt::Write>(&self, f: &mut fmt::Formatter<W>) -> fmt::Result {
        let hours = self.hours;
        let mark = MomentMark {
            court: self.court,
            at: hours.at,
        };
        let count = Counted {
            count: hours.hours,
            one: "hour",
            many: "hours",
        };
        let direction = direction_word(hours.direction);
        writeln!(f, "{mark}event; {count} {direction}, 6(a)(2)")
    }
}
