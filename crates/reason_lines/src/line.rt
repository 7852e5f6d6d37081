//! The lines about what holds on a day or at a moment.
ghost use Rattle.std.specs.Prelude.{◌≡◌};

use crate::cause::CausesText;
use crate::mark::{DayMark, MomentMark};
use crate::words::{Counted, motion_rule, way_words};
use court_days::{Court, Day, End, Way};
use court_reasons::Causes;
use court_rules::MotionKind;
use std::fmt;

/// A day on which something holds.
#[derive(Clone, Copy)]
pub(crate) struct DayLine<'a> {
    pub(crate) day: Day,
    pub(crate) words: &'a str,
}

impl fmt::Display for DayLine<'_> {
    ghost use Rattle.std.specs.Prelude.{Some};
    ghost use Rattle.reason_lines.specs.Lines.{day_line};

    ghost output = { λ line. Some (day_line line.day line.words.now) };

    fn fmt<W: fmt::Write>(&self, f: &mut fmt::Formatter<W>) -> fmt::Result {
        let mark = DayMark(self.day);
        let words = self.words;
        writeln!(f, "{mark}{words}")
    }
}

/// A line of words on a day.
pub(crate) fn day_line(day: &Day, words: &'static str) -> DayLine<'static>
    ensures day { result.day ≡ day.now }
    ensures words { result.words.now ≡ words.now }
{
    DayLine { day: *day, words }
}

/// A day or a moment, with the words for each.
#[derive(Clone, Copy)]
pub(crate) struct EndLine<'a> {
    pub(crate) court: &'a Court,
    pub(crate) end: &'a End,
    pub(crate) of_day: &'a str,
    pub(crate) of_moment: &'a str,
}

impl fmt::Display for EndLine<'_> {
    ghost use Rattle.std.specs.Prelude.{Some};
    ghost use Rattle.reason_lines.specs.Lines.{end_line};

    ghost output = { λ line. Some (end_line line.court.now line.end.now line.of_day.now line.of_moment.now) };

    fn fmt<W: fmt::Write>(&self, f: &mut fmt::Formatter<W>) -> fmt::Result {
        match self.end {
            End::LastDay(day) => {
                let mark = DayMark(*day);
                let words = self.of_day;
                writeln!(f, "{mark}{words}")
            }
            End::Moment(at) => {
                let mark = MomentMark {
                    court: self.court,
                    at: *at,
                };
                let words = self.of_moment;
                writeln!(f, "{mark}{words}")
            }
        }
    }
}

/// A line of words on a day or at a moment.
pub(crate) fn end_line<'a>(
    court: &'a Court,
    end: &'a End,
    of_day: &'static str,
    of_moment: &'static str,
) -> EndLine<'a>
    ensures court { result.court.now ≡ court.now }
    ensures end { result.end.now ≡ end.now }
    ensures of_day { result.of_day.now ≡ of_day.now }
    ensures of_moment { result.of_moment.now ≡ of_moment.now }
{
    EndLine {
        court,
        end,
        of_day,
        of_moment,
    }
}

/// A day that was passed over.
#[derive(Clone, Copy)]
pub(crate) struct PassedLine<'a> {
    pub(crate) day: Day,
    pub(crate) causes: &'a Causes,
}

impl fmt::Display for PassedLine<'_> {
    ghost use Rattle.std.specs.Prelude.{Some};
    ghost use Rattle.reason_lines.specs.Lines.{passed_line};

    ghost output = { λ line. Some (passed_line line.day line.causes.now) };

    fn fmt<W: fmt::Write>(&self, f: &mut fmt::Formatter<W>) -> fmt::Result {
        let mark = DayMark(self.day);
        let causes = CausesText(self.causes);
        writeln!(f, "{mark}passed over: {causes}")
    }
}

/// An extension by days.
#[derive(Clone, Copy)]
pub(crate) struct ExtendedLine(pub(crate) Day, pub(crate) u32);

impl fmt::Display for ExtendedLine {
    ghost use Rattle.std.specs.Prelude.{Some};
    ghost use Rattle.reason_lines.specs.Lines.{extended_line};

    ghost output = { λ line. Some (extended_line line.0 line.1) };

    fn fmt<W: fmt::Write>(&self, f: &mut fmt::Formatter<W>) -> fmt::Result {
        let mark = DayMark(self.0);
        let count = Counted {
            count: self.1,
            one: "day",
            many: "days",
        };
        writeln!(f, "{mark}extended by {count}, 6(b)(1)")
    }
}

/// A motion that suspends the time.
#[derive(Clone, Copy)]
pub(crate) struct MotionLine(pub(crate) Day, pub(crate) MotionKind);

impl fmt::Display for MotionLine {
    ghost use Rattle.std.specs.Prelude.{Some};
    ghost use Rattle.reason_lines.specs.Lines.{motion_line};
    ghost use Rattle.reason_lines.specs.Words.{motion_rule};

    ghost output = { λ line. Some (motion_line line.0 (motion_rule line.1)) };

    fn fmt<W: fmt::Write>(&self, f: &mut fmt::Formatter<W>) -> fmt::Result {
        let mark = DayMark(self.0);
        let rule = motion_rule(self.1);
        writeln!(
            f,
            "{mark}motion under {rule} served; the time is suspended, 12(a)(4)"
        )
    }
}

/// What was due was done.
#[derive(Clone, Copy)]
pub(crate) struct DoneLine<'a>(pub(crate) &'a Court, pub(crate) i64, pub(crate) Way);

impl fmt::Display for DoneLine<'_> {
    ghost use Rattle.std.specs.Prelude.{Some};
    ghost use Rattle.docket_text.specs.Times.{shown};
    ghost use Rattle.reason_lines.specs.Lines.{done_line};
    ghost use Rattle.reason_lines.specs.Words.{way_words};

    ghost output = { λ line. Some (done_line line.0.now (shown line.1) (way_words line.2)) };

    fn fmt<W: fmt::Write>(&self, f: &mut fmt::Formatter<W>) -> fmt::Result {
        let mark = MomentMark {
            court: self.0,
            at: self.1,
        };
        let words = way_words(self.2);
        writeln!(f, "{mark}done {words}")
    }
}
