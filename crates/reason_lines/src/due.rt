//! The last line: where the deadline stands.
ghost use Rattle.std.specs.Prelude.{◌≡◌};
ghost use Rattle.court_days.specs.Timely.{closing};

use crate::mark::{DayMark, MomentMark};
use court_days::{Calendar, Court, Day, End, closing};
use court_rules::Standing;
use docket_text::ClockText;
use std::fmt;

/// When the clerk's office is scheduled to close on the day.
fn closing_text(court: &Court, calendar: &Calendar, day: Day) -> ClockText
    ensures { result.minute ≡ closing court.now calendar.now day }
{
    let minute = closing(court, calendar, day);
    ClockText { minute }
}

/// Until when a filing is in time on the last day.
#[derive(Clone, Copy)]
struct DueWords<'a> {
    court: &'a Court,
    calendar: &'a Calendar,
    day: Day,
}

impl fmt::Display for DueWords<'_> {
    ghost use Rattle.std.specs.Prelude.{Some};
    ghost use Rattle.reason_lines.specs.Lines.{due_words};

    ghost output = { λ words. Some (due_words words.court.now words.calendar.now words.day) };

    fn fmt<W: fmt::Write>(&self, f: &mut fmt::Formatter<W>) -> fmt::Result {
        let close = closing_text(self.court, self.calendar, self.day);
        write!(
            f,
            "due: to 24:00 electronically, to {close} at the clerk's office, 6(a)(4)"
        )
    }
}

/// The day on which the deadline is due.
#[derive(Clone, Copy)]
struct DueDay<'a> {
    court: &'a Court,
    calendar: &'a Calendar,
    day: Day,
}

impl fmt::Display for DueDay<'_> {
    ghost use Rattle.std.specs.Prelude.{Some};
    ghost use Rattle.reason_lines.specs.Lines.{due_day};

    ghost output = { λ line. Some (due_day line.court.now line.calendar.now line.day) };

    fn fmt<W: fmt::Write>(&self, f: &mut fmt::Formatter<W>) -> fmt::Result {
        let mark = DayMark(self.day);
        let words = DueWords {
            court: self.court,
            calendar: self.calendar,
            day: self.day,
        };
        writeln!(f, "{mark}{words}")
    }
}

/// When the deadline is due.
#[derive(Clone, Copy)]
struct DueRow<'a> {
    court: &'a Court,
    calendar: &'a Calendar,
    end: &'a End,
}

impl fmt::Display for DueRow<'_> {
    ghost use Rattle.std.specs.Prelude.{Some};
    ghost use Rattle.reason_lines.specs.Lines.{due_line};

    ghost output = { λ line. Some (due_line line.court.now line.calendar.now line.end.now) };

    fn fmt<W: fmt::Write>(&self, f: &mut fmt::Formatter<W>) -> fmt::Result {
        match self.end {
            End::LastDay(day) => {
                let line = DueDay {
                    court: self.court,
                    calendar: self.calendar,
                    day: *day,
                };
                line.fmt(f)
            }
            End::Moment(at) => {
                let mark = MomentMark {
                    court: self.court,
                    at: *at,
                };
                writeln!(f, "{mark}due")
            }
        }
    }
}

/// Where the deadline stands at last.
#[derive(Clone, Copy)]
pub(crate) struct StandingLine<'a> {
    pub(crate) court: &'a Court,
    pub(crate) calendar: &'a Calendar,
    pub(crate) standing: &'a Standing,
}

impl fmt::Display for StandingLine<'_> {
    ghost use Rattle.std.specs.Prelude.{Some};
    ghost use Rattle.reason_lines.specs.Lines.{standing_line};

    ghost output = { λ line. Some (standing_line line.court.now line.calendar.now line.standing.now) };

    fn fmt<W: fmt::Write>(&self, f: &mut fmt::Formatter<W>) -> fmt::Result {
        match self.standing {
            Standing::Running(end) => DueRow {
                court: self.court,
                calendar: self.calendar,
                end,
            }
            .fmt(f),
            Standing::Suspended => f.write_str("suspended\n"),
            Standing::Awaiting => f.write_str("awaiting the statement\n"),
            Standing::Done => f.write_str("done\n"),
            Standing::Vacated => f.write_str("vacated\n"),
        }
    }
}
