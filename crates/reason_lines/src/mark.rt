//! What a line begins with: a day or an instant, and its weekday.

use court_days::{Court, Day};
use docket_text::{DayText, MomentText, shown, weekday_word};
use std::fmt;

/// A day, its weekday and two spaces.
#[derive(Clone, Copy)]
pub(crate) struct DayMark(pub(crate) Day);

impl fmt::Display for DayMark {
    ghost use Rattle.std.specs.Prelude.{Some};
    ghost use Rattle.reason_lines.specs.Lines.{day_mark};

    ghost output = { λ mark. Some (day_mark mark.0) };

    fn fmt<W: fmt::Write>(&self, f: &mut fmt::Formatter<W>) -> fmt::Result {
        let day = DayText(self.0);
        let weekday = weekday_word(self.0.weekday());
        write!(f, "{day} {weekday}  ")
    }
}

/// An instant in the court's time, its weekday and two spaces.
#[derive(Clone, Copy)]
pub(crate) struct MomentMark<'a> {
    pub(crate) court: &'a Court,
    pub(crate) at: i64,
}

impl fmt::Display for MomentMark<'_> {
    ghost use Rattle.std.specs.Prelude.{Some};
    ghost use Rattle.docket_text.specs.Times.{shown};
    ghost use Rattle.reason_lines.specs.Lines.{moment_mark};

    ghost output = { λ mark. Some (moment_mark mark.court.now (shown mark.at)) };

    fn fmt<W: fmt::Write>(&self, f: &mut fmt::Formatter<W>) -> fmt::Result {
        let moment = MomentText {
            court: self.court,
            at: self.at,
        };
        let (day, _) = self.court.local(shown(self.at));
        let weekday = weekday_word(day.weekday());
        write!(f, "{moment} {weekday}  ")
    }
}
