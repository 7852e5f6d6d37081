//! The deadlines that fall due on some days, in one of several forms.
ghost use Rattle.std.specs.Prelude.{◌≡◌, ◌+◌, ◌-◌, max, min};
ghost use Rattle.docket_questions.specs.Dues.{days_of};

use crate::due_texts::text_between;
use crate::question::Question;
use court_days::{Court, Day};
use docket_store::{Docket, Fault};
use due_exports::Form;
use html_sheets::{Due, DueList, day_of_clock};
use sqlite::Alter;
use std::alloc::Global;

/// 1980-01-01, the first `Day`.
const FIRST_DAY: u32 = 3652;

/// 3999-12-31, the last `Day`.
const LAST_DAY: u32 = 741_441;

/// The form in which deadlines that fall due are written.
#[derive(Clone, Copy)]
pub enum DueForm {
    /// A page that lists them, and the day on which it is asked for.
    Page(DueList, Day),
    /// The lines of the calendar.
    Calendar,
    /// Lines with the docket numbers and the captions of the cases and the names of the parties.
    Long,
    /// The format of another program, and when it is written, in seconds since 1970-01-01T00:00Z.
    Export(Form, i64),
}

/// The days on which they fall due. A clock shows the seconds since 1970-01-01T00:00Z.
#[derive(Clone, Copy)]
pub enum DueDays {
    /// From a day to another, both included.
    Between(Day, Day),
    /// By the day of a clock.
    By(Due, i64),
    /// From 35 days before the day of a clock to 400 days after it.
    Around(i64),
}

/// The days from 35 before a day to 400 after it, as far as there are days.
fn days_around(day: Day) -> (Day, Day)
    ensures first { result.0 ≡ max 3652 (day - 35) }
    ensures last { result.1 ≡ min 741_441 (day + 400) }
{
    let earlier = day.epoch_day() - FIRST_DAY;
    let later = LAST_DAY - day.epoch_day();
    (day.minus(earlier.min(35)), day.plus(later.min(400)))
}

/// The first and the last of the days.
fn days_of(court: &Court, days: DueDays) -> (Day, Day)
    ensures { result ≡ days_of court.now days }
{
    match days {
        DueDays::Between(from, to) => (from, to),
        DueDays::By(due, clock) => due.days(day_of_clock(court, clock)),
        DueDays::Around(clock) => days_around(day_of_clock(court, clock)),
    }
}

/// The deadlines whose time runs to one of the days, in the order of the calendar. All of them are in memory at
/// once, and so is the text.
#[derive(Clone, Copy)]
pub struct Dues {
    pub form: DueForm,
    pub days: DueDays,
}

impl Question for Dues {
    ghost use Rattle.std.specs.Prelude.{Some};
    ghost use Rattle.docket_questions.specs.Dues.{text_of_dues};

    ghost Text = { λ asked court h. Some (text_of_dues court h asked.form asked.days) };

    fn ask<S: Alter>(
        &self,
        alloc: Global,
        docket: &mut Docket<S>,
    ) -> Result<Option<String>, Fault> {
        let (from, to) = days_of(docket.court(), self.days);
        let dues = docket.due_rows(from, to)?;
        let text = text_between(alloc, docket, &self.form, from, to, dues.as_slice())?;
        Ok(Some(text))
    }
}
