//! The calendar of the docket of a database. Nothing is changed.

use crate::inquiry::Inquiry;
use court_days::Day;
use docket_store::{CalendarEnd, Docket, Holdings};
use sqlite::Alter;
use std::alloc::Global;
use std::io::Write;

/// The calendar of the days from one to another, both included. Each line is written as it is read.
#[derive(Clone, Copy)]
pub struct CalendarLines {
    pub from: Day,
    pub to: Day,
}

impl<W: Write> Inquiry<W> for CalendarLines {
    ghost use Rattle.file_questions.specs.Tells.{ListsTo};

    type Answer = Result<u32, CalendarEnd>;

    ghost Tells = { λ asked court h before after. ListsTo court h asked.from asked.to (W.contents before) (W.contents after) };

    fn ask<S: Alter>(
        &self,
        _alloc: Global,
        docket: &mut Docket<S>,
        _held: Holdings,
        out: &mut W,
    ) -> Result<u32, CalendarEnd> {
        docket.calendar(self.from, self.to, out)
    }
}
