//! Why a deadline is what it is, as a page.

use crate::filing::filed;
use crate::question::Question;
use crate::reasons::text_of_deadline;
use court_days::Day;
use docket_store::{Docket, Fault};
use html_sheets::reasons_page;
use sqlite::Alter;
use std::alloc::Global;

/// Why the deadline of a number, from 1, of a case is what it is, as a page on a day. It says too whether what
/// the deadline asks for was filed in time, by the calendar of today.
#[derive(Clone, Copy)]
pub struct ReasonsPage {
    pub case: u32,
    pub deadline: u32,
    pub day: Day,
}

impl Question for ReasonsPage {
    ghost use Rattle.docket_questions.specs.Texts.{page_of_reasons};

    ghost Text = { λ asked court h. page_of_reasons court h asked.case asked.deadline asked.day };

    fn ask<S: Alter>(
        &self,
        alloc: Global,
        docket: &mut Docket<S>,
    ) -> Result<Option<String>, Fault> {
        let Some(grounds) = docket.grounds(self.case, self.deadline)? else {
            return Ok(None);
        };
        let court = docket.court();
        let text = text_of_deadline(alloc, court, &grounds.calendar, &grounds.deadline)?;
        let filed = filed(court, &grounds.calendar, grounds.deadline.acts.as_slice());
        let page = reasons_page(alloc, self.case, self.deadline, &text, filed, self.day)?;
        Ok(Some(page))
    }
}
