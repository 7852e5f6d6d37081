//! A case, and its deadlines, as texts.
use crate::question::Question;
use crate::telling::{Telling, tell_case};
use docket_store::{Docket, Fault};
use docket_text::deadlines_text;
use sqlite::Alter;
use std::alloc::Global;

/// The case of a number, with its parties, entries and deadlines.
#[derive(Clone, Copy)]
pub struct CaseText {
    pub number: u32,
}

impl Question for CaseText {
    ghost use Rattle.docket_questions.specs.Texts.{text_of_case};

    ghost Text = { λ asked court h. text_of_case court h asked.number };

    fn ask<S: Alter>(
        &self,
        alloc: Global,
        docket: &mut Docket<S>,
    ) -> Result<Option<String>, Fault> {
        tell_case(alloc, docket, Telling::Text, self.number)
    }
}

/// The deadlines of the case of a number.
#[derive(Clone, Copy)]
pub struct DeadlinesText {
    pub number: u32,
}

impl Question for DeadlinesText {
    ghost use Rattle.docket_questions.specs.Texts.{text_of_deadlines};

    ghost Text = { λ asked court h. text_of_deadlines court h asked.number };

    fn ask<S: Alter>(
        &self,
        alloc: Global,
        docket: &mut Docket<S>,
    ) -> Result<Option<String>, Fault> {
        let Some(lines) = docket.deadlines(self.number)? else {
            return Ok(None);
        };
        let text = deadlines_text(alloc, docket.court(), lines.as_slice())?;
        Ok(Some(text))
    }
}
