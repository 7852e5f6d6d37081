//! Why a deadline is what it is, as a text.
ghost use Rattle.std.specs.Prelude.{◌≡◌, IfOk, string_bytes};
ghost use Rattle.court_days.specs.Court.{zone_of};
ghost use Rattle.court_rules.specs.Standings.{AreActs};
ghost use Rattle.docket_questions.specs.Texts.{reasons_of};

use crate::question::Question;
use court_days::{Calendar, Court};
use court_reasons::reasons;
use docket_history::DeadlineView;
use docket_store::{Docket, Fault};
use reason_lines::reasons_text;
use sqlite::Alter;
use std::alloc::{AllocError, Global};

/// The text of the steps by which a deadline's standing is found, by the calendar.
pub(crate) fn text_of_deadline(
    alloc: Global,
    court: &Court,
    calendar: &Calendar,
    deadline: &DeadlineView,
) -> Result<String, AllocError>
    requires { AreActs (zone_of court.now) deadline.now.acts }
    ensures { IfOk result (λ text. string_bytes text ≡ reasons_of court.now calendar.now deadline.now) }
{
    let steps = reasons(alloc, court, calendar, deadline.acts.as_slice())?;
    let rule = Some(&deadline.rule);
    reasons_text(alloc, court, calendar, rule, steps.steps())
}

/// Why the deadline of a number, from 1, of a case is what it is.
#[derive(Clone, Copy)]
pub struct ReasonsText {
    pub case: u32,
    pub deadline: u32,
}

impl Question for ReasonsText {
    ghost use Rattle.docket_questions.specs.Texts.{text_of_reasons};

    ghost Text = { λ asked court h. text_of_reasons court h asked.case asked.deadline };

    fn ask<S: Alter>(
        &self,
        alloc: Global,
        docket: &mut Docket<S>,
    ) -> Result<Option<String>, Fault> {
        let Some(grounds) = docket.grounds(self.case, self.deadline)? else {
            return Ok(None);
        };
        let text = text_of_deadline(alloc, docket.court(), &grounds.calendar, &grounds.deadline)?;
        Ok(Some(text))
    }
}
