//! The court's rules and its calendar, as texts and as pages.

use crate::question::Question;
use court_days::Day;
use docket_store::{Docket, Fault};
use docket_text::{court_calendar_text, rules_text};
use html_sheets::{court_days_page, printed_page};
use sqlite::Alter;
use std::alloc::Global;

/// The rules by which the deadlines of a docket run: those of the table, and the docket's local rules.
#[derive(Clone, Copy)]
pub struct RulesText;

impl Question for RulesText {
    ghost use Rattle.std.specs.Prelude.{Some};
    ghost use Rattle.docket_history.specs.Histories.{local_rule_rows};
    ghost use Rattle.docket_text.specs.RuleTexts.{rules_text};

    ghost Text = { λ _ _ h. Some (rules_text (local_rule_rows h)) };

    fn ask<S: Alter>(
        &self,
        alloc: Global,
        docket: &mut Docket<S>,
    ) -> Result<Option<String>, Fault> {
        let rows = docket.local_rules()?;
        let text = rules_text(alloc, rows.as_slice())?;
        Ok(Some(text))
    }
}

/// The court's calendar of the days from one to another, both included.
#[derive(Clone, Copy)]
pub struct CourtCalendarText {
    pub from: Day,
    pub to: Day,
}

impl Question for CourtCalendarText {
    ghost use Rattle.std.specs.Prelude.{Some};
    ghost use Rattle.docket_history.specs.Histories.{standing_rows};
    ghost use Rattle.docket_text.specs.CourtCalendar.{court_calendar_text};

    ghost Text = { λ asked court h. Some (court_calendar_text court (standing_rows h) asked.from asked.to) };

    fn ask<S: Alter>(
        &self,
        alloc: Global,
        docket: &mut Docket<S>,
    ) -> Result<Option<String>, Fault> {
        let rows = docket.calendar_rows()?;
        let court = docket.court();
        let text = court_calendar_text(alloc, court, rows.as_slice(), self.from, self.to)?;
        Ok(Some(text))
    }
}

/// The rules by which the deadlines of a docket run, as a page on a day.
#[derive(Clone, Copy)]
pub struct RulesPage {
    pub day: Day,
}

impl Question for RulesPage {
    ghost use Rattle.std.specs.Prelude.{Some};
    ghost use Rattle.docket_questions.specs.Texts.{page_of_rules};

    ghost Text = { λ asked _ h. Some (page_of_rules h asked.day) };

    fn ask<S: Alter>(
        &self,
        alloc: Global,
        docket: &mut Docket<S>,
    ) -> Result<Option<String>, Fault> {
        let Some(text) = RulesText.ask(alloc, docket)? else {
            return Ok(None);
        };
        let page = printed_page(alloc, "Rules", &text, self.day)?;
        Ok(Some(page))
    }
}

/// The rows that the court entered in its calendar, as a page on a day.
#[derive(Clone, Copy)]
pub struct CourtDaysPage {
    pub day: Day,
}

impl Question for CourtDaysPage {
    ghost use Rattle.std.specs.Prelude.{Some};
    ghost use Rattle.docket_history.specs.Histories.{standing_rows};
    ghost use Rattle.html_sheets.specs.Sites.{court_days_page};

    ghost Text = { λ asked court h. Some (court_days_page court (standing_rows h) asked.day) };

    fn ask<S: Alter>(
        &self,
        alloc: Global,
        docket: &mut Docket<S>,
    ) -> Result<Option<String>, Fault> {
        let rows = docket.calendar_rows()?;
        let court = docket.court();
        let page = court_days_page(alloc, court, rows.as_slice(), self.day)?;
        Ok(Some(page))
    }
}
