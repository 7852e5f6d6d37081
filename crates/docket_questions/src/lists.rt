//! The list of the cases, a hundred to a page.
ghost use Rattle.std.specs.Prelude.{◌≡◌, ◌≤◌};
ghost use Rattle.docket_questions.specs.Texts.{last_before, newer, older};

use crate::newest::newest_cases;
use crate::question::Question;
use court_days::Day;
use docket_store::{Docket, Fault};
use html_sheets::cases_page;
use sqlite::Alter;
use std::alloc::Global;

/// The most cases of a page.
pub(crate) const CASES_A_PAGE: u32 = 100;

/// The number of the newest case before a number, or of the last there is.
fn last_before(cases: u32, before: Option<u32>) -> u32
    ensures { result ≡ last_before cases before }
{
    match before {
        Some(number) => number.saturating_sub(1).min(cases),
        None => cases,
    }
}

/// The number before which the hundred cases are that come after the last of a page, where there are any. A
/// docket has at most 100,000 cases.
fn newer(cases: u32, last: u32) -> Option<u32>
    ensures { cases ≤ 100_000 → result ≡ newer cases last }
{
    if cases <= last {
        None
    } else {
        Some(last.saturating_add(CASES_A_PAGE + 1))
    }
}

/// The number of the last case of a page, where there are others before it.
fn older(last: u32) -> Option<u32>
    ensures { result ≡ older last }
{
    if last <= CASES_A_PAGE {
        None
    } else {
        Some(last - (CASES_A_PAGE - 1))
    }
}

/// The list on a day of at most a hundred cases, the newest first: those with numbers under `before`, or the
/// last there are.
#[derive(Clone, Copy)]
pub struct CasesPage {
    pub before: Option<u32>,
    pub day: Day,
}

impl Question for CasesPage {
    ghost use Rattle.std.specs.Prelude.{Some};
    ghost use Rattle.docket_questions.specs.Texts.{page_of_cases};

    ghost Text = { λ asked _ h. Some (page_of_cases h asked.before asked.day) };

    fn ask<S: Alter>(
        &self,
        alloc: Global,
        docket: &mut Docket<S>,
    ) -> Result<Option<String>, Fault> {
        let count = docket.count_cases()?;
        let last = last_before(count, self.before);
        let cases = newest_cases(alloc, docket, None, last, CASES_A_PAGE as usize)?;
        let page = cases_page(
            alloc,
            cases.as_slice(),
            newer(count, last),
            older(last),
            self.day,
        )?;
        Ok(Some(page))
    }
}
