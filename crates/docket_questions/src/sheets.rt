//! A case as a page, which a browser shows.
ghost use Rattle.std.specs.Prelude.{◌≡◌, IfOk, string_bytes};
ghost use Rattle.docket_questions.specs.Texts.{sheet_page};

use crate::question::Question;
use crate::telling::{Telling, tell_case};
use court_days::{Court, Day};
use docket_history::{CaseRecord, DeadlineLine};
use docket_store::{Docket, Fault};
use html_sheets::{Links, case_sheet, page_foot, page_head};
use sqlite::Alter;
use std::alloc::{AllocError, Global};

/// The docket sheet of a case, as a page.
pub(crate) fn sheet_page(
    alloc: Global,
    court: &Court,
    case: &CaseRecord,
    lines: &[DeadlineLine],
) -> Result<String, AllocError>
    ensures { IfOk result (λ text. string_bytes text ≡ sheet_page court.now case.now lines.now) }
{
    let mut page = page_head(alloc, case.label.as_str())?;
    let sheet = case_sheet(alloc, Links::None, court, case, lines)?;
    page.push_str(&sheet)?;
    page.push_str(page_foot())?;
    Ok(page)
}

/// The docket sheet of the case of a number, as a page that stands alone.
#[derive(Clone, Copy)]
pub struct CaseSheet {
    pub number: u32,
}

impl Question for CaseSheet {
    ghost use Rattle.docket_questions.specs.Texts.{page_of_sheet};

    ghost Text = { λ asked court h. page_of_sheet court h asked.number };

    fn ask<S: Alter>(
        &self,
        alloc: Global,
        docket: &mut Docket<S>,
    ) -> Result<Option<String>, Fault> {
        tell_case(alloc, docket, Telling::Sheet, self.number)
    }
}

/// The case of a number, as a page of the docket on a day, which leads to the others.
#[derive(Clone, Copy)]
pub struct CasePage {
    pub number: u32,
    pub day: Day,
}

impl Question for CasePage {
    ghost use Rattle.docket_questions.specs.Texts.{page_of_case};

    ghost Text = { λ asked court h. page_of_case court h asked.number asked.day };

    fn ask<S: Alter>(
        &self,
        alloc: Global,
        docket: &mut Docket<S>,
    ) -> Result<Option<String>, Fault> {
        tell_case(alloc, docket, Telling::Page(self.day), self.number)
    }
}
