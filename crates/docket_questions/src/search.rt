//! A search for cases.
ghost use Rattle.std.specs.Prelude.{◌≡◌, ◌≤◌, IfOk, length, nat_lt, string_bytes, take};
ghost use Rattle.docket_history.specs.Histories.{History};
ghost use Rattle.docket_applying.specs.Applying.{Asks, Stands};
ghost use Rattle.docket_store.specs.Asking.{OnlyAnswers};
ghost use Rattle.docket_questions.specs.Searches.{found_cases};
ghost use Rattle.html_sheets.specs.Sites.{search_page};

use crate::newest::newest_cases;
use crate::question::Question;
use court_days::Day;
use docket_history::CaseRow;
use docket_store::{Docket, Fault};
use html_sheets::search_page;
use sqlite::Alter;
use std::alloc::{AllocError, Global};

/// The most cases that a search shows.
const CASES_FOUND: usize = 100;

/// At most so many of the cases that a search finds, which is at least one.
pub(crate) fn found_cases<S: Alter>(
    alloc: Global,
    docket: &mut Docket<S>,
    words: &str,
    most: usize,
) -> Result<Vec<CaseRow>, Fault>
    ensures answer { (h : History) → Stands S.Store docket.old h
        → Asks S.Store docket.new h (λ found. 1 ≤ most → found.items ≡ take most (found_cases h words.now)) result }
    ensures only { OnlyAnswers S.Store docket.old docket.new result }
{
    match docket.case_labelled(words)? {
        Some(case) => {
            let found = Vec::from_array(alloc, [case])?;
            Ok(found)
        }
        None => {
            let count = docket.count_cases()?;
            newest_cases(alloc, docket, Some(words), count, most)
        }
    }
}

/// The page on a day of the cases that were found: at most a hundred, and whether there are more.
fn page_of_found(
    alloc: Global,
    words: &str,
    found: &[CaseRow],
    day: Day,
) -> Result<String, AllocError>
    ensures { IfOk result (λ page. string_bytes page ≡ search_page words.now (take 100 found.now) (nat_lt 100 (length found.now)) day) }
{
    let shown = found.len().min(CASES_FOUND);
    let more = found.len() > CASES_FOUND;
    search_page(alloc, words, &found[..shown], more, day)
}

/// The cases that words find: the case whose label they are; without one those whose caption, or the name of
/// one of whose parties, contains them without regard to the case of ASCII letters, the newest first. The
/// page shows at most a hundred, and whether there are more.
#[derive(Clone, Copy)]
pub struct SearchPage<'a> {
    pub words: &'a str,
    pub day: Day,
}

impl Question for SearchPage<'_> {
    ghost use Rattle.std.specs.Prelude.{Some};
    ghost use Rattle.docket_questions.specs.Searches.{page_of_search};

    ghost Text = { λ asked _ h. Some (page_of_search h asked.words.now asked.day) };

    fn ask<S: Alter>(
        &self,
        alloc: Global,
        docket: &mut Docket<S>,
    ) -> Result<Option<String>, Fault> {
        let found = found_cases(alloc, docket, self.words, CASES_FOUND + 1)?;
        let page = page_of_found(alloc, self.words, found.as_slice(), self.day)?;
        Ok(Some(page))
    }
}
