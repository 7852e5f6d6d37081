//! The page of a search.
ghost use Rattle.std.specs.Prelude.{◌≡◌, ◌++◌, IfOk, OnOk, string_bytes};
ghost use Rattle.html_sheets.specs.Sites.{words_told, found_told, more_told, search_page};

use crate::cases::{cases_foot, cases_head};
use crate::page::{page_head, push_site_foot};
use crate::piece::Told;
use crate::site::{push_rows, site_nav};
use court_days::Day;
use docket_history::CaseRow;
use std::alloc::{AllocError, Global};

/// Adds the words that are searched for.
fn push_words(page: &mut String, words: &str) -> Result<(), AllocError>
    ensures { OnOk result (string_bytes page.new ≡ string_bytes page.old ++ words_told words.now) }
{
    let words = Told(words);
    write!(page, "<p>Cases found by {words}</p>\n")
}

/// Adds the table of the cases found, or that none was found.
fn push_found(alloc: Global, page: &mut String, cases: &[CaseRow]) -> Result<(), AllocError>
    ensures { OnOk result (string_bytes page.new ≡ string_bytes page.old ++ found_told cases.now) }
{
    if cases.is_empty() {
        page.push_str("<p>No docket number, caption or name has these words.</p>\n")?;
        return Ok(());
    }
    page.push_str(cases_head())?;
    push_rows(alloc, page, cases)?;
    page.push_str(cases_foot())
}

/// The paragraph that there are more cases, where there are.
#[tactic(auto, unfolding(crate::specs::Elements::element))]
fn more_told(more: bool) -> &'static str
    ensures { result.now ≡ more_told more }
{
    match more {
        true => "<p>There are more. Longer words find fewer.</p>\n",
        false => "",
    }
}

/// Returns the page of a search on a day: the words that were searched for, a table of the cases found, and
/// whether there are more.
pub fn search_page(
    alloc: Global,
    words: &str,
    cases: &[CaseRow],
    more: bool,
    day: Day,
) -> Result<String, AllocError>
    ensures { IfOk result (λ page. string_bytes page ≡ search_page words.now cases.now more day) }
{
    let mut page = page_head(alloc, "Search")?;
    page.push_str(site_nav())?;
    push_words(&mut page, words)?;
    push_found(alloc, &mut page, cases)?;
    page.push_str(more_told(more))?;
    push_site_foot(&mut page, day)?;
    Ok(page)
}
