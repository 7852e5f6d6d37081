//! Links to the forms: which kind of command a form enters, and what the query says that it is about.
ghost use Rattle.std.specs.Prelude.{◌≡◌, option_copied};
ghost use Rattle.http_request.specs.Entries.{about_of, case_about as case_about_of, entered_kind as entered_kind_of, entry_page as entry_page_of, kind_page as page_of_kind, more_about as more_about_of};

use crate::number::read_number;
use crate::page::Page;
use crate::target::behind;
use docket_command::{CommandName, from_word};
use html_sheets::About;

// The party or the deadline that stands behind the number of its case.
fn more_about(case: u32, more: &str) -> Option<About>
    ensures { result ≡ more_about_of case more.now }
{
    match behind(more, "party=") {
        Some(party) => Some(About::Party(case, read_number(party)?)),
        None => Some(About::Deadline(case, read_number(behind(more, "deadline=")?)?)),
    }
}

// What the text behind "case=" is about.
fn case_about(text: &str) -> Option<About>
    ensures { result ≡ case_about_of text.now }
{
    match text.split_once('&') {
        Some((case, more)) => more_about(read_number(case)?, more),
        None => Some(About::Case(read_number(text)?)),
    }
}

/// What a query is about: `case=N`, `case=N&party=P` or `case=N&deadline=D`. Without a query it is nothing.
fn read_about(query: Option<&str>) -> Option<About>
    ensures { result ≡ about_of (option_copied query.entry) }
{
    match query {
        None => Some(About::Nothing),
        Some(query) => case_about(behind(query, "case=")?),
    }
}

// The kind of command that a form enters. No form enters the table of a calendar.
fn entered_kind(word: &str) -> Option<CommandName>
    ensures { result ≡ entered_kind_of word.now }
{
    match word {
        "import_calendar" => None,
        _ => from_word(word),
    }
}

fn kind_page(kind: CommandName, about: Option<About>) -> Option<Page>
    ensures { result ≡ page_of_kind kind about }
{
    Some(Page::Enter(kind, about?))
}

/// The form of the kind that a word names, where there is one, about what the query says. The query may be bad.
pub fn entry_page(word: &str, query: Option<&str>) -> Option<Option<Page>>
    ensures { result ≡ entry_page_of word.now (option_copied query.entry) }
{
    let kind = entered_kind(word)?;
    Some(kind_page(kind, read_about(query)))
}
