//! The pages, which are served beside the routes of the docket.
ghost use Rattle.std.specs.Prelude.{◌≡◌, codes, option_copied};
ghost use Rattle.http_request.specs.Rows.{route_rows};
ghost use Rattle.http_request.specs.Path.{behind as behind_word};
ghost use Rattle.http_request.specs.Deadlines.{deadline_page as deadline_page_of};
ghost use Rattle.http_request.specs.Pages.{pages_rest, list_page as list_by_query, search_page as search_by_query, week_page as week_by_query, days_page as page_of_days, page_at, numbered_page as numbered_page_of, named_page as named_page_of, page_of};

use crate::days::{read_range, read_week};
use crate::deadline::deadline_page;
use crate::entry::entry_page;
use crate::number::read_number;
use crate::place::{RouteMatch, find};
use crate::route::Route;
use crate::search::{Words, read_words};
use crate::target::behind;
use civil_time::Day;
use docket_command::CommandName;
use html_sheets::{About, Due};
use matchit::Router;

/// Which routes are served.
#[derive(Drop)]
pub enum Routes {
    /// The five of the docket.
    Docket,
    /// Those, at these origins, as `http://127.0.0.1:8080`. What comes from elsewhere is refused.
    Guarded(Vec<String>),
    /// Those and the pages, at these origins. What comes from elsewhere is refused.
    WithPages(Vec<String>),
}

/// A page of a docket.
#[derive(Clone, Copy)]
pub enum Page {
    /// At most a hundred cases, the newest first: those with numbers under the given one, or the last that there are.
    Cases(Option<u32>),
    /// The docket sheet of the case of a number.
    Case(u32),
    /// What is due on the days from the first to the last.
    Days(Day, Day),
    /// What is due by the day of the request.
    Due(Due),
    /// The cases that the words are found in.
    Search(Words),
    /// The list of the kinds of commands.
    Kinds,
    /// The form of a kind of command, about a case, a party or a deadline.
    Enter(CommandName, About),
    /// The rows of the court calendar.
    CourtDays,
    /// The local rules.
    Rules,
    /// The reasons for a deadline: the number of its case, and its own.
    Reasons(u32, u32),
}

/// What a path has behind "/pages", where pages are served.
pub fn behind_pages<'p>(routes: &Routes, path: &'p str) -> Option<&'p str>
    ensures { option_copied result ≡ pages_rest routes.now path.now }
{
    match routes {
        Routes::Docket | Routes::Guarded(_) => None,
        Routes::WithPages(_) => behind(path, "/pages"),
    }
}

// The list of cases: without a query the last that there are, and else those before the one that the query names.
fn list_page(query: Option<&str>) -> Option<Page>
    ensures { result ≡ list_by_query (option_copied query.entry) }
{
    match query {
        None => Some(Page::Cases(None)),
        Some(query) => Some(Page::Cases(Some(read_number(behind(query, "before=")?)?))),
    }
}

// The cases that the words of the query are found in.
fn search_page(query: Option<&str>) -> Option<Page>
    ensures { result ≡ search_by_query (option_copied query.entry) }
{
    Some(Page::Search(read_words(query?)?))
}

fn days_page(days: Option<(Day, Day)>) -> Option<Page>
    ensures { result ≡ page_of_days days }
{
    let (first, last) = days?;
    Some(Page::Days(first, last))
}

// The week from the day that the query names.
fn week_page(query: Option<&str>) -> Option<Page>
    ensures { result ≡ week_by_query (option_copied query.entry) }
{
    days_page(read_week(behind(query?, "from=")?))
}

// The page beside a route, where it has one. Its values may be bad.
fn found_page(found: RouteMatch<'_>) -> Option<Option<Page>>
    ensures { result ≡ page_at found.entry.route found.entry.first.now found.entry.second.now }
{
    match found.route {
        Route::Case => Some(read_number(found.first).map(Page::Case)),
        Route::Calendar => Some(days_page(read_range(found.first, found.second))),
        Route::Commands | Route::Deadlines | Route::Holidays => None,
    }
}

// The page of a deadline, where the path goes on to one, and else that beside the path's route.
fn numbered_page(router: &Router<Route>, rest: &str) -> Option<Option<Page>>
    requires { router.now ≡ route_rows }
    ensures { result ≡ numbered_page_of (deadline_page_of rest.now) rest.now }
{
    match deadline_page(rest) {
        Some(page) => Some(page),
        None => found_page(find(router, rest)?),
    }
}

// The form that a word behind "/enter/" names, where the path has one, and else a page with a number or a day in
// its path.
fn named_page(router: &Router<Route>, rest: &str, query: Option<&str>) -> Option<Option<Page>>
    requires { router.now ≡ route_rows }
    ensures { result ≡ named_page_of (behind_word (codes "/enter/") rest.now) rest.now (option_copied query.entry) }
{
    match behind(rest, "/enter/") {
        Some(word) => entry_page(word, query),
        None => numbered_page(router, rest),
    }
}

/// The page that the rest of a path asks for, with the query. A value in them may be bad.
pub fn find_page(router: &Router<Route>, rest: &str, query: Option<&str>) -> Option<Option<Page>>
    requires { router.now ≡ route_rows }
    ensures { result ≡ page_of rest.now (option_copied query.entry) }
{
    match rest {
        "" | "/" | "/cases" => Some(list_page(query)),
        "/today" => Some(Some(Page::Due(Due::Today))),
        "/week" => Some(Some(Page::Due(Due::Week))),
        "/overdue" => Some(Some(Page::Due(Due::Overdue))),
        "/search" => Some(search_page(query)),
        "/calendar" => Some(week_page(query)),
        "/court-days" => Some(Some(Page::CourtDays)),
        "/rules" => Some(Some(Page::Rules)),
        "/enter" => Some(Some(Page::Kinds)),
        _ => named_page(router, rest, query),
    }
}
