//! The page of the reasons for a deadline, by its path.
ghost use Rattle.std.specs.Prelude.{◌≡◌};
ghost use Rattle.http_request.specs.Deadlines.{case_path as case_path_of, deadline_page as deadline_page_of, reasons_page as reasons_page_of};

use crate::number::read_number;
use crate::page::Page;
use crate::target::behind;

// The page of the deadline whose number a text is, of the case whose number a text is.
fn reasons_page(case: &str, deadline: &str) -> Option<Page>
    ensures { result ≡ reasons_page_of case.now deadline.now }
{
    Some(Page::Reasons(read_number(case)?, read_number(deadline)?))
}

// The page that a path asks for by what stands behind "/cases/", where it goes on to a deadline.
fn case_path(text: &str) -> Option<Option<Page>>
    ensures { result ≡ case_path_of text.now }
{
    match text.split_once('/') {
        Some((case, rest)) => Some(reasons_page(case, behind(rest, "deadlines/")?)),
        None => None,
    }
}

/// The page of the reasons for a deadline, where the rest of a path is `/cases/N/deadlines/D`. A number may be bad.
pub fn deadline_page(rest: &str) -> Option<Option<Page>>
    ensures { result ≡ deadline_page_of rest.now }
{
    case_path(behind(rest, "/cases/")?)
}
