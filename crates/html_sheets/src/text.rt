//! Pages of texts of several lines.
ghost use Rattle.std.specs.Prelude.{◌≡◌, ◌++◌, IfOk, OnOk, string_bytes};
ghost use Rattle.html_sheets.specs.Pages.{page_head};
ghost use Rattle.html_sheets.specs.Sites.{text_told, text_page, printed_page, reasons_title, case_back, reasons_page};

use crate::about::About;
use crate::entering::{deadline_kinds, push_enter_nav};
use crate::filed::{Filed, filed_told};
use crate::page::{page_foot, page_head, push_site_foot};
use crate::piece::{CaseLink, LinesTold};
use crate::site::site_nav;
use court_days::Day;
use std::alloc::{AllocError, Global};

/// Adds a text of several lines.
fn push_lines(page: &mut String, text: &str) -> Result<(), AllocError>
    ensures { OnOk result (string_bytes page.new ≡ string_bytes page.old ++ text_told text.now) }
{
    let lines = LinesTold(text);
    write!(page, "{lines}\n")
}

/// Returns the page of a text of several lines under a title, such as why a request was refused.
pub fn text_page(alloc: Global, title: &str, text: &str) -> Result<String, AllocError>
    ensures { IfOk result (λ page. string_bytes page ≡ text_page title.now text.now) }
{
    let mut page = page_head(alloc, title)?;
    page.push_str(site_nav())?;
    push_lines(&mut page, text)?;
    page.push_str(page_foot())?;
    Ok(page)
}

/// Returns the page of a text of the docket on a day, such as the rules, under a title.
pub fn printed_page(alloc: Global, title: &str, text: &str, day: Day) -> Result<String, AllocError>
    ensures { IfOk result (λ page. string_bytes page ≡ printed_page title.now text.now day) }
{
    let mut page = page_head(alloc, title)?;
    page.push_str(site_nav())?;
    push_lines(&mut page, text)?;
    push_site_foot(&mut page, day)?;
    Ok(page)
}

/// The title of the page of a deadline of a case.
fn reasons_title(alloc: Global, case: u32, deadline: u32) -> Result<String, AllocError>
    ensures { IfOk result (λ title. string_bytes title ≡ reasons_title case deadline) }
{
    format!(in alloc; "Why deadline {deadline} of case {case} stands as it does")
}

/// Adds a link back to a case.
#[tactic(auto, unfolding(crate::specs::Elements::element))]
fn push_back(page: &mut String, case: u32) -> Result<(), AllocError>
    ensures { OnOk result (string_bytes page.new ≡ string_bytes page.old ++ case_back case) }
{
    let link = CaseLink(case);
    write!(page, "<p>Case {link}</p>\n")
}

/// The head of the page of a deadline of a case.
fn reasons_head(alloc: Global, case: u32, deadline: u32) -> Result<String, AllocError>
    ensures { IfOk result (λ page. string_bytes page ≡ page_head (reasons_title case deadline)) }
{
    let title = reasons_title(alloc, case, deadline)?;
    page_head(alloc, &title)
}

/// Returns the page of a deadline of a case on a day, by its number: whether what it asks for was done in
/// time, the text of why it stands as it does, and links to its case and to the forms in which is entered what
/// acts on it.
pub fn reasons_page(
    alloc: Global,
    case: u32,
    deadline: u32,
    text: &str,
    filed: Filed,
    day: Day,
) -> Result<String, AllocError>
    ensures { IfOk result (λ page. string_bytes page ≡ reasons_page case deadline text.now filed day) }
{
    let mut page = reasons_head(alloc, case, deadline)?;
    page.push_str(site_nav())?;
    push_back(&mut page, case)?;
    page.push_str(filed_told(filed))?;
    push_enter_nav(&mut page, About::Deadline(case, deadline), deadline_kinds())?;
    push_lines(&mut page, text)?;
    push_site_foot(&mut page, day)?;
    Ok(page)
}
