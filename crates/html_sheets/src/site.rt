//! The pages of a docket that is served.
ghost use Rattle.std.specs.Prelude.{◌≡◌, ◌++◌, IfOk, OnOk, string_bytes};
ghost use Rattle.std.specs.List.{flat_map};
ghost use Rattle.html_sheets.specs.Pages.{case_row};
ghost use Rattle.html_sheets.specs.Sites.{site_nav, more_cases, cases_page, case_page, days_page_head};

use crate::cases::{case_row, cases_foot, cases_head};
use crate::due_list::DueList;
use crate::links::Links;
use crate::page::{page_head, push_site_foot};
use crate::sheet::case_sheet;
use crate::week::week_head;
use court_days::{Court, Day};
use docket_history::{CaseRecord, CaseRow, DeadlineLine};
use std::alloc::{AllocError, Global};
use std::fmt;

/// What the content of each page begins with: links to the lists, to the forms in which commands are entered,
/// to the court's calendar and to the rules, a form that searches for cases, and one that asks for the
/// deadlines in the seven days from a day. It has no script.
#[tactic(auto, unfolding(crate::specs::Elements::element, crate::specs::Sites::site_nav))]
pub fn site_nav() -> &'static str
    ensures { result.now ≡ site_nav }
{
    "<nav aria-label=\"Docket\"><a href=\"/pages/cases\">Cases</a>\n\
     <a href=\"/pages/today\">Today</a>\n\
     <a href=\"/pages/week\">This week</a>\n\
     <a href=\"/pages/overdue\">Overdue</a>\n\
     <a href=\"/pages/enter\">Enter</a>\n\
     <a href=\"/pages/court-days\">Court days</a>\n\
     <a href=\"/pages/rules\">Rules</a>\n\
     <form action=\"/pages/search\" role=\"search\"><label>Docket number, caption or name \
     <input type=\"search\" name=\"find\" maxlength=\"100\" required></label> \
     <button>Find</button></form>\n\
     <form action=\"/pages/calendar\"><label>Deadlines in the seven days from \
     <input type=\"date\" name=\"from\" min=\"1980-01-01\" max=\"3999-12-31\" required></label> \
     <button>Show</button></form></nav>\n"
}

/// A link to the list of the cases before a number.
#[derive(Clone, Copy)]
struct CasesLink<'a> {
    before: u32,
    words: &'a str,
}

impl fmt::Display for CasesLink<'_> {
    ghost use Rattle.std.specs.Prelude.{Some};
    ghost use Rattle.html_sheets.specs.Sites.{cases_link};

    ghost output = { λ link. Some (cases_link link.before link.words.now) };

    #[tactic(auto, unfolding(crate::specs::Elements::element))]
    fn fmt<W: fmt::Write>(&self, f: &mut fmt::Formatter<W>) -> fmt::Result {
        let before = self.before;
        let words = self.words;
        write!(f, "<a href=\"/pages/cases?before={before}\">{words}</a>")
    }
}

/// Adds links to the cases that are newer than those of a list and to those that are older, where there are
/// any.
fn push_more(text: &mut String, newer: Option<u32>, older: Option<u32>) -> Result<(), AllocError>
    ensures { OnOk result (string_bytes text.new ≡ string_bytes text.old ++ more_cases newer older) }
{
    match (newer, older) {
        (None, None) => Ok(()),
        (Some(before), None) => {
            let link = CasesLink {
                before,
                words: "Newer cases",
            };
            write!(text, "<nav aria-label=\"More cases\">{link}</nav>\n")
        }
        (None, Some(before)) => {
            let link = CasesLink {
                before,
                words: "Older cases",
            };
            write!(text, "<nav aria-label=\"More cases\">{link}</nav>\n")
        }
        (Some(above), Some(below)) => {
            let newer = CasesLink {
                before: above,
                words: "Newer cases",
            };
            let older = CasesLink {
                before: below,
                words: "Older cases",
            };
            write!(
                text,
                "<nav aria-label=\"More cases\">{newer} {older}</nav>\n"
            )
        }
    }
}

/// Adds the row of a case.
fn push_row(alloc: Global, text: &mut String, case: &CaseRow) -> Result<(), AllocError>
    ensures { OnOk result (string_bytes text.new ≡ string_bytes text.old ++ case_row case.now) }
{
    let row = case_row(alloc, case)?;
    text.push_str(&row)
}

/// Adds a row for each case.
pub(crate) fn push_rows(
    alloc: Global,
    text: &mut String,
    cases: &[CaseRow],
) -> Result<(), AllocError>
    ensures { OnOk result (string_bytes text.new ≡ string_bytes text.old ++ flat_map case_row cases.now) }
{
    for case in cases {
        push_row(alloc, text, case)?;
    }
    Ok(())
}

/// Returns the page of a list of cases on a day, a row each. It has links to the cases before the number
/// `newer`, and to those before `older`, if these are given.
pub fn cases_page(
    alloc: Global,
    cases: &[CaseRow],
    newer: Option<u32>,
    older: Option<u32>,
    day: Day,
) -> Result<String, AllocError>
    ensures { IfOk result (λ text. string_bytes text ≡ cases_page cases.now newer older day) }
{
    let mut text = page_head(alloc, "Cases")?;
    text.push_str(site_nav())?;
    text.push_str(cases_head())?;
    push_rows(alloc, &mut text, cases)?;
    text.push_str(cases_foot())?;
    push_more(&mut text, newer, older)?;
    push_site_foot(&mut text, day)?;
    Ok(text)
}

/// The page of a case on a day: its docket sheet under its label.
pub fn case_page(
    alloc: Global,
    court: &Court,
    case: &CaseRecord,
    deadlines: &[DeadlineLine],
    day: Day,
) -> Result<String, AllocError>
    ensures { IfOk result (λ text. string_bytes text ≡ case_page court.now case.now deadlines.now day) }
{
    let mut text = page_head(alloc, case.label.as_str())?;
    text.push_str(site_nav())?;
    let sheet = case_sheet(alloc, Links::Pages, court, case, deadlines)?;
    text.push_str(&sheet)?;
    push_site_foot(&mut text, day)?;
    Ok(text)
}

/// The page of what is due from a day to another, up to its rows.
pub fn days_page_head(
    alloc: Global,
    list: DueList,
    court: &Court,
    from: Day,
    to: Day,
) -> Result<String, AllocError>
    ensures { IfOk result (λ text. string_bytes text ≡ days_page_head list court.now from to) }
{
    let mut text = page_head(alloc, list.title())?;
    text.push_str(site_nav())?;
    let week = week_head(alloc, list, court, from, to)?;
    text.push_str(&week)?;
    Ok(text)
}
