//! The list of cases.
ghost use Rattle.std.specs.Prelude.{◌≡◌, IfOk, string_bytes};
ghost use Rattle.html_sheets.specs.Pages.{cases_head, case_row, cases_foot};

use crate::piece::{CaseLink, DayTold, Told, table_foot};
use docket_history::CaseRow;
use std::alloc::{AllocError, Global};

/// The list of cases up to its rows.
#[tactic(auto, unfolding(crate::specs::Elements::element))]
pub(crate) fn cases_head() -> &'static str
    ensures { result.now ≡ cases_head }
{
    "<table>\n<thead>\n<tr><th scope=\"col\">Case</th><th scope=\"col\">Docket number</th>\
     <th scope=\"col\">Filed</th><th scope=\"col\">Caption</th></tr>\n</thead>\n<tbody>\n"
}

/// The row of a case: its number, which leads to its page, its docket number, the day on which it was filed,
/// and its caption.
pub(crate) fn case_row(alloc: Global, case: &CaseRow) -> Result<String, AllocError>
    ensures { IfOk result (λ text. string_bytes text ≡ case_row case.now) }
{
    let label = case.label.as_str();
    let caption = case.caption.as_str();
    let link = CaseLink(case.number);
    let label = Told(label);
    let filed = DayTold(case.filed);
    let caption = Told(caption);
    format!(in alloc;
        "<tr><th scope=\"row\" class=\"number\">{link}</th><td>{label}</td><td>{filed}</td><td>{caption}</td></tr>\n"
    )
}

/// What ends the list.
pub(crate) fn cases_foot() -> &'static str
    ensures { result.now ≡ cases_foot }
{
    table_foot()
}
