//! The text of a list of cases.
ghost use Rattle.std.specs.Prelude.{◌≡◌, IfOk, string_bytes};
ghost use Rattle.docket_text.specs.CaseLists.{case_list_line};

use crate::time::DayText;
use docket_history::CaseRow;
use std::alloc::{AllocError, Global};

/// The line of a case: its number, its label, the day on which it was filed, and its caption.
pub fn case_list_line(alloc: Global, row: &CaseRow) -> Result<String, AllocError>
    ensures { IfOk result (λ text. string_bytes text ≡ case_list_line row.now) }
{
    let number = row.number;
    let label = row.label.as_str();
    let filed = DayText(row.filed);
    let caption = row.caption.as_str();
    format!(in alloc; "case {number} {label} filed {filed} {caption}\n")
}
