//! The cases that a search finds, as lines.
ghost use Rattle.std.specs.Prelude.{◌≡◌, ◌++◌, IfOk, OnOk, string_bytes};
ghost use Rattle.std.specs.List.{flat_map};
ghost use Rattle.std.specs.Option.{option_map};
ghost use Rattle.docket_text.specs.CaseLists.{case_list_line};
ghost use Rattle.docket_questions.specs.Searches.{lines_found};

use crate::question::Question;
use crate::search::found_cases;
use docket_history::CaseRow;
use docket_store::{Docket, Fault};
use docket_text::case_list_line;
use sqlite::Alter;
use std::alloc::{AllocError, Global};

/// How many cases a docket may have.
const MAX_CASES: usize = 100_000;

/// Adds the line of a case.
fn push_line(alloc: Global, text: &mut String, case: &CaseRow) -> Result<(), AllocError>
    ensures { OnOk result (string_bytes text.new ≡ string_bytes text.old ++ case_list_line case.now) }
{
    let line = case_list_line(alloc, case)?;
    text.push_str(&line)
}

/// Adds a line for each case.
fn push_lines(alloc: Global, text: &mut String, cases: &[CaseRow]) -> Result<(), AllocError>
    ensures { OnOk result (string_bytes text.new ≡ string_bytes text.old ++ flat_map case_list_line cases.now) }
{
    for case in cases {
        push_line(alloc, text, case)?;
    }
    Ok(())
}

/// A line for each case, if there is one.
fn lines_found(alloc: Global, cases: &[CaseRow]) -> Result<Option<String>, AllocError>
    ensures { IfOk result (λ text. option_map string_bytes text ≡ lines_found cases.now) }
{
    if cases.is_empty() {
        return Ok(None);
    }
    let mut text = String::new(alloc);
    push_lines(alloc, &mut text, cases)?;
    Ok(Some(text))
}

/// The cases that words find, as the page of a search does, but all of them: a line for each, the newest first,
/// if there is one.
#[derive(Clone, Copy)]
pub struct FoundCases<'a> {
    pub words: &'a str,
}

impl Question for FoundCases<'_> {
    ghost use Rattle.docket_questions.specs.Searches.{text_of_found};

    ghost Text = { λ asked _ h. text_of_found h asked.words.now };

    fn ask<S: Alter>(
        &self,
        alloc: Global,
        docket: &mut Docket<S>,
    ) -> Result<Option<String>, Fault> {
        let found = found_cases(alloc, docket, self.words, MAX_CASES)?;
        let text = lines_found(alloc, found.as_slice())?;
        Ok(text)
    }
}
