//! Cases of a docket, the newest first.
ghost use Rattle.std.specs.Prelude.{◌≡◌, ◌++◌, ◌∷◌, [], ◌≤◌, false, filter, length, take, OnOk, option_copied};
ghost use Rattle.docket_history.specs.Histories.{History, case_rows};
ghost use Rattle.docket_applying.specs.Applying.{Asks, Stands};
ghost use Rattle.docket_store.specs.Asking.{OnlyAnswers};
ghost use Rattle.docket_questions.specs.Searches.{is_wanted, newest_cases};

use crate::words::{has_words, is_among};
use docket_history::CaseRow;
use docket_store::{Docket, Fault};
use sqlite::Alter;
use std::alloc::Global;

/// Whether a case is wanted, of a docket that is not closed: its caption, or the name of one of its parties,
/// contains the words, where words are given.
fn is_wanted<S: Alter>(
    docket: &mut Docket<S>,
    words: Option<&str>,
    case: &CaseRow,
) -> Result<bool, Fault>
    ensures answer { (h : History) → Stands S.Store docket.old h
        → Asks S.Store docket.new h (λ wanted. wanted ≡ is_wanted h (option_copied words.entry) case.now) result }
    ensures only { docket.old.closed ≡ false → OnlyAnswers S.Store docket.old docket.new result }
{
    let Some(words) = words else {
        return Ok(true);
    };
    if has_words(case.caption.as_str(), words) {
        return Ok(true);
    }
    let parties = docket.parties(case.number)?;
    Ok(is_among(parties.as_slice(), words))
}

/// Adds a case, if it is wanted.
fn push_wanted<S: Alter>(
    docket: &mut Docket<S>,
    words: Option<&str>,
    case: CaseRow,
    found: &mut Vec<CaseRow>,
) -> Result<(), Fault>
    ensures answer { (h : History) → Stands S.Store docket.old h
        → Asks S.Store docket.new h (λ _. found.new.items ≡ found.old.items ++ filter (is_wanted h (option_copied words.entry)) (case ∷ [])) result }
    ensures only { docket.old.closed ≡ false → OnlyAnswers S.Store docket.old docket.new result }
{
    if is_wanted(docket, words, &case)? {
        found.push(case)?;
    }
    Ok(())
}

/// At most so many of the wanted cases with numbers up to `last`, the newest first, of a docket that is not
/// closed.
pub(crate) fn newest_cases<S: Alter>(
    alloc: Global,
    docket: &mut Docket<S>,
    words: Option<&str>,
    last: u32,
    most: usize,
) -> Result<Vec<CaseRow>, Fault>
    ensures answer { (h : History) → Stands S.Store docket.old h
        → Asks S.Store docket.new h (λ found. last ≤ length (case_rows h) → found.items ≡ take most (newest_cases h (option_copied words.entry) last)) result }
    ensures only { docket.old.closed ≡ false → OnlyAnswers S.Store docket.old docket.new result }
{
    let mut found = Vec::new(alloc);
    'cases: for newer in 0..last {
        if found.len() == most {
            return Ok(found);
        }
        match docket.case_row(last - newer)? {
            Some(case) => push_wanted(docket, words, case, &mut found)?,
            None => return Ok(found),
        }
    }
    Ok(found)
}
