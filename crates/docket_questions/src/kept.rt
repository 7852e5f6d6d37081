//! The case of a deadline in a list, and its parties. It is kept for the deadlines of the same case that follow.
ghost use Rattle.std.specs.Prelude.{◌≡◌, false};
ghost use Rattle.sqlite.specs.Held.{state};
ghost use Rattle.sqlite.specs.State.{HasCleanDisk};
ghost use Rattle.docket_history.specs.Histories.{History, case_rows};
ghost use Rattle.docket_applying.specs.Applying.{Asks, Stands};
ghost use Rattle.docket_store.specs.Asking.{OnlyAnswers};
ghost use Rattle.docket_questions.specs.Kept.{IsCase, IsOfDocket, KeepsCase};

use docket_history::{CaseRow, PartyRow};
use docket_store::{Docket, Fault};
use sqlite::Alter;

/// A case that the docket was asked for by its number, and its parties.
#[derive(Drop)]
pub(crate) struct CaseAsked {
    pub(crate) number: u32,
    pub(crate) case: CaseRow,
    pub(crate) parties: Vec<PartyRow>,
}

/// Asks for the case of the number of a case.
fn ask_case<S: Alter>(docket: &mut Docket<S>, number: u32) -> Result<CaseAsked, Fault>
    ensures answer { (h : History) → Stands S.Store docket.old h
        → (HasCleanDisk (state S.Store docket.old.conn) → IsCase (case_rows h) number)
        → Asks S.Store docket.new h (λ asked. (asked.number ≡ number) × IsOfDocket h asked) result }
    ensures only { OnlyAnswers S.Store docket.old docket.new result }
{
    // A sound docket has no deadline without its case.
    let Some(case) = docket.case_row(number)? else {
        return Err(Fault::Damaged);
    };
    let parties = docket.parties(number)?;
    Ok(CaseAsked {
        number,
        case,
        parties,
    })
}

/// Returns the case of the number of a case: the one that is kept, or else one that it asks for of a docket that
/// is not closed.
pub(crate) fn case_numbered<S: Alter>(
    docket: &mut Docket<S>,
    kept: Option<CaseAsked>,
    number: u32,
) -> Result<CaseAsked, Fault>
    ensures answer { (h : History) → Stands S.Store docket.old h
        → (HasCleanDisk (state S.Store docket.old.conn) → IsCase (case_rows h) number)
        → Asks S.Store docket.new h (λ asked. KeepsCase h kept → (asked.number ≡ number) × IsOfDocket h asked) result }
    ensures only { docket.old.closed ≡ false → OnlyAnswers S.Store docket.old docket.new result }
{
    match kept {
        Some(asked) if asked.number == number => Ok(asked),
        _ => ask_case(docket, number),
    }
}
