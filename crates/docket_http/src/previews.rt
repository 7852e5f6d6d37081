//! Previews: what a form would do, where nothing is entered.
ghost use Rattle.std.specs.Prelude.{◌≡◌, ℕ, Ok, IfOk, IfErr};
ghost use Rattle.command_forms.specs.Forms.{texts_of};
ghost use Rattle.court_days.specs.Court.{CourtSettings};
ghost use Rattle.docket_history.specs.Histories.{History};
ghost use Rattle.docket_applying.specs.Applying.{Asks, Stands};
ghost use Rattle.docket_applying.specs.declared.fault.Fault.TheVariants.{NoMemory};
ghost use Rattle.docket_questions.specs.Foreseeing.{IsForeseen};
ghost use Rattle.docket_store.specs.Asking.{OnlyAnswers};
ghost use Rattle.http_request.specs.declared.wish.Wish.TheVariants.{Preview as PreviewWish};
ghost use Rattle.docket_http.specs.Previews.{known_words, reading_previewed};
ghost use Rattle.docket_http.specs.Recorded.{RepliesTo};
ghost use Rattle.docket_http.specs.Reply.{IsReply};

use crate::commands::read_form;
use crate::reply::Reply;
use crate::writing::form_page;
use command_forms::Pair;
use docket_command::Command;
use docket_questions::{Foreseen, foreseen};
use docket_store::{Docket, Fault};
use entry_pages::Said;
use http::StatusCode;
use sqlite::Alter;
use std::alloc::Global;

/// What is told of a form that was entered before.
fn known_words() -> &'static str
    ensures { result.now ≡ known_words }
{
    "This form was entered already. The button Enter enters it a second time."
}

/// The form again, with what is foreseen of its command.
fn foreseen_page(
    alloc: Global,
    fresh: u64,
    pairs: &[Pair],
    command: &Command,
    foreseen: &Foreseen,
) -> Result<Reply, Fault>
    ensures reply { (court : CourtSettings) (h : History) → IsForeseen court h command.now foreseen.now
        → IfOk result (λ reply. IsReply reply (reading_previewed court h fresh (texts_of pairs.now) (Ok command.now))) }
    ensures short { IfErr result (λ e. e ≡ NoMemory) }
{
    match foreseen {
        Foreseen::Refused(refusal) => form_page(
            alloc,
            StatusCode::CONFLICT,
            fresh,
            pairs,
            Said::Refused(*refusal),
        ),
        Foreseen::Known(_) => form_page(
            alloc,
            StatusCode::OK,
            fresh,
            pairs,
            Said::Foreseen(known_words()),
        ),
        Foreseen::Accepted(text) => form_page(
            alloc,
            StatusCode::OK,
            fresh,
            pairs,
            Said::Foreseen(text.as_str()),
        ),
    }
}

/// The answer to a preview of a form that spells a command. It writes nothing, whatever the rows of the docket are.
fn foreseen_reply<S: Alter>(
    alloc: Global,
    docket: &mut Docket<S>,
    fresh: u64,
    pairs: &[Pair],
    command: &Command,
) -> Result<Reply, Fault>
    ensures answer { (h : History) → Stands S.Store docket.old h
        → Asks S.Store docket.new h (λ reply. IsReply reply (reading_previewed docket.old.court h fresh (texts_of pairs.now) (Ok command.now))) result }
    ensures only { OnlyAnswers S.Store docket.old docket.new result }
{
    let foreseen = foreseen(alloc, docket, command)?;
    foreseen_page(alloc, fresh, pairs, command, &foreseen)
}

/// The answer to a preview of a form: the form again, with what its command would do, with its refusal, or with the
/// fault for which it spells none. The number makes the key of the form that the browser gets.
pub(crate) fn preview_reply<S: Alter>(
    alloc: Global,
    docket: &mut Docket<S>,
    fresh: u64,
    body: &[u8],
) -> Result<Reply, Fault>
    ensures { (len : ℕ) → RepliesTo S.Store docket.old docket.new (PreviewWish len fresh) body.now result }
{
    let (pairs, read) = read_form(alloc, body)?;
    match read {
        Ok(command) => foreseen_reply(alloc, docket, fresh, &pairs, &command),
        Err(fault) => form_page(
            alloc,
            StatusCode::BAD_REQUEST,
            fresh,
            &pairs,
            Said::Faulty(fault),
        ),
    }
}
