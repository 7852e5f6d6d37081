//! The answers to a command: as JSON for a program, and for a browser that sent a form.
ghost use Rattle.std.specs.Prelude.{◌≡◌, ℕ, List, IfOk, IfErr};
ghost use Rattle.command_forms.specs.Forms.{texts_of};
ghost use Rattle.docket_applying.specs.declared.fault.Fault.TheVariants.{NoMemory};
ghost use Rattle.docket_wire.specs.Texts.{reply_text, fault_text};
ghost use Rattle.entry_pages.specs.Pages.{form_again};
ghost use Rattle.entry_pages.specs.Saying.{saying_of};
ghost use Rattle.docket_http.specs.Answer.{json, page};
ghost use Rattle.docket_http.specs.Entering.{manner_of, said_status, said_response, page_said, fault_response};
ghost use Rattle.docket_http.specs.Reply.{IsReply};

use crate::head::Form;
use crate::place::place_after;
use crate::reply::{Reply, built, json_reply};
use command_forms::Pair;
use docket_command::{Command, Refusal, Reply as Number};
use docket_store::Fault;
use docket_wire::{WireFault, reply_text, wire_fault_text};
use entry_pages::{Said, form_again};
use http::StatusCode;
use std::alloc::Global;

/// How the outcome of a command is written.
#[derive(Drop)]
pub(crate) enum Writing {
    Json,
    /// For a browser that sent a form of these pairs. The number makes the key of the form that it gets again.
    Pages { fresh: u64, pairs: Vec<Pair> },
}

fn status_of(said: &Result<Number, Refusal>) -> StatusCode
    ensures { result ≡ said_status said.now }
{
    match said {
        Ok(_) => StatusCode::OK,
        Err(_) => StatusCode::CONFLICT,
    }
}

/// The form again, with what is said of it.
pub(crate) fn form_page(
    alloc: Global,
    status: StatusCode,
    fresh: u64,
    pairs: &[Pair],
    said: Said<'_>,
) -> Result<Reply, Fault>
    ensures reply { IfOk result (λ reply. IsReply reply (page status (form_again fresh (texts_of pairs.now) (saying_of said.entry)))) }
    ensures short { IfErr result (λ e. e ≡ NoMemory) }
{
    let text = form_again(alloc, fresh, pairs, said)?;
    built(alloc, status, Form::Html, text)
}

/// The reply to a command or its refusal, for a browser that sent a form of these pairs.
fn page_reply(
    alloc: Global,
    fresh: u64,
    pairs: &[Pair],
    command: &Command,
    said: &Result<Number, Refusal>,
) -> Result<Reply, Fault>
    ensures reply { IfOk result (λ reply. IsReply reply (page_said fresh (texts_of pairs.now) command.now said.now)) }
    ensures short { IfErr result (λ e. e ≡ NoMemory) }
{
    match said {
        Ok(reply) => {
            let place = place_after(command, *reply);
            built(
                alloc,
                StatusCode::SEE_OTHER,
                Form::Seen(place),
                String::new(alloc),
            )
        }
        Err(refusal) => form_page(
            alloc,
            StatusCode::CONFLICT,
            fresh,
            pairs,
            Said::Refused(*refusal),
        ),
    }
}

/// The reply to a command or its refusal, as JSON.
fn text_reply(alloc: Global, said: &Result<Number, Refusal>) -> Result<Reply, Fault>
    ensures reply { IfOk result (λ reply. IsReply reply (json (said_status said.now) (reply_text said.now))) }
    ensures short { IfErr result (λ e. e ≡ NoMemory) }
{
    let text = reply_text(alloc, said)?;
    json_reply(alloc, status_of(said), text)
}

/// The fault of a text that spells no command, as JSON.
fn text_fault(alloc: Global, fault: WireFault) -> Result<Reply, Fault>
    ensures reply { IfOk result (λ reply. IsReply reply (json 400 (fault_text fault))) }
    ensures short { IfErr result (λ e. e ≡ NoMemory) }
{
    let text = wire_fault_text(alloc, &fault)?;
    json_reply(alloc, StatusCode::BAD_REQUEST, text)
}

/// The answer to a command, by its reply or its refusal.
pub(crate) fn said_reply(
    alloc: Global,
    writing: &Writing,
    command: &Command,
    said: &Result<Number, Refusal>,
) -> Result<Reply, Fault>
    ensures reply { IfOk result (λ reply. IsReply reply (said_response (manner_of writing.now) command.now said.now)) }
    ensures short { IfErr result (λ e. e ≡ NoMemory) }
{
    match writing {
        Writing::Json => text_reply(alloc, said),
        Writing::Pages { fresh, pairs } => page_reply(alloc, *fresh, pairs, command, said),
    }
}

/// The answer to a text that spells no command.
pub(crate) fn fault_reply(
    alloc: Global,
    writing: &Writing,
    fault: WireFault,
) -> Result<Reply, Fault>
    ensures reply { IfOk result (λ reply. IsReply reply (fault_response (manner_of writing.now) fault)) }
    ensures short { IfErr result (λ e. e ≡ NoMemory) }
{
    match writing {
        Writing::Json => text_fault(alloc, fault),
        Writing::Pages { fresh, pairs } => form_page(
            alloc,
            StatusCode::BAD_REQUEST,
            *fresh,
            pairs,
            Said::Faulty(fault),
        ),
    }
}
