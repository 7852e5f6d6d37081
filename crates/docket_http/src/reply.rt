//! Answers, whole.
ghost use Rattle.std.specs.Prelude.{◌≡◌, ℕ, List, IfOk, IfErr, string_bytes};
ghost use Rattle.docket_applying.specs.declared.fault.Fault.TheVariants.{NoMemory};
ghost use Rattle.html_sheets.specs.Sites.{text_page};
ghost use Rattle.docket_http.specs.Answer.{fine, json, page};
ghost use Rattle.docket_http.specs.Reply.{IsReply, reply_status};
ghost use Rattle.docket_http.specs.declared.head.Form.TheVariants.{File};

use crate::failure::Failure;
use crate::head::{Form, Head};
use crate::problem::Problem;
use docket_store::Fault;
use html_sheets::text_page;
use http::StatusCode;
use std::alloc::{AllocError, Global};

/// An answer.
#[derive(Drop)]
pub(crate) enum Reply {
    /// One that was built. Its body, which may be long, is not copied behind its head.
    Built {
        status: StatusCode,
        head: String,
        body: String,
    },
    /// One with the bytes of a file for its body.
    File {
        head: String,
        body: Vec<u8>,
    },
    /// One that reports a problem.
    Fixed(Problem),
    /// A page that says to a browser that the server fails.
    Shown(Failure),
}

impl Reply {
    pub(crate) fn status(&self) -> StatusCode
        ensures { result ≡ reply_status self.now }
    {
        match self {
            Reply::Built { status, .. } => *status,
            Reply::File { .. } => StatusCode::OK,
            Reply::Fixed(problem) => problem.status(),
            Reply::Shown(failure) => failure.status(),
        }
    }
}

/// An answer of a status, with a body of that form.
pub(crate) fn built(
    alloc: Global,
    status: StatusCode,
    form: Form,
    body: String,
) -> Result<Reply, Fault>
    ensures reply { IfOk result (λ reply. IsReply reply (record { status = status; form = form; body = string_bytes body })) }
    ensures short { IfErr result (λ e. e ≡ NoMemory) }
{
    let len = body.len();
    let head = Head { status, form, len };
    let head = format!(in alloc; "{head}")?;
    Ok(Reply::Built { status, head, body })
}

/// A page of some words under a title.
pub(crate) fn words_reply(
    alloc: Global,
    status: StatusCode,
    title: &str,
    words: &str,
) -> Result<Reply, Fault>
    ensures reply { IfOk result (λ reply. IsReply reply (page status (text_page title.now words.now))) }
    ensures short { IfErr result (λ e. e ≡ NoMemory) }
{
    let text = text_page(alloc, title, words)?;
    built(alloc, status, Form::Html, text)
}

/// An answer in JSON, which ends with a line feed.
pub(crate) fn json_reply(
    alloc: Global,
    status: StatusCode,
    mut text: String,
) -> Result<Reply, Fault>
    ensures reply { IfOk result (λ reply. IsReply reply (json status (string_bytes text))) }
    ensures short { IfErr result (λ e. e ≡ NoMemory) }
{
    text.push('\n')?;
    built(alloc, status, Form::Json, text)
}

/// What was asked for, in that form, unless memory ran out for its text.
pub(crate) fn fine_reply(
    alloc: Global,
    form: Form,
    text: Result<String, AllocError>,
) -> Result<Reply, Fault>
    ensures reply { (bytes : List ℕ) → IfOk text (λ text. string_bytes text ≡ bytes) → IfOk result (λ reply. IsReply reply (fine form bytes)) }
    ensures short { IfErr result (λ e. e ≡ NoMemory) }
{
    let text = text?;
    built(alloc, StatusCode::OK, form, text)
}

/// An answer that is a file.
pub(crate) fn file_reply(alloc: Global, body: Vec<u8>) -> Result<Reply, AllocError>
    ensures { IfOk result (λ reply. IsReply reply (fine File body.items)) }
{
    let head = Head {
        status: StatusCode::OK,
        form: Form::File,
        len: body.len(),
    };
    let head = format!(in alloc; "{head}")?;
    Ok(Reply::File { head, body })
}
