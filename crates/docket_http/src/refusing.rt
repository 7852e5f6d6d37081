//! The pages of requests that are refused.
ghost use Rattle.std.specs.Prelude.{◌≡◌, IfOk, IfErr};
ghost use Rattle.docket_applying.specs.declared.fault.Fault.TheVariants.{NoMemory};
ghost use Rattle.docket_http.specs.Answer.{refusal_page, rejection_sentence};
ghost use Rattle.docket_http.specs.Reply.{IsReply};

use crate::problem::Problem;
use crate::reply::{Reply, words_reply};
use docket_store::Fault;
use http_request::Rejection;
use std::alloc::Global;

/// Why a request is refused, and what to do.
fn rejection_sentence(rejection: Rejection) -> &'static str
    ensures { result.now ≡ rejection_sentence rejection }
{
    match rejection {
        Rejection::HeadTooLong => "The address is too long. Begin at Cases.",
        Rejection::BadHead => "The request could not be read. Begin at Cases.",
        Rejection::NotFound => "There is no such page. Begin at Cases.",
        Rejection::Method => "This address is not opened in this way. Begin at Cases.",
        Rejection::BadPathValue =>
            "A value in the address is not right: a number is 1 or more, a day is YYYY-MM-DD, and a search has 1 to 100 bytes. Correct it, or begin at Cases.",
        Rejection::LengthRequired =>
            "The form came without its length. Open it again in a browser.",
        Rejection::TooLong => "The form is too long. Shorten it, and enter it again.",
        Rejection::Foreign => "The request came from another site. Begin at Cases.",
        Rejection::MediaType => "The form was not sent as a form. Open it again in a browser.",
    }
}

/// The page of a refused request.
pub(crate) fn refusal_reply(alloc: Global, rejection: Rejection) -> Result<Reply, Fault>
    ensures reply { IfOk result (λ reply. IsReply reply (refusal_page rejection)) }
    ensures short { IfErr result (λ e. e ≡ NoMemory) }
{
    let status = Problem::Rejected(rejection).status();
    words_reply(
        alloc,
        status,
        "Request refused",
        rejection_sentence(rejection),
    )
}
