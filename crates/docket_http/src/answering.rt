//! The answer to a request that is answered whole.
ghost use Rattle.std.specs.Prelude.{◌≤◌, Ok, vec_len};
ghost use Rattle.sqlite.specs.Held.{state};
ghost use Rattle.sqlite.specs.State.{HasCleanDisk};
ghost use Rattle.docket_history.specs.Histories.{History};
ghost use Rattle.docket_applying.specs.Applying.{Stands};
ghost use Rattle.http_request.specs.Request.{body_of};
ghost use Rattle.http_request.specs.Wish.{IsWithinLimits};
ghost use Rattle.docket_http.specs.Answer.{Response};
ghost use Rattle.docket_http.specs.Asking.{IsBuilt, IsAnswered};
ghost use Rattle.docket_http.specs.Recorded.{OnlyReplies, RepliesTo};
ghost use Rattle.docket_http.specs.Reply.{IsReply};

use crate::asking::{export_reply, page_reply, question_reply};
use crate::commands::{command_reply, form_reply};
use crate::failure::{Failure, failure_reply};
use crate::head::Form;
use crate::previews::preview_reply;
use crate::problem::Problem;
use crate::refusing::refusal_reply;
use crate::reply::{Reply, fine_reply};
use docket_questions::{CaseText, DeadlinesText};
use docket_store::{Docket, Fault};
use docket_text::holiday_text;
use http_request::{Request, Wish};
use sqlite::Alter;
use std::alloc::Global;

/// Returns the docket's reply to a request whose answer is built before it is written.
fn reply_to<S: Alter>(
    alloc: Global,
    docket: &mut Docket<S>,
    request: &Request,
) -> Result<Reply, Fault>
    requires whole { IsBuilt request.now.wish }
    requires limits { IsWithinLimits request.now.wish }
    requires within { request.now.start ≤ request.now.end × request.now.end ≤ vec_len request.now.came }
    ensures { RepliesTo S.Store docket.old docket.new request.now.wish (body_of request.now) result }
{
    let body = &request.came[request.start..request.end];
    match request.wish {
        Wish::Reject(rejection) => Ok(Reply::Fixed(Problem::Rejected(rejection))),
        Wish::Refuse(rejection) => refusal_reply(alloc, rejection),
        Wish::Command(_) => command_reply(alloc, docket, body),
        Wish::Form(_, fresh) => form_reply(alloc, docket, fresh, body),
        Wish::Preview(_, fresh) => preview_reply(alloc, docket, fresh, body),
        Wish::Case(number) => question_reply(alloc, docket, Form::Text, &CaseText { number }),
        Wish::Deadlines(number) => {
            question_reply(alloc, docket, Form::Text, &DeadlinesText { number })
        }
        Wish::Page(page, fresh) => page_reply(alloc, docket, page, fresh),
        Wish::Export(export, days, fresh) => export_reply(alloc, docket, export, days, fresh),
        // Not reached: a calendar is not built before it is written.
        Wish::Calendar(..) => Ok(Reply::Fixed(Problem::Damaged)),
        Wish::Holidays(year) => fine_reply(alloc, Form::Text, holiday_text(alloc, year)),
        // Reached only if the docket is closed: else `serve_one` returns that a copy is wanted.
        Wish::Copy => Ok(Reply::Shown(Failure::NoCopy)),
    }
}

/// The answer to a request.
pub(crate) fn reply_of<S: Alter>(alloc: Global, docket: &mut Docket<S>, request: &Request) -> Reply
    requires whole { IsBuilt request.now.wish }
    requires limits { IsWithinLimits request.now.wish }
    requires within { request.now.start ≤ request.now.end × request.now.end ≤ vec_len request.now.came }
    ensures answered { (h : History) → Stands S.Store docket.old h → HasCleanDisk (state S.Store docket.new.conn)
        → (response : Response) × IsReply result response
        × IsAnswered S.Store docket.new h request.now.wish (body_of request.now) response }
    ensures only { OnlyReplies S.Store docket.old docket.new request.now.wish (body_of request.now) (Ok result) }
{
    match reply_to(alloc, docket, request) {
        Ok(reply) => reply,
        Err(fault) => failure_reply(&request.wish, fault),
    }
}
