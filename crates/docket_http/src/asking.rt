//! Questions, and the answers to them.
ghost use Rattle.std.specs.Prelude.{◌≡◌, ℕ, List, IfErr, IfOk, string_bytes};
ghost use Rattle.docket_history.specs.Histories.{History};
ghost use Rattle.docket_applying.specs.Applying.{Asks, Stands};
ghost use Rattle.docket_store.specs.Asking.{OnlyAnswers};
ghost use Rattle.http_request.specs.declared.wish.Wish.TheVariants.{Export as ExportWish, Page as PageWish};
ghost use Rattle.docket_applying.specs.declared.fault.Fault.TheVariants.{NoMemory};
ghost use Rattle.docket_http.specs.Answer.{found, missing};
ghost use Rattle.docket_http.specs.Asking.{form_about};
ghost use Rattle.docket_http.specs.Recorded.{RepliesTo};
ghost use Rattle.docket_http.specs.Reply.{IsReply};
ghost use Rattle.docket_http.specs.declared.head.Form.TheVariants.{Html};

use crate::dues::{exported, listed, listed_by};
use crate::head::Form;
use crate::moment::day_of_request;
use crate::problem::Problem;
use crate::reply::{Reply, built, fine_reply, words_reply};
use court_days::Day;
use docket_command::CommandName;
use docket_questions::{
    CasePage, CasesPage, CourtDaysPage, Question, ReasonsPage, RulesPage, SearchPage,
};
use docket_store::{Docket, Fault};
use entry_pages::{Said, about_pairs, entry_page, kinds_page};
use http::StatusCode;
use http_request::{About, Export, Page};
use sqlite::Alter;
use std::alloc::{AllocError, Global};

/// Returns that what a question asks about does not exist, as a page where one was asked for.
fn missing_reply(alloc: Global, form: Form) -> Result<Reply, Fault>
    ensures reply { IfOk result (λ reply. IsReply reply (missing form)) }
    ensures short { IfErr result (λ e. e ≡ NoMemory) }
{
    match form {
        Form::Html => {
            let words = "There is no such case, or the case has no such deadline.";
            words_reply(alloc, StatusCode::NOT_FOUND, "Not found", words)
        }
        _ => Ok(Reply::Fixed(Problem::NoSuchCase)),
    }
}

/// Returns the answer to a question: its text in that form, or that what it asks about does not exist.
pub(crate) fn question_reply<S: Alter, Q: Question>(
    alloc: Global,
    docket: &mut Docket<S>,
    form: Form,
    question: &Q,
) -> Result<Reply, Fault>
    ensures answer { (h : History) → Stands S.Store docket.old h
        → Asks S.Store docket.new h (λ reply. IsReply reply (found form (Q.Text question.now docket.old.court h))) result }
    ensures only { OnlyAnswers S.Store docket.old docket.new result }
{
    match question.ask(alloc, docket)? {
        Some(text) => built(alloc, StatusCode::OK, form, text),
        None => missing_reply(alloc, form),
    }
}

/// The form of a kind of command, filled in with the numbers of what it is about.
fn form_text(
    alloc: Global,
    kind: CommandName,
    fresh: u64,
    about: About,
) -> Result<String, AllocError>
    ensures { IfOk result (λ text. string_bytes text ≡ form_about kind fresh about) }
{
    let pairs = about_pairs(alloc, about)?;
    entry_page(alloc, kind, fresh, &pairs, Said::Nothing)
}

/// Returns the page that answers a question, or that what it asks about does not exist.
fn shown_reply<S: Alter, Q: Question>(
    alloc: Global,
    docket: &mut Docket<S>,
    question: &Q,
) -> Result<Reply, Fault>
    ensures answer { (h : History) → Stands S.Store docket.old h
        → Asks S.Store docket.new h (λ reply. IsReply reply (found Html (Q.Text question.now docket.old.court h))) result }
    ensures only { OnlyAnswers S.Store docket.old docket.new result }
{
    question_reply(alloc, docket, Form::Html, question)
}

/// Returns a page, with the day of the request: what it shows of the docket, or that there is no such case or
/// deadline. The pages on which a command is entered ask for no docket.
pub(crate) fn page_reply<S: Alter>(
    alloc: Global,
    docket: &mut Docket<S>,
    page: Page,
    fresh: u64,
) -> Result<Reply, Fault>
    ensures { (body : List ℕ) → RepliesTo S.Store docket.old docket.new (PageWish page fresh) body result }
{
    let day = day_of_request(docket.court(), fresh);
    match page {
        Page::Cases(before) => shown_reply(alloc, docket, &CasesPage { before, day }),
        Page::Case(number) => shown_reply(alloc, docket, &CasePage { number, day }),
        Page::Days(from, to) => shown_reply(alloc, docket, &listed(from, to, day)),
        Page::Due(due) => shown_reply(alloc, docket, &listed_by(due, day, fresh)),
        Page::Search(words) => {
            let words = words.as_str();
            shown_reply(alloc, docket, &SearchPage { words, day })
        }
        Page::CourtDays => shown_reply(alloc, docket, &CourtDaysPage { day }),
        Page::Rules => shown_reply(alloc, docket, &RulesPage { day }),
        Page::Reasons(case, deadline) => shown_reply(
            alloc,
            docket,
            &ReasonsPage {
                case,
                deadline,
                day,
            },
        ),
        Page::Kinds => fine_reply(alloc, Form::Html, kinds_page(alloc, Said::Nothing)),
        Page::Enter(kind, about) => {
            fine_reply(alloc, Form::Html, form_text(alloc, kind, fresh, about))
        }
    }
}

/// Returns an export of the deadlines that fall due.
pub(crate) fn export_reply<S: Alter>(
    alloc: Global,
    docket: &mut Docket<S>,
    export: Export,
    days: Option<(Day, Day)>,
    fresh: u64,
) -> Result<Reply, Fault>
    ensures { (body : List ℕ) → RepliesTo S.Store docket.old docket.new (ExportWish export days fresh) body result }
{
    let dues = exported(export, days, fresh);
    question_reply(alloc, docket, Form::Export(export), &dues)
}
