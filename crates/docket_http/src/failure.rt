//! Pages that say to a browser that the server fails. They are constants, so that writing one takes no memory.
ghost use Rattle.std.specs.Prelude.{◌≡◌};
ghost use Rattle.docket_http.specs.Answer.{problem_page, problem_status, response_bytes};
ghost use Rattle.docket_http.specs.Asking.{is_of_pages, problem_of_fault, problem_to};
ghost use Rattle.docket_http.specs.Reply.{IsReply, problem_of_failure};

use crate::problem::problem_of;
use crate::reply::Reply;
use docket_store::Fault;
use http::StatusCode;
use http_request::Wish;

/// Why a browser gets no answer.
#[derive(Clone, Copy)]
pub(crate) enum Failure {
    /// No copy was made of the file in which the docket is kept.
    NoCopy,
    NoMemory,
    Store,
    Closed,
    Damaged,
}

impl Failure {
    pub(crate) fn status(self) -> StatusCode
        ensures { result ≡ problem_status (problem_of_failure self) }
    {
        match self {
            Failure::NoCopy | Failure::NoMemory => StatusCode::INTERNAL_SERVER_ERROR,
            Failure::Store | Failure::Closed | Failure::Damaged => StatusCode::SERVICE_UNAVAILABLE,
        }
    }

    /// The whole answer, with its page.
    pub(crate) fn page(self) -> &'static [u8]
        ensures { result.now ≡ response_bytes (problem_page (problem_of_failure self)) }
    {
        match self {
            Failure::NoCopy =>
                b"HTTP/1.1 500 Internal Server Error\r\ncontent-type: text/html; charset=utf-8\r\ncontent-security-policy: default-src 'none'; style-src 'unsafe-inline'; form-action 'self'; base-uri 'none'; frame-ancestors 'none'\r\ncache-control: no-store\r\ncontent-length: 227\r\nconnection: close\r\n\r\n<!DOCTYPE html>\n<html lang=\"en\">\n<head>\n<meta charset=\"utf-8\">\n<title>Not answered</title>\n</head>\n<body>\n<h1>Not answered</h1>\n<p>No copy was made. Ask for it again.</p>\n<p><a href=\"/pages/cases\">Cases</a></p>\n</body>\n</html>\n",
            Failure::NoMemory =>
                b"HTTP/1.1 500 Internal Server Error\r\ncontent-type: text/html; charset=utf-8\r\ncontent-security-policy: default-src 'none'; style-src 'unsafe-inline'; form-action 'self'; base-uri 'none'; frame-ancestors 'none'\r\ncache-control: no-store\r\ncontent-length: 288\r\nconnection: close\r\n\r\n<!DOCTYPE html>\n<html lang=\"en\">\n<head>\n<meta charset=\"utf-8\">\n<title>Not answered</title>\n</head>\n<body>\n<h1>Not answered</h1>\n<p>The server has too little memory for this. Try again: a form that is sent again is entered once.</p>\n<p><a href=\"/pages/cases\">Cases</a></p>\n</body>\n</html>\n",
            Failure::Store =>
                b"HTTP/1.1 503 Service Unavailable\r\ncontent-type: text/html; charset=utf-8\r\ncontent-security-policy: default-src 'none'; style-src 'unsafe-inline'; form-action 'self'; base-uri 'none'; frame-ancestors 'none'\r\ncache-control: no-store\r\ncontent-length: 314\r\nconnection: close\r\n\r\n<!DOCTYPE html>\n<html lang=\"en\">\n<head>\n<meta charset=\"utf-8\">\n<title>Not answered</title>\n</head>\n<body>\n<h1>Not answered</h1>\n<p>The disk or the database failed, and the server has stopped. Tell who runs it. Then send a form again: it is entered once.</p>\n<p><a href=\"/pages/cases\">Cases</a></p>\n</body>\n</html>\n",
            Failure::Closed =>
                b"HTTP/1.1 503 Service Unavailable\r\ncontent-type: text/html; charset=utf-8\r\ncontent-security-policy: default-src 'none'; style-src 'unsafe-inline'; form-action 'self'; base-uri 'none'; frame-ancestors 'none'\r\ncache-control: no-store\r\ncontent-length: 309\r\nconnection: close\r\n\r\n<!DOCTYPE html>\n<html lang=\"en\">\n<head>\n<meta charset=\"utf-8\">\n<title>Not answered</title>\n</head>\n<body>\n<h1>Not answered</h1>\n<p>The database failed before, and the server has stopped. Tell who runs it. Then send a form again: it is entered once.</p>\n<p><a href=\"/pages/cases\">Cases</a></p>\n</body>\n</html>\n",
            Failure::Damaged =>
                b"HTTP/1.1 503 Service Unavailable\r\ncontent-type: text/html; charset=utf-8\r\ncontent-security-policy: default-src 'none'; style-src 'unsafe-inline'; form-action 'self'; base-uri 'none'; frame-ancestors 'none'\r\ncache-control: no-store\r\ncontent-length: 287\r\nconnection: close\r\n\r\n<!DOCTYPE html>\n<html lang=\"en\">\n<head>\n<meta charset=\"utf-8\">\n<title>Not answered</title>\n</head>\n<body>\n<h1>Not answered</h1>\n<p>The docket is damaged, and the server has stopped. Tell who runs it: docketctl check says more.</p>\n<p><a href=\"/pages/cases\">Cases</a></p>\n</body>\n</html>\n",
        }
    }
}

/// The failure to show where the docket gave no reply.
fn failure_of(fault: Fault) -> Failure
    ensures { problem_of_failure result ≡ problem_of_fault fault }
{
    match fault {
        Fault::NoMemory => Failure::NoMemory,
        Fault::StoreFailed => Failure::Store,
        Fault::Closed => Failure::Closed,
        Fault::Damaged | Fault::Refused(_) => Failure::Damaged,
    }
}

/// Whether the answer is for a browser.
fn is_of_pages(wish: &Wish) -> bool
    ensures { result ≡ is_of_pages wish.now }
{
    match wish {
        Wish::Refuse(_) | Wish::Form(..) | Wish::Preview(..) | Wish::Page(..) | Wish::Copy => true,
        Wish::Reject(_)
        | Wish::Command(_)
        | Wish::Case(_)
        | Wish::Deadlines(_)
        | Wish::Calendar(..)
        | Wish::Export(..)
        | Wish::Holidays(_) => false,
    }
}

/// What is sent where the docket gave no reply: a page to a browser, else JSON.
pub(crate) fn failure_reply(wish: &Wish, fault: Fault) -> Reply
    ensures { IsReply result (problem_to wish.now (problem_of_fault fault)) }
{
    match is_of_pages(wish) {
        true => Reply::Shown(failure_of(fault)),
        false => Reply::Fixed(problem_of(fault)),
    }
}
