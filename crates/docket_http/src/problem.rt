//! Answers that report a problem. They are constants, so that writing one takes no memory.
ghost use Rattle.std.specs.Prelude.{◌≡◌};
ghost use Rattle.docket_http.specs.Answer.{problem_status, problem_response, response_bytes, rejection_status};
ghost use Rattle.docket_http.specs.Asking.{problem_of_fault};
ghost use Rattle.docket_http.specs.declared.problem.Problem.TheVariants.{Rejected};

use docket_store::Fault;
use http::StatusCode;
use http_request::Rejection;

/// Why a request has no answer from the docket.
#[derive(Clone, Copy)]
pub(crate) enum Problem {
    Rejected(Rejection),
    NoSuchCase,
    /// No copy was made of the file in which the docket is kept.
    NoCopy,
    NoMemory,
    Store,
    Closed,
    Damaged,
}

fn status_of(rejection: Rejection) -> StatusCode
    ensures { result ≡ rejection_status rejection }
{
    match rejection {
        Rejection::HeadTooLong => StatusCode::REQUEST_HEADER_FIELDS_TOO_LARGE,
        Rejection::BadHead | Rejection::BadPathValue => StatusCode::BAD_REQUEST,
        Rejection::NotFound => StatusCode::NOT_FOUND,
        Rejection::Method => StatusCode::METHOD_NOT_ALLOWED,
        Rejection::LengthRequired => StatusCode::LENGTH_REQUIRED,
        Rejection::TooLong => StatusCode::PAYLOAD_TOO_LARGE,
        Rejection::Foreign => StatusCode::FORBIDDEN,
        Rejection::MediaType => StatusCode::UNSUPPORTED_MEDIA_TYPE,
    }
}

fn rejection_answer(rejection: Rejection) -> &'static [u8]
    ensures { result.now ≡ response_bytes (problem_response (Rejected rejection)) }
{
    match rejection {
        Rejection::HeadTooLong =>
            b"HTTP/1.1 431 Request Header Fields Too Large\r\ncontent-type: application/json\r\ncontent-length: 26\r\nconnection: close\r\n\r\n{\"error\":\"head-too-long\"}\n",
        Rejection::BadHead =>
            b"HTTP/1.1 400 Bad Request\r\ncontent-type: application/json\r\ncontent-length: 21\r\nconnection: close\r\n\r\n{\"error\":\"bad-head\"}\n",
        Rejection::NotFound =>
            b"HTTP/1.1 404 Not Found\r\ncontent-type: application/json\r\ncontent-length: 22\r\nconnection: close\r\n\r\n{\"error\":\"not-found\"}\n",
        Rejection::Method =>
            b"HTTP/1.1 405 Method Not Allowed\r\ncontent-type: application/json\r\ncontent-length: 19\r\nconnection: close\r\n\r\n{\"error\":\"method\"}\n",
        Rejection::BadPathValue =>
            b"HTTP/1.1 400 Bad Request\r\ncontent-type: application/json\r\ncontent-length: 27\r\nconnection: close\r\n\r\n{\"error\":\"bad-path-value\"}\n",
        Rejection::LengthRequired =>
            b"HTTP/1.1 411 Length Required\r\ncontent-type: application/json\r\ncontent-length: 28\r\nconnection: close\r\n\r\n{\"error\":\"length-required\"}\n",
        Rejection::TooLong =>
            b"HTTP/1.1 413 Payload Too Large\r\ncontent-type: application/json\r\ncontent-length: 21\r\nconnection: close\r\n\r\n{\"error\":\"too-long\"}\n",
        Rejection::Foreign =>
            b"HTTP/1.1 403 Forbidden\r\ncontent-type: application/json\r\ncontent-length: 20\r\nconnection: close\r\n\r\n{\"error\":\"foreign\"}\n",
        Rejection::MediaType =>
            b"HTTP/1.1 415 Unsupported Media Type\r\ncontent-type: application/json\r\ncontent-length: 23\r\nconnection: close\r\n\r\n{\"error\":\"media-type\"}\n",
    }
}

impl Problem {
    pub(crate) fn status(self) -> StatusCode
        ensures { result ≡ problem_status self }
    {
        match self {
            Problem::Rejected(rejection) => status_of(rejection),
            Problem::NoSuchCase => StatusCode::NOT_FOUND,
            Problem::NoCopy | Problem::NoMemory => StatusCode::INTERNAL_SERVER_ERROR,
            Problem::Store | Problem::Closed | Problem::Damaged => StatusCode::SERVICE_UNAVAILABLE,
        }
    }

    /// The whole answer.
    pub(crate) fn answer(self) -> &'static [u8]
        ensures { result.now ≡ response_bytes (problem_response self) }
    {
        match self {
            Problem::Rejected(rejection) => rejection_answer(rejection),
            Problem::NoSuchCase =>
                b"HTTP/1.1 404 Not Found\r\ncontent-type: application/json\r\ncontent-length: 25\r\nconnection: close\r\n\r\n{\"error\":\"no-such-case\"}\n",
            Problem::NoCopy =>
                b"HTTP/1.1 500 Internal Server Error\r\ncontent-type: application/json\r\ncontent-length: 20\r\nconnection: close\r\n\r\n{\"error\":\"no-copy\"}\n",
            Problem::NoMemory =>
                b"HTTP/1.1 500 Internal Server Error\r\ncontent-type: application/json\r\ncontent-length: 22\r\nconnection: close\r\n\r\n{\"error\":\"no-memory\"}\n",
            Problem::Store =>
                b"HTTP/1.1 503 Service Unavailable\r\ncontent-type: application/json\r\ncontent-length: 18\r\nconnection: close\r\n\r\n{\"error\":\"store\"}\n",
            Problem::Closed =>
                b"HTTP/1.1 503 Service Unavailable\r\ncontent-type: application/json\r\ncontent-length: 19\r\nconnection: close\r\n\r\n{\"error\":\"closed\"}\n",
            Problem::Damaged =>
                b"HTTP/1.1 503 Service Unavailable\r\ncontent-type: application/json\r\ncontent-length: 20\r\nconnection: close\r\n\r\n{\"error\":\"damaged\"}\n",
        }
    }
}

/// The problem to report where the docket gave no reply. A refusal of a command is a reply.
pub(crate) fn problem_of(fault: Fault) -> Problem
    ensures { result ≡ problem_of_fault fault }
{
    match fault {
        Fault::NoMemory => Problem::NoMemory,
        Fault::StoreFailed => Problem::Store,
        Fault::Closed => Problem::Closed,
        Fault::Damaged | Fault::Refused(_) => Problem::Damaged,
    }
}
