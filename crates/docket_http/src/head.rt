//! The heads of answers.
ghost use Rattle.std.specs.Prelude.{◌≡◌, ℕ};
ghost use Rattle.docket_http.specs.Answer.{export_line, head_bytes};
ghost use Rattle.docket_http.specs.declared.head.Form.TheVariants.{OpenText};

use crate::place::Place;
use http::StatusCode;
use http_request::Export;
use std::fmt;

/// The form of an answer: what its body is.
#[derive(Clone, Copy)]
pub(crate) enum Form {
    Json,
    Text,
    /// A text that ends with the connection, so that its length need not be known when it begins.
    OpenText,
    /// A page, which a browser shows.
    Html,
    /// The deadlines that fall due, for another program.
    Export(Export),
    /// A database of SQLite, which a browser saves.
    File,
    /// Empty: a browser gets that page next.
    Seen(Place),
}

/// The line of the field `content-type` of an export.
fn export_line(export: Export) -> &'static str
    ensures { result.now ≡ export_line export }
{
    match export {
        Export::Calendar => "content-type: text/calendar; charset=utf-8\r\n",
        Export::Csv => "content-type: text/csv; charset=utf-8\r\n",
        Export::Json => "content-type: application/json\r\n",
    }
}

/// Writes the line of the field `content-type`, or of `location`.
impl fmt::Display for Form {
    ghost use Rattle.std.specs.Prelude.{Some};
    ghost use Rattle.docket_http.specs.Answer.{type_line};

    ghost output = { λ form. Some (type_line form) };

    fn fmt<W: fmt::Write>(&self, f: &mut fmt::Formatter<W>) -> fmt::Result {
        match self {
            Form::Json => f.write_str("content-type: application/json\r\n"),
            Form::Text | Form::OpenText => f.write_str(
                "content-type: text/plain; charset=utf-8\r\n",
            ),
            Form::Html => f.write_str("content-type: text/html; charset=utf-8\r\n"),
            Form::Export(export) => f.write_str(export_line(*export)),
            Form::File => f.write_str("content-type: application/vnd.sqlite3\r\n"),
            Form::Seen(place) => write!(f, "location: {place}\r\n"),
        }
    }
}

/// The lines of the fields `content-security-policy` and `cache-control`, which a page has. A browser runs no
/// script for it, loads nothing from elsewhere, shows it in no other page, and stores no copy of it. A file
/// is saved, under the name in `content-disposition`. Nor is an export stored, or where a form has led.
#[derive(Clone, Copy)]
struct PolicyLine(Form);

impl fmt::Display for PolicyLine {
    ghost use Rattle.std.specs.Prelude.{Some};
    ghost use Rattle.docket_http.specs.Answer.{policy_line};

    ghost output = { λ line. Some (policy_line line.0) };

    fn fmt<W: fmt::Write>(&self, f: &mut fmt::Formatter<W>) -> fmt::Result {
        match self.0 {
            Form::Html => f.write_str(
                "content-security-policy: default-src 'none'; style-src 'unsafe-inline'; form-action 'self'; base-uri 'none'; frame-ancestors 'none'\r\n\
                 cache-control: no-store\r\n",
            ),
            Form::File => f.write_str(
                "content-disposition: attachment; filename=\"docket.db\"\r\n\
                 cache-control: no-store\r\n",
            ),
            Form::Export(_) | Form::Seen(_) => f.write_str("cache-control: no-store\r\n"),
            Form::Json | Form::Text | Form::OpenText => Ok(()),
        }
    }
}

/// The line of the field `content-length`, where it marks the end of a body.
#[derive(Clone, Copy)]
struct LengthLine {
    form: Form,
    len: usize,
}

impl fmt::Display for LengthLine {
    ghost use Rattle.std.specs.Prelude.{Some};
    ghost use Rattle.docket_http.specs.Answer.{length_line};

    ghost output = { λ line. Some (length_line line.form line.len) };

    fn fmt<W: fmt::Write>(&self, f: &mut fmt::Formatter<W>) -> fmt::Result {
        let len = self.len;
        match self.form {
            Form::OpenText => Ok(()),
            Form::Json | Form::Text | Form::Html | Form::Export(_) | Form::File | Form::Seen(_) => {
                write!(f, "content-length: {len}\r\n")
            }
        }
    }
}

/// The head of an answer with a body of so many bytes.
#[derive(Clone, Copy)]
pub(crate) struct Head {
    pub status: StatusCode,
    pub form: Form,
    pub len: usize,
}

impl fmt::Display for Head {
    ghost use Rattle.std.specs.Prelude.{Some};
    ghost use Rattle.docket_http.specs.Answer.{head_bytes};

    ghost output = { λ head. Some (head_bytes head.status head.form head.len) };

    fn fmt<W: fmt::Write>(&self, f: &mut fmt::Formatter<W>) -> fmt::Result {
        let status = self.status;
        let form = self.form;
        let len = self.len;
        let policy = PolicyLine(form);
        let length = LengthLine { form, len };
        write!(
            f,
            "HTTP/1.1 {status}\r\n{form}{policy}{length}connection: close\r\n\r\n"
        )
    }
}

/// The head of a text that ends with the connection. It takes no memory.
pub(crate) fn open_head() -> &'static [u8]
    ensures { (len : ℕ) → result.now ≡ head_bytes 200 OpenText len }
{
    b"HTTP/1.1 200 OK\r\ncontent-type: text/plain; charset=utf-8\r\nconnection: close\r\n\r\n"
}
