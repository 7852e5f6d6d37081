//! Requests that enter a form: their method, their media type and the length of their body.
ghost use Rattle.std.specs.Prelude.{◌≡◌, length, map, All, bytes_eq, codes};
ghost use Rattle.httparse.specs.Spans.{IsHeaderWithin, header_bytes};
ghost use Rattle.http_request.specs.Forms.{form_length as form_length_by, is_form as is_form_by_fields, is_form_value, media_type as media_type_of};

use crate::fields::{Rejection, Values, body_length, field_values};
use http::Method;
use httparse::spans::HeaderSpan;

// The value of a Content-Type field up to its parameters.
fn media_type(value: &[u8]) -> &[u8]
    ensures { result.now ≡ media_type_of value.now }
{
    match value.iter().position(|byte| *byte == b';') {
        Some(end) => &value[..end],
        None => value,
    }
}

// Whether the value of a Content-Type field is that of forms.
fn is_form_type(value: &[u8]) -> bool
    ensures { result ≡ is_form_value value.now }
{
    media_type(value).eq_ignore_ascii_case(b"application/x-www-form-urlencoded")
}

// Whether the body is a form, by the fields of the head.
fn is_form(head: &[u8], headers: &[HeaderSpan]) -> bool
    requires { All (IsHeaderWithin (length head.now)) headers.now }
    ensures { result ≡ is_form_by_fields (map (header_bytes head.now) headers.now) }
{
    match field_values(head, headers, b"content-type") {
        Values::One(value) => is_form_type(value.of(head)),
        Values::Missing | Values::Several => false,
    }
}

fn is_post(method: &[u8]) -> bool
    ensures { result ≡ bytes_eq method.now (codes "POST") }
{
    method == Method::POST.as_str().as_bytes()
}

/// How long a form is that is entered by a request of this method and head. The method must be POST, the media type
/// that of forms (`application/x-www-form-urlencoded`), and the length one of a body.
pub fn form_length(method: &[u8], head: &[u8], headers: &[HeaderSpan]) -> Result<u32, Rejection>
    requires { All (IsHeaderWithin (length head.now)) headers.now }
    ensures { result ≡ form_length_by method.now (map (header_bytes head.now) headers.now) }
{
    if !is_post(method) {
        return Err(Rejection::Method);
    }
    if !is_form(head, headers) {
        return Err(Rejection::MediaType);
    }
    body_length(head, headers)
}
