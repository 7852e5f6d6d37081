//! The guard: which requests are let through, by the host and the origin in their heads, and by what a browser
//! marks as coming from another site.
ghost use Rattle.std.specs.Prelude.{◌≡◌, ◌&&◌, length, map, All, codes, option_copied, string_bytes};
ghost use Rattle.std.specs.List.{list_any};
ghost use Rattle.httparse.specs.Spans.{IsHeaderWithin, header_bytes};
ghost use Rattle.http_request.specs.Fields.{same_name, values_of};
ghost use Rattle.http_request.specs.Guard.{host_of as host_by_scheme, is_at as is_at_host, is_cross_site as is_cross_site_by, is_foreign as is_foreign_by, is_let_through, is_navigation as is_navigation_by, lets_through as lets_through_by};

use crate::fields::{Values, field_values};
use crate::page::Routes;
use crate::target::behind;
use httparse::spans::HeaderSpan;

// The host of an origin.
fn host_of(origin: &str) -> Option<&str>
    ensures { option_copied result ≡ host_by_scheme origin.now }
{
    match behind(origin, "http://") {
        Some(host) => Some(host),
        None => behind(origin, "https://"),
    }
}

// Whether the origin is at this host.
fn is_at(host: &[u8], origin: &str) -> bool
    ensures { result ≡ is_at_host host.now origin.now }
{
    match host_of(origin) {
        Some(named) => host.eq_ignore_ascii_case(named.as_bytes()),
        None => false,
    }
}

// Whether a page is of this origin, which is at this host.
fn is_own(host: &[u8], page: &[u8], origin: &str) -> bool
    ensures { result ≡ (is_at_host host.now origin.now && same_name page.now origin.now) }
{
    is_at(host, origin) && page.eq_ignore_ascii_case(origin.as_bytes())
}

// Whether one of the origins is at this host.
fn is_served(origins: &[String], host: &[u8]) -> bool
    ensures { result ≡ list_any (λ origin. is_at_host host.now (string_bytes origin)) origins.now }
{
    origins.iter().any(|origin| is_at(host, origin.as_str()))
}

// Whether a page is of one of the origins, which is at this host.
fn is_own_page(origins: &[String], host: &[u8], page: &[u8]) -> bool
    ensures { result ≡ list_any (λ origin. is_at_host host.now (string_bytes origin) && same_name page.now (string_bytes origin)) origins.now }
{
    origins
        .iter()
        .any(|origin| is_own(host, page, origin.as_str()))
}

// Whether a request of this head is sent to one of the origins, and comes from a page of that one or from no
// page.
fn is_asked_here(origins: &[String], head: &[u8], headers: &[HeaderSpan]) -> bool
    requires { All (IsHeaderWithin (length head.now)) headers.now }
    ensures { result ≡ is_let_through (map string_bytes origins.now) (values_of (codes "host") (map (header_bytes head.now) headers.now))
        (values_of (codes "origin") (map (header_bytes head.now) headers.now)) }
{
    let Values::One(host) = field_values(head, headers, b"host") else {
        return false;
    };
    match field_values(head, headers, b"origin") {
        Values::Missing => is_served(origins, host.of(head)),
        Values::One(page) => is_own_page(origins, host.of(head), page.of(head)),
        Values::Several => false,
    }
}

// Whether a request of this method and head is a plain navigation, as by a link.
fn is_navigation(method: &[u8], head: &[u8], headers: &[HeaderSpan]) -> bool
    requires { All (IsHeaderWithin (length head.now)) headers.now }
    ensures { result ≡ is_navigation_by method.now (values_of (codes "sec-fetch-mode") (map (header_bytes head.now) headers.now)) }
{
    match field_values(head, headers, b"sec-fetch-mode") {
        Values::One(mode) => method == b"GET".as_slice() && mode.of(head) == b"navigate".as_slice(),
        Values::Missing | Values::Several => false,
    }
}

// Whether a browser marks a request of this method and head as one from another site, and it is not a plain
// navigation.
fn is_cross_site(method: &[u8], head: &[u8], headers: &[HeaderSpan]) -> bool
    requires { All (IsHeaderWithin (length head.now)) headers.now }
    ensures { result ≡ is_cross_site_by method.now (values_of (codes "sec-fetch-site") (map (header_bytes head.now) headers.now))
        (values_of (codes "sec-fetch-mode") (map (header_bytes head.now) headers.now)) }
{
    match field_values(head, headers, b"sec-fetch-site") {
        Values::Missing => false,
        Values::One(site) => {
            site.of(head) == b"cross-site".as_slice() && !is_navigation(method, head, headers)
        }
        Values::Several => true,
    }
}

// Whether a request of this method and head is let through at one of the origins.
fn lets_through(origins: &[String], method: &[u8], head: &[u8], headers: &[HeaderSpan]) -> bool
    requires { All (IsHeaderWithin (length head.now)) headers.now }
    ensures { result ≡ lets_through_by (map string_bytes origins.now) method.now (map (header_bytes head.now) headers.now) }
{
    is_asked_here(origins, head, headers) && !is_cross_site(method, head, headers)
}

/// Whether a request of this method and head is refused, whatever it asks for.
pub fn is_foreign(routes: &Routes, method: &[u8], head: &[u8], headers: &[HeaderSpan]) -> bool
    requires { All (IsHeaderWithin (length head.now)) headers.now }
    ensures { result ≡ is_foreign_by routes.now method.now (map (header_bytes head.now) headers.now) }
{
    match routes {
        Routes::Docket => false,
        Routes::Guarded(origins) | Routes::WithPages(origins) => {
            !lets_through(origins, method, head, headers)
        }
    }
}
