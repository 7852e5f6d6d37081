//! What a head asks for.
ghost use Rattle.std.specs.Prelude.{◌≡◌, length, map, All, IfOk, IfErr, IsUtf8, bytes_eq, codes, option_copied};
ghost use Rattle.httparse.specs.Spans.{IsHeaderWithin, header_bytes};
ghost use Rattle.http_request.specs.Rows.{route_rows};
ghost use Rattle.http_request.specs.Path.{place_of};
ghost use Rattle.http_request.specs.Pages.{page_of};
ghost use Rattle.http_request.specs.declared.wish.Wish.TheVariants.{Form, Preview};
ghost use Rattle.http_request.specs.Exports.{days_asked as days_by_query};
ghost use Rattle.http_request.specs.Wish.{route_wish, place_wish, page_wish as wish_by_page, copy_wish as wish_of_copy, export_wish as wish_of_export, form_wish as wish_of_form, rest_wish as wish_by_rest, wish_of, route_method, is_method, IsHeadWish, IsWithinLimits};

use crate::days::read_range;
use crate::export::{Export, days_asked};
use crate::fields::{Rejection, body_length};
use crate::form::form_length;
use crate::guard::is_foreign;
use crate::input::InputFault;
use crate::number::{read_number, read_year};
use crate::page::{Page, Routes, behind_pages, find_page};
use crate::place::{RouteMatch, find};
use crate::route::{Route, router};
use crate::target::{path_of, query_of};
use civil_time::Day;
use http::Method;
use httparse::Status;
use httparse::spans::{EMPTY_HEADER_SPAN, HeaderSpan, parse_request};
use matchit::Router;
use std::alloc::Global;
use std::str::from_utf8;

/// The most fields of a head.
const MAX_FIELDS: usize = 64;

/// What a request asks for.
#[derive(Clone, Copy)]
pub enum Wish {
    Reject(Rejection),
    /// A refused request for what stands behind "/pages", where pages are served: it gets a page that says why. That
    /// for an export is rejected.
    Refuse(Rejection),
    /// A command, whose text is the body of so many bytes.
    Command(u32),
    /// A command by a form, which is the body of so many bytes, with the number of this request. Where pages are
    /// served.
    Form(u32, u64),
    /// What the command of such a form would do.
    Preview(u32, u64),
    Case(u32),
    Deadlines(u32),
    /// The days from the first to the last.
    Calendar(Day, Day),
    /// A year from 2000 to 2099.
    Holidays(u32),
    /// A page, where pages are served, with the number of this request.
    Page(Page, u64),
    /// The deadlines that fall due on the days from the first to the last, or on those about the day of this request,
    /// whose number it is. Where pages are served.
    Export(Export, Option<(Day, Day)>, u64),
    /// A copy of the file in which the docket is kept, where pages are served.
    Copy,
}

fn method_of(route: Route) -> Method
    ensures { result ≡ route_method route }
{
    match route {
        Route::Commands => Method::POST,
        Route::Case | Route::Deadlines | Route::Calendar | Route::Holidays => Method::GET,
    }
}

// Whether the bytes are the route's method. Case counts.
fn is_method_of(route: Route, method: &[u8]) -> bool
    ensures { result ≡ is_method route method.now }
{
    method == method_of(route).as_str().as_bytes()
}

fn found_wish(found: RouteMatch<'_>, head: &[u8], headers: &[HeaderSpan]) -> Wish
    requires { All (IsHeaderWithin (length head.now)) headers.now }
    ensures asks { result ≡ route_wish found.entry.route found.entry.first.now found.entry.second.now (map (header_bytes head.now) headers.now) }
    ensures within { IsWithinLimits result }
{
    match found.route {
        Route::Commands => match body_length(head, headers) {
            Ok(length) => Wish::Command(length),
            Err(rejection) => Wish::Reject(rejection),
        },
        Route::Case => match read_number(found.first) {
            Some(number) => Wish::Case(number),
            None => Wish::Reject(Rejection::BadPathValue),
        },
        Route::Deadlines => match read_number(found.first) {
            Some(number) => Wish::Deadlines(number),
            None => Wish::Reject(Rejection::BadPathValue),
        },
        Route::Calendar => match read_range(found.first, found.second) {
            Some((first, last)) => Wish::Calendar(first, last),
            None => Wish::Reject(Rejection::BadPathValue),
        },
        Route::Holidays => match read_year(found.first) {
            Some(year) => Wish::Holidays(year),
            None => Wish::Reject(Rejection::BadPathValue),
        },
    }
}

// What a path of the docket asks for.
fn docket_wish(
    router: &Router<Route>,
    method: &[u8],
    path: &str,
    head: &[u8],
    headers: &[HeaderSpan],
) -> Wish
    requires routes { router.now ≡ route_rows }
    requires within { All (IsHeaderWithin (length head.now)) headers.now }
    ensures asks { result ≡ place_wish method.now (map (header_bytes head.now) headers.now) (place_of path.now) }
    ensures within { IsWithinLimits result }
{
    match find(router, path) {
        None => Wish::Reject(Rejection::NotFound),
        Some(found) if is_method_of(found.route, method) => found_wish(found, head, headers),
        Some(_) => Wish::Reject(Rejection::Method),
    }
}

fn is_get(method: &[u8]) -> bool
    ensures { result ≡ bytes_eq method.now (codes "GET") }
{
    method == Method::GET.as_str().as_bytes()
}

// The page that the rest of a path behind "/pages" asks for. The method must be GET.
fn page_wish(
    router: &Router<Route>,
    method: &[u8],
    rest: &str,
    query: Option<&str>,
    fresh: u64,
) -> Wish
    requires { router.now ≡ route_rows }
    ensures asks { result ≡ wish_by_page fresh method.now (page_of rest.now (option_copied query.entry)) }
    ensures within { IsWithinLimits result }
{
    match find_page(router, rest, query) {
        None => Wish::Refuse(Rejection::NotFound),
        Some(_) if !is_get(method) => Wish::Refuse(Rejection::Method),
        Some(None) => Wish::Refuse(Rejection::BadPathValue),
        Some(Some(page)) => Wish::Page(page, fresh),
    }
}

// What a request for an export asks for, with the query. The method must be GET.
fn export_wish(export: Export, method: &[u8], query: Option<&str>, fresh: u64) -> Wish
    ensures asks { result ≡ wish_of_export export fresh method.now (days_by_query (option_copied query.entry)) }
    ensures within { IsWithinLimits result }
{
    if !is_get(method) {
        return Wish::Reject(Rejection::Method);
    }
    match days_asked(query) {
        None => Wish::Reject(Rejection::BadPathValue),
        Some(days) => Wish::Export(export, days, fresh),
    }
}

// What a request for a copy asks for. The method must be GET.
fn copy_wish(method: &[u8]) -> Wish
    ensures { result ≡ wish_of_copy method.now }
{
    if is_get(method) {
        Wish::Copy
    } else {
        Wish::Refuse(Rejection::Method)
    }
}

// What a request to enter a form of that length asks for.
fn form_wish(length: Result<u32, Rejection>, fresh: u64) -> Wish
    ensures asks { result ≡ wish_of_form Form fresh length }
    ensures within { IsWithinLimits result }
{
    match length {
        Ok(length) => Wish::Form(length, fresh),
        Err(rejection) => Wish::Refuse(rejection),
    }
}

// What a request to show what a form of that length would do asks for.
fn preview_wish(length: Result<u32, Rejection>, fresh: u64) -> Wish
    ensures asks { result ≡ wish_of_form Preview fresh length }
    ensures within { IsWithinLimits result }
{
    match length {
        Ok(length) => Wish::Preview(length, fresh),
        Err(rejection) => Wish::Refuse(rejection),
    }
}

// What the rest of a path behind "/pages" asks for: a copy, a form that is entered, what a form would do, an export,
// or a page.
fn rest_wish(
    router: &Router<Route>,
    method: &[u8],
    rest: &str,
    query: Option<&str>,
    head: &[u8],
    headers: &[HeaderSpan],
    fresh: u64,
) -> Wish
    requires routes { router.now ≡ route_rows }
    requires within { All (IsHeaderWithin (length head.now)) headers.now }
    ensures asks { result ≡ wish_by_rest fresh method.now (map (header_bytes head.now) headers.now) rest.now (option_copied query.entry) }
    ensures within { IsWithinLimits result }
{
    match rest {
        "/backup" => copy_wish(method),
        "/commands" => form_wish(form_length(method, head, headers), fresh),
        "/previews" => preview_wish(form_length(method, head, headers), fresh),
        "/due.ics" => export_wish(Export::Calendar, method, query, fresh),
        "/due.csv" => export_wish(Export::Csv, method, query, fresh),
        "/due.json" => export_wish(Export::Json, method, query, fresh),
        _ => page_wish(router, method, rest, query, fresh),
    }
}

// What a head of this method, target and fields asks for.
fn parts_wish(
    routes: &Routes,
    router: &Router<Route>,
    method: &[u8],
    target: &[u8],
    head: &[u8],
    headers: &[HeaderSpan],
    fresh: u64,
) -> Wish
    requires routes { router.now ≡ route_rows }
    requires text { IsUtf8 target.now }
    requires within { All (IsHeaderWithin (length head.now)) headers.now }
    ensures asks { result ≡ wish_of routes.now fresh method.now target.now (map (header_bytes head.now) headers.now) }
    ensures within { IsWithinLimits result }
{
    if is_foreign(routes, method, head, headers) {
        return Wish::Reject(Rejection::Foreign);
    }
    let Ok(target) = from_utf8(target) else {
        return Wish::Reject(Rejection::NotFound);
    };
    let path = path_of(target);
    match behind_pages(routes, path) {
        None => docket_wish(router, method, path, head, headers),
        Some(rest) => rest_wish(router, method, rest, query_of(target), head, headers, fresh),
    }
}

/// What the bytes of a whole head ask for, with the number of this request.
pub fn head_wish(
    alloc: Global,
    head: &[u8],
    routes: &Routes,
    fresh: u64,
) -> Result<Wish, InputFault>
    ensures asks { IfOk result (IsHeadWish routes.now fresh head.now) }
    ensures within { IfOk result IsWithinLimits }
    ensures fault { IfErr result (λ e. e ≡ InputFault.NoMemory) }
{
    let mut headers = [EMPTY_HEADER_SPAN; MAX_FIELDS];
    match parse_request(head, &mut headers) {
        Ok(Status::Complete(spans)) if spans.len == head.len() => {
            let Ok(router) = router(alloc) else {
                return Err(InputFault::NoMemory);
            };
            let method = spans.method.of(head);
            let target = spans.path.of(head);
            let headers = &headers[..spans.headers];
            Ok(parts_wish(routes, &router, method, target, head, headers, fresh))
        }
        _ => Ok(Wish::Reject(Rejection::BadHead)),
    }
}
