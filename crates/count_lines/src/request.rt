//! What a line of `count` asks for.
ghost use Rattle.std.specs.Prelude.{◌≡◌, ◌≤◌, ℕ, [], option_map, IfOk, IfSome};
ghost use Rattle.court_rules.specs.Methods.{method_named};
ghost use Rattle.court_rules.specs.Rules.{rule_named};
ghost use Rattle.count_lines.specs.Requests.{words_of, entered_day_of, number_of, enter_of, count_of, direction_named, months_of, hours_of, rule_of, span_of, short_of, closing_of, court_named, zone_of_line, asked_by, request_of, IsAsked};

use civil_time::read_time_of_day;
use court_days::{Court, CourtFault, Day, DayKind, Direction, is_entered, read_day, read_moment};
use court_rules::{Method, Rule};
use memchr::memchr;
use std::alloc::{AllocError, Global};
use std::str;

/// What a line asks for.
#[derive(Drop)]
pub enum Request {
    /// `federal DAY`, `state DAY` or `closed DAY`: enter the day under its kind.
    Enter(DayKind, Day),
    /// `span MOMENT MOMENT`: enter a span of time, from its start up to but not with its end.
    Span(i64, i64),
    /// `short DAY HH:MM`: enter a day on which the clerk's office closes earlier, at that minute.
    Short(Day, u32),
    /// `zone ZONE HH:MM`: the court for the lines that follow.
    Zone(Court),
    /// `forward DAY N` or `backward DAY N`: the end of a period of that many days.
    CountDays(Direction, Day, u32),
    /// `months forward DAY N` or `months backward DAY N`: the end of a period of that many months.
    CountMonths(Direction, Day, u32),
    /// `hours forward MOMENT N` or `hours backward MOMENT N`: the end of a period of that many hours.
    CountHours(Direction, i64, u32),
    /// `rule NAME DAY METHOD`: the end of the time that the rule sets, from that day, for a party
    /// that was served by the method.
    ByRule(Rule, Day, Method),
    /// `closing DAY`: when the clerk's office is scheduled to close on the day.
    Closing(Day),
}

/// The first word, and what follows the space after it.
fn split_word(line: &[u8]) -> Option<(&[u8], &[u8])>
    ensures { option_map (λ words. (words.0.now, words.1.now)) result ≡ words_of line.now }
{
    let at = memchr(b' ', line)?;
    Some((&line[..at], &line[at + 1..]))
}

/// The day that the text spells, if a court may enter it.
fn read_entered_day(text: &[u8]) -> Option<Day>
    ensures { result ≡ entered_day_of text.now }
{
    let day = read_day(text)?;
    if is_entered(day) { Some(day) } else { None }
}

/// The number that 1 to 4 digits spell, the first of them not 0.
fn read_number(text: &[u8]) -> Option<u32>
    ensures { result ≡ number_of text.now }
{
    if text.is_empty() || text.len() > 4 || text[0] == b'0' {
        return None;
    }
    let mut value: u32 = 0;
    for byte in text {
        if !byte.is_ascii_digit() {
            return None;
        }
        value = value * 10 + u32::from(byte - b'0');
    }
    Some(value)
}

fn read_enter(kind: DayKind, text: &[u8]) -> Option<Request>
    ensures value { result ≡ enter_of kind text.now }
    ensures asked { IfSome result IsAsked }
{
    let day = read_entered_day(text)?;
    Some(Request::Enter(kind, day))
}

fn read_count(direction: Direction, text: &[u8]) -> Option<Request>
    ensures value { result ≡ count_of direction text.now }
    ensures asked { IfSome result IsAsked }
{
    let (day, count) = split_word(text)?;
    let day = read_entered_day(day)?;
    let count = read_number(count)?;
    if count < 1 || count > 3650 {
        return None;
    }
    Some(Request::CountDays(direction, day, count))
}

fn read_direction(word: &[u8]) -> Option<Direction>
    ensures { result ≡ direction_named word.now }
{
    if word == b"forward".as_slice() {
        return Some(Direction::Forward);
    }
    if word == b"backward".as_slice() {
        return Some(Direction::Backward);
    }
    None
}

fn read_months(text: &[u8]) -> Option<Request>
    ensures value { result ≡ months_of text.now }
    ensures asked { IfSome result IsAsked }
{
    let (direction, text) = split_word(text)?;
    let direction = read_direction(direction)?;
    let (day, count) = split_word(text)?;
    let day = read_entered_day(day)?;
    let count = read_number(count)?;
    if count < 1 || count > 120 {
        return None;
    }
    Some(Request::CountMonths(direction, day, count))
}

fn read_hours(text: &[u8]) -> Option<Request>
    ensures value { result ≡ hours_of text.now }
    ensures asked { IfSome result IsAsked }
{
    let (direction, text) = split_word(text)?;
    let direction = read_direction(direction)?;
    let (moment, count) = split_word(text)?;
    let at = read_moment(moment)?;
    let count = read_number(count)?;
    if count < 1 || count > 8760 {
        return None;
    }
    Some(Request::CountHours(direction, at, count))
}

fn read_rule_name(text: &[u8]) -> Option<Rule>
    ensures { result ≡ rule_named text.now }
{
    match str::from_utf8(text) {
        Ok(name) => Rule::read(name),
        Err(_) => None,
    }
}

fn read_method(text: &[u8]) -> Option<Method>
    ensures { result ≡ method_named text.now }
{
    match str::from_utf8(text) {
        Ok(name) => Method::read(name),
        Err(_) => None,
    }
}

fn read_rule(text: &[u8]) -> Option<Request>
    ensures value { result ≡ rule_of text.now }
    ensures asked { IfSome result IsAsked }
{
    let (name, text) = split_word(text)?;
    let rule = read_rule_name(name)?;
    let (day, method) = split_word(text)?;
    let day = read_entered_day(day)?;
    let method = read_method(method)?;
    Some(Request::ByRule(rule, day, method))
}

fn read_span(text: &[u8]) -> Option<Request>
    ensures value { result ≡ span_of text.now }
    ensures asked { IfSome result IsAsked }
{
    let (start, end) = split_word(text)?;
    let start = read_moment(start)?;
    let end = read_moment(end)?;
    Some(Request::Span(start, end))
}

fn read_short(text: &[u8]) -> Option<Request>
    ensures value { result ≡ short_of text.now }
    ensures asked { IfSome result IsAsked }
{
    let (day, close) = split_word(text)?;
    let day = read_entered_day(day)?;
    let minute = read_time_of_day(close)?;
    Some(Request::Short(day, minute))
}

fn read_closing(text: &[u8]) -> Option<Request>
    ensures value { result ≡ closing_of text.now }
    ensures asked { IfSome result IsAsked }
{
    let day = read_entered_day(text)?;
    Some(Request::Closing(day))
}

/// The court whose zone and closing time the texts spell.
fn read_court(alloc: Global, zone: &[u8], close: &[u8]) -> Result<Option<Court>, AllocError>
    ensures { IfOk result (λ court. court ≡ court_named zone.now close.now) }
{
    let Ok(zone) = str::from_utf8(zone) else {
        return Ok(None);
    };
    let Ok(close) = str::from_utf8(close) else {
        return Ok(None);
    };
    match Court::read(alloc, zone, close) {
        Ok(court) => Ok(Some(court)),
        Err(CourtFault::BadZone) => Ok(None),
        Err(CourtFault::BadClose) => Ok(None),
        Err(CourtFault::NoMemory) => Err(AllocError),
    }
}

fn read_zone_line(alloc: Global, text: &[u8]) -> Result<Option<Request>, AllocError>
    ensures value { IfOk result (λ request. request ≡ zone_of_line text.now) }
    ensures asked { IfOk result (λ request. IfSome request IsAsked) }
{
    let Some((zone, close)) = split_word(text) else {
        return Ok(None);
    };
    match read_court(alloc, zone, close)? {
        Some(court) => Ok(Some(Request::Zone(court))),
        None => Ok(None),
    }
}

/// What the rest of a line asks for, by its first word.
fn read_by_word(word: &[u8], text: &[u8]) -> Option<Request>
    ensures value { result ≡ asked_by word.now text.now }
    ensures asked { IfSome result IsAsked }
{
    if word == b"forward".as_slice() {
        return read_count(Direction::Forward, text);
    }
    if word == b"backward".as_slice() {
        return read_count(Direction::Backward, text);
    }
    if word == b"federal".as_slice() {
        return read_enter(DayKind::Federal, text);
    }
    if word == b"state".as_slice() {
        return read_enter(DayKind::State, text);
    }
    if word == b"closed".as_slice() {
        return read_enter(DayKind::Closed, text);
    }
    if word == b"months".as_slice() {
        return read_months(text);
    }
    if word == b"rule".as_slice() {
        return read_rule(text);
    }
    if word == b"span".as_slice() {
        return read_span(text);
    }
    if word == b"hours".as_slice() {
        return read_hours(text);
    }
    if word == b"short".as_slice() {
        return read_short(text);
    }
    if word == b"closing".as_slice() {
        return read_closing(text);
    }
    None
}

/// What the line asks for, if it has the form of a request and its values lie in their limits.
pub fn read_request(alloc: Global, line: &[u8]) -> Result<Option<Request>, AllocError>
    ensures value { IfOk result (λ request. request ≡ request_of line.now) }
    ensures asked { IfOk result (λ request. IfSome request IsAsked) }
{
    let Some((word, text)) = split_word(line) else {
        return Ok(None);
    };
    if word == b"zone".as_slice() {
        return read_zone_line(alloc, text);
    }
    Ok(read_by_word(word, text))
}
