//! Events, and the text around them in a calendar.
ghost use Rattle.std.specs.Prelude.{◌≡◌, ◌++◌, IfOk, OnOk, string_bytes};
ghost use Rattle.icalendar.specs.ContentLines.{content_line};
ghost use Rattle.icalendar.specs.Events.{start_line, event_text, calendar_head, calendar_foot};

use crate::content_line::{push_line, push_property};
use crate::time::{DateText, UtcText};
use court_days::End;
use std::alloc::{AllocError, Global};

/// A deadline as an event.
#[derive(Clone, Copy)]
pub struct Event<'a> {
    /// What distinguishes the event from every other.
    pub uid: &'a str,
    /// When this was written, in seconds since 1970-01-01T00:00Z.
    pub stamp: i64,
    /// The last day, or the instant, of the deadline.
    pub end: End,
    pub summary: &'a str,
    pub description: &'a str,
}

/// When the event is.
fn start_line(alloc: Global, end: End) -> Result<String, AllocError>
    ensures { IfOk result (λ line. string_bytes line ≡ start_line end) }
{
    match end {
        End::LastDay(day) => {
            let date = DateText(day);
            format!(in alloc; "DTSTART;VALUE=DATE:{date}")
        }
        End::Moment(at) => {
            let instant = UtcText(at);
            format!(in alloc; "DTSTART:{instant}")
        }
    }
}

/// Adds the lines of an event.
fn push_event(text: &mut String, alloc: Global, event: &Event) -> Result<(), AllocError>
    ensures { OnOk result (string_bytes text.new ≡ string_bytes text.old
        ++ event_text event.now.uid.now event.now.stamp event.now.end event.now.summary.now event.now.description.now) }
{
    let stamp = UtcText(event.stamp);
    let stamp_line = format!(in alloc; "DTSTAMP:{stamp}")?;
    let start_line = start_line(alloc, event.end)?;
    push_line(text, "BEGIN:VEVENT")?;
    push_property(text, alloc, "UID", event.uid)?;
    push_line(text, &stamp_line)?;
    push_line(text, &start_line)?;
    push_property(text, alloc, "SUMMARY", event.summary)?;
    push_property(text, alloc, "DESCRIPTION", event.description)?;
    push_line(text, "TRANSP:TRANSPARENT")?;
    push_line(text, "END:VEVENT")
}

/// The content lines of an event.
pub fn event_text(alloc: Global, event: &Event) -> Result<String, AllocError>
    ensures { IfOk result (λ text. string_bytes text
        ≡ event_text event.now.uid.now event.now.stamp event.now.end event.now.summary.now event.now.description.now) }
{
    let mut text = String::new(alloc);
    push_event(&mut text, alloc, event)?;
    Ok(text)
}

/// The text before the events of a calendar, which tells its name and how often a program that
/// subscribes to it reads it again.
pub fn calendar_head() -> &'static str
    ensures { result.now ≡ calendar_head }
{
    "BEGIN:VCALENDAR\r\nVERSION:2.0\r\nPRODID:-//Wogzenay//docketctl//EN\r\nCALSCALE:GREGORIAN\r\n\
     X-WR-CALNAME:Court deadlines\r\n\
     REFRESH-INTERVAL;VALUE=DURATION:PT1H\r\nX-PUBLISHED-TTL:PT1H\r\n"
}

/// The text behind them.
pub fn calendar_foot() -> &'static str
    ensures { result.now ≡ calendar_foot }
{
    "END:VCALENDAR\r\n"
}
