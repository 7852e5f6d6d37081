//! What a court has entered: declared holidays, the days and the spans of time in which the clerk's
//! office was closed, and the days on which it is scheduled to close earlier.
ghost use Rattle.std.specs.Prelude.{◌≡◌, ℕ, ◌+◌, ◌-◌, ◌≤◌, ◌<◌, ◌↔◌, ◌≢◌, true, false, IsTrue, IfSome, IfNone, IfOk, OnOk, OnErr};
ghost use Rattle.civil_time.specs.LocalTime.{seconds};
ghost use Rattle.court_days.specs.Calendar.{short_close};
ghost use Rattle.court_days.specs.Civil.{IsEnteredDay, IsEnteredSpan, IsEnteredShort};
ghost use Rattle.court_days.specs.Limits.{most_rows};

use crate::day_set::DaySet;
use crate::short_days::ShortDays;
use crate::span_set::{Span, SpanSet};
use civil_time::Day;
use std::alloc::{AllocFailed, Global};
use std::marker::Model;

/// 2000-01-01, the first day that a court may enter.
const FIRST_ENTERED_DAY: u32 = 10_957;

/// 2099-12-31, the last day that a court may enter.
const LAST_ENTERED_DAY: u32 = 47_481;

/// 1999-12-31T00:00Z, the first instant at which an entered span may start.
const FIRST_ENTERED_INSTANT: i64 = 946_598_400;

/// 2100-01-02T00:00Z, the last instant at which an entered span may end.
const LAST_ENTERED_INSTANT: i64 = 4_102_531_200;

/// How many minutes a day has.
const MINUTES_OF_A_DAY: u32 = 1440;

/// How many rows a calendar holds at most.
const MAX_ROWS: usize = 4000;

/// Which way a period is counted (Fed. R. Civ. P. 6(a)(5)): `Forward` after an event, `Backward`
/// before one.
#[derive(Clone, Copy, PartialEq, Eq)]
pub enum Direction {
    Forward,
    Backward,
}

/// What a day is entered as: a holiday that the President or Congress declared (Fed. R. Civ. P.
/// 6(a)(6)(B)), one that the state declared (6(a)(6)(C)), or a day on which the clerk's office was
/// inaccessible (6(a)(3)).
#[derive(Clone, Copy, PartialEq, Eq)]
pub enum DayKind {
    Federal,
    State,
    Closed,
}

/// Why a day or a span was not entered. The day is not one of 2000-01-01 to 2099-12-31, the closing
/// minute is not one of a day, or the span is empty or not within 1999-12-31T00:00Z to
/// 2100-01-02T00:00Z. Or the calendar holds 4,000 rows already, or memory ran out.
#[derive(Clone, Copy, PartialEq, Eq)]
pub enum CalendarFault {
    OutOfRange,
    Full,
    NoMemory,
}

/// What a court has entered: days of 2000-01-01 to 2099-12-31, each once under a kind, and spans of
/// time in which the clerk's office was closed, each once. Also days on which it is scheduled to
/// close earlier, each once. Together they are at most 4,000 rows.
#[derive(Drop)]
pub struct Calendar {
    federal: DaySet,
    state: DaySet,
    closed: DaySet,
    spans: SpanSet,
    short: ShortDays,
}

impl Model for Calendar {
    ghost use Rattle.std.specs.FinSet as set;
    ghost use Rattle.court_days.specs.Calendar.{Entered, entered_code};
    ghost use Rattle.court_days.specs.Kept.{entered_in, IsKept};

    ghost Value = { Entered };

    ghost coded = { entered_code };

    ghost view = { entered_in };

    ghost invariant = { IsKept };
}

impl<T: Drop> From<AllocFailed<T>> for CalendarFault {
    ghost use Rattle.std.specs.Prelude.{◌≡◌};
    ghost use Rattle.court_days.specs.declared.calendar.CalendarFault.TheVariants.{NoMemory};

    ghost from_gives = { λ _ fault. fault ≡ NoMemory };

    fn from(_: AllocFailed<T>) -> Self {
        CalendarFault::NoMemory
    }
}

/// Whether a court may enter the day: one from 2000-01-01 to 2099-12-31.
pub fn is_entered(day: Day) -> bool
    ensures { IsTrue result ↔ IsEnteredDay day }
{
    (FIRST_ENTERED_DAY..=LAST_ENTERED_DAY).contains(&day.epoch_day())
}

/// The span from `start` up to but not with `end`, if a court may enter it.
fn entered_span(start: i64, end: i64) -> Option<Span>
    ensures some { IfSome result (λ span. IsEnteredSpan (seconds start) (seconds end)
        × (span ≡ record { start = seconds start; end = seconds end })) }
    ensures none { IfNone result (¬ (IsEnteredSpan (seconds start) (seconds end))) }
{
    if start < FIRST_ENTERED_INSTANT || end > LAST_ENTERED_INSTANT || start >= end {
        return None;
    }
    Some(Span {
        start: start as u64,
        end: end as u64,
    })
}

/// Whether a court may enter the day as one on which the office closes at the minute.
fn is_entered_short(day: Day, minute: u32) -> bool
    ensures { IsTrue result ↔ IsEnteredShort day minute }
{
    is_entered(day) && minute < MINUTES_OF_A_DAY
}

/// The minute of the day at which the office is scheduled to close, if the day is short.
pub fn short_close(calendar: &Calendar, day: Day) -> Option<u32>
    ensures { result ≡ short_close calendar.now day }
{
    calendar.short.get(day)
}

impl Calendar {
    ghost use Rattle.court_days.specs.Calendar.{Holds, HoldsSpan, IsShort, no_days, with_day, with_span, with_short, rows_of, IsWithinLimits};
    ghost use Rattle.court_days.specs.Spans.{Meets};

    /// A calendar in which nothing is entered. It takes no memory yet.
    pub fn new(alloc: Global) -> Self
        ensures { result ≡ no_days }
    {
        Calendar {
            federal: DaySet::new(alloc),
            state: DaySet::new(alloc),
            closed: DaySet::new(alloc),
            spans: SpanSet::new(alloc),
            short: ShortDays::new(alloc),
        }
    }

    /// How many rows the calendar has, of days, spans and short days: at most 4,000.
    pub fn len(&self) -> usize
        ensures value { result ≡ rows_of self.now }
        ensures limits { IsWithinLimits self.now }
        ensures room { rows_of self.now ≤ most_rows }
    {
        let days = self.federal.len() + self.state.len() + self.closed.len();
        days + self.spans.len() + self.short.len()
    }

    /// Whether the calendar has no rows.
    pub fn is_empty(&self) -> bool
        ensures { IsTrue result ↔ (rows_of self.now ≡ 0) }
    {
        self.len() == 0
    }

    /// Whether the day is entered under the kind.
    pub fn holds_day(&self, kind: DayKind, day: Day) -> bool
        ensures means { IsTrue result ↔ Holds self.now kind day }
        ensures limits { IsWithinLimits self.now }
    {
        let days = match kind {
            DayKind::Federal => &self.federal,
            DayKind::State => &self.state,
            DayKind::Closed => &self.closed,
        };
        days.contains(day)
    }

    /// Enters the day under the kind. `true`: it is new; `false`: it was there already, and nothing
    /// changed. After an error the calendar is as it was.
    pub fn add_day(&mut self, kind: DayKind, day: Day) -> Result<bool, CalendarFault>
        // The faults, in the order in which they are checked.
        ensures out_of_range { (result ≡ Err CalendarFault.OutOfRange) ↔ ¬ (IsEnteredDay day) }
        ensures full { (result ≡ Err CalendarFault.Full)
            ↔ (IsEnteredDay day × ¬ (Holds self.old kind day) × (rows_of self.old ≡ most_rows)) }
        ensures err { OnErr result (self.new ≡ self.old) }

        // What is there already stays, and what is new is entered.
        ensures stood { (result ≡ Ok false) ↔ (IsEnteredDay day × Holds self.old kind day) }
        ensures kept { result ≡ Ok false → self.new ≡ self.old }
        ensures entered { result ≡ Ok true → self.new ≡ with_day self.old kind day }

        // The calendar is within its limits, before and after.
        ensures limits { IsWithinLimits self.old × IsWithinLimits self.new }
        ensures room { (rows_of self.old ≤ most_rows) × (rows_of self.new ≤ most_rows) }
    {
        let rows = self.len();
        if !is_entered(day) {
            return Err(CalendarFault::OutOfRange);
        }
        if self.holds_day(kind, day) {
            return Ok(false);
        }
        if rows >= MAX_ROWS {
            return Err(CalendarFault::Full);
        }
        match kind {
            DayKind::Federal => self.federal.insert(day)?,
            DayKind::State => self.state.insert(day)?,
            DayKind::Closed => self.closed.insert(day)?,
        }
        Ok(true)
    }
    /// Whether the span from `start` up to but not with `end` is entered, both in seconds since
    /// 1970-01-01T00:00Z.
    pub fn holds_span(&self, start: i64, end: i64) -> bool
        ensures means { IsTrue result ↔ HoldsSpan self.now (seconds start) (seconds end) }
        ensures limits { IsWithinLimits self.now }
    {
        let spans = &self.spans;
        match entered_span(start, end) {
            Some(span) => spans.contains(span),
            None => false,
        }
    }

    /// Enters a span of time in which the clerk's office was closed, from `start` up to but not with
    /// `end`, both in seconds since 1970-01-01T00:00Z. It counts for periods of hours alone. `true`:
    /// it is new; `false`: it was there already, and nothing changed. After an error the calendar is
    /// as it was.
    pub fn add_span(&mut self, start: i64, end: i64) -> Result<bool, CalendarFault>
        // The faults, in the order in which they are checked.
        ensures out_of_range { (result ≡ Err CalendarFault.OutOfRange)
            ↔ ¬ (IsEnteredSpan (seconds start) (seconds end)) }
        ensures full { (result ≡ Err CalendarFault.Full)
            ↔ (IsEnteredSpan (seconds start) (seconds end)
            × ¬ (HoldsSpan self.old (seconds start) (seconds end)) × (rows_of self.old ≡ most_rows)) }
        ensures err { OnErr result (self.new ≡ self.old) }

        // What is there already stays, and what is new is entered.
        ensures stood { (result ≡ Ok false)
            ↔ (IsEnteredSpan (seconds start) (seconds end) × HoldsSpan self.old (seconds start) (seconds end)) }
        ensures kept { result ≡ Ok false → self.new ≡ self.old }
        ensures entered { result ≡ Ok true → self.new ≡ with_span self.old (seconds start) (seconds end) }

        // The calendar is within its limits, before and after.
        ensures limits { IsWithinLimits self.old × IsWithinLimits self.new }
        ensures room { (rows_of self.old ≤ most_rows) × (rows_of self.new ≤ most_rows) }
    {
        let rows = self.len();
        let Some(span) = entered_span(start, end) else {
            return Err(CalendarFault::OutOfRange);
        };
        if self.spans.contains(span) {
            return Ok(false);
        }
        if rows >= MAX_ROWS {
            return Err(CalendarFault::Full);
        }
        self.spans.insert(span)?;
        Ok(true)
    }

    /// Enters a day on which the clerk's office is scheduled to close at the minute of the day, after
    /// 00:00. Such a day counts for filings at the office alone, and moves no end. `true`: it is new;
    /// `false`: it was there already, whatever its minute, and nothing changed. After an error the
    /// calendar is as it was.
    pub fn add_short(&mut self, day: Day, minute: u32) -> Result<bool, CalendarFault>
        // The faults, in the order in which they are checked.
        ensures out_of_range { (result ≡ Err CalendarFault.OutOfRange) ↔ ¬ (IsEnteredShort day minute) }
        ensures full { (result ≡ Err CalendarFault.Full)
            ↔ (IsEnteredShort day minute × ¬ (IsShort self.old day) × (rows_of self.old ≡ most_rows)) }
        ensures err { OnErr result (self.new ≡ self.old) }

        // What is there already stays, and what is new is entered.
        ensures stood { (result ≡ Ok false) ↔ (IsEnteredShort day minute × IsShort self.old day) }
        ensures kept { result ≡ Ok false → self.new ≡ self.old }
        ensures entered { OnOk result (self.new ≡ with_short self.old day minute) }

        // The calendar is within its limits, before and after.
        ensures limits { IsWithinLimits self.old × IsWithinLimits self.new }
        ensures room { (rows_of self.old ≤ most_rows) × (rows_of self.new ≤ most_rows) }
    {
        let rows = self.len();
        if !is_entered_short(day, minute) {
            return Err(CalendarFault::OutOfRange);
        }
        if self.short.get(day).is_some() {
            return Ok(false);
        }
        if rows >= MAX_ROWS {
            return Err(CalendarFault::Full);
        }
        self.short.insert(day, minute)?;
        Ok(true)
    }

    /// Whether an entered span has an instant from `start` up to but not with `end`.
    pub(crate) fn is_closed_between(&self, start: u64, end: u64) -> bool
        ensures means { IsTrue result ↔ Meets self.now.spans start end }
        ensures limits { IsWithinLimits self.now }
    {
        self.spans.meets(start, end)
    }
}
