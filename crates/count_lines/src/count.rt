//! The engine of `count`: lines of days in, one answer each out.
ghost use Rattle.std.specs.Prelude.{◌≡◌, ◌≤◌, true, length, IfOk, OnErr, IfSome};
ghost use Rattle.std.specs.Io.KnownBytes.{Appends};
ghost use Rattle.line_io.specs.Lines.{lines_of};
ghost use Rattle.line_io.specs.Output.{HasFront};
ghost use Rattle.civil_time.specs.LocalTime.{IsMoment, local_day, seconds};
ghost use Rattle.court_days.specs.Court.{zone_of};
ghost use Rattle.court_rules.specs.Acts.{is_entered_day, is_instant};
ghost use Rattle.count_lines.specs.Answers.{outcome, outcome_of, entering, spanning, shortening, after_hours, last_day, first_state, state_of};
ghost use Rattle.count_lines.specs.Requests.{IsAsked};
ghost use Rattle.count_lines.specs.Count.{count_text, bad_answers};

use crate::answer::{Answer, counts_as_bad, write_answer};
use crate::fault::RunFault;
use crate::request::{Request, read_request};
use civil_time::clock_bytes;
use court_days::{
    Calendar, CalendarFault, Court, Day, DayKind, Direction, closing, count_days, count_hours,
    count_months, is_entered,
};
use line_io::{Answerer, CountEnd, run_lines};
use std::alloc::{AllocError, Global};
use std::io::{Read, Write};

/// Answers lines by what the lines before them entered.
#[derive(Drop)]
pub struct Counter {
    alloc: Global,
    court: Court,
    calendar: Calendar,
}

impl Answerer for Counter {
    ghost use Rattle.std.specs.Prelude.{◌≡◌, ⊤};
    ghost use Rattle.count_lines.specs.Answers.{CourtState, state_of, line_answer, long_line_answer};

    type Fault = AllocError;

    const LIMIT: u32 = 256;

    const MAX_PENDING: u32 = 65_536;

    ghost LIMIT = { 256 };

    ghost MAX_PENDING = { 65_536 };

    ghost State = { CourtState };

    ghost Shows = { λ counter state. state_of counter ≡ state };

    ghost Trusts = { λ _. ⊤ };

    // The calendar is dropped after a fault.
    ghost Fails = { λ _ _ _ _. ⊤ };

    ghost Steps = { λ _ _. ⊤ };

    ghost answer_to = { line_answer };

    ghost too_long = { long_line_answer };

    fn answer(&mut self, line: &[u8], out: &mut Vec<u8>) -> Result<bool, AllocError> {
        let answer = self.answer_to(line)?;
        write_answer(&answer, out)?;
        Ok(counts_as_bad(&answer))
    }

    fn answer_long(&mut self, out: &mut Vec<u8>) -> Result<bool, AllocError> {
        write_answer(&Answer::Bad, out)?;
        Ok(true)
    }
}

/// Returns the end of a time, or `Bad` where the time has none.
fn last_day(end: Option<Day>) -> Answer
    ensures { result ≡ last_day end }
{
    match end {
        Some(day) => Answer::LastDay(day),
        None => Answer::Bad,
    }
}

/// Whether a court may enter the day.
fn is_entered_day(day: Day) -> bool
    ensures { result ≡ is_entered_day day }
{
    is_entered(day)
}

/// Whether a period of hours may begin at the moment: its local day is one that a court may enter.
/// Each such moment is one from 1999-12-31T00:00Z to 2100-01-02T00:00Z.
pub fn may_begin(court: &Court, at: i64) -> bool
    requires { IsMoment at }
    ensures value { result ≡ is_entered_day (local_day (zone_of court.now) (seconds at)) }
    ensures instant { result ≡ true → is_instant at ≡ true }
{
    let (day, _) = court.local(at);
    is_entered_day(day)
}

impl Counter {
    /// Before the first line the court keeps the time of Greenwich and closes at 17:00, and nothing
    /// is entered.
    pub fn start(alloc: Global) -> Result<Counter, AllocError>
        ensures { IfOk result (λ counter. state_of counter ≡ first_state) }
    {
        let Ok(court) = Court::read(alloc, "UTC0", "17:00") else {
            return Err(AllocError);
        };
        Ok(Counter {
            alloc,
            court,
            calendar: Calendar::new(alloc),
        })
    }

    /// The court in which the next line is read.
    pub fn court(&self) -> &Court
        ensures { result.now ≡ (state_of self.now).court }
    {
        &self.court
    }

    /// What the lines so far entered.
    pub fn calendar(&self) -> &Calendar
        ensures { result.now ≡ (state_of self.now).calendar }
    {
        &self.calendar
    }

    fn enter(&mut self, kind: DayKind, day: Day) -> Result<Answer, AllocError>
        requires { IsAsked (Request.Enter kind day) }
        ensures { IfOk result (λ answer. (answer, state_of self.new) ≡ entering (state_of self.old) kind day) }
    {
        match self.calendar.add_day(kind, day) {
            Ok(_) => Ok(Answer::Done),
            Err(CalendarFault::Full) => Ok(Answer::Full),
            Err(CalendarFault::OutOfRange) => Ok(Answer::Bad),
            Err(CalendarFault::NoMemory) => Err(AllocError),
        }
    }

    fn span(&mut self, start: i64, end: i64) -> Result<Answer, AllocError>
        ensures { IfOk result (λ answer. (answer, state_of self.new)
            ≡ spanning (state_of self.old) (seconds start) (seconds end)) }
    {
        match self.calendar.add_span(start, end) {
            Ok(_) => Ok(Answer::Done),
            Err(CalendarFault::Full) => Ok(Answer::Full),
            Err(CalendarFault::OutOfRange) => Ok(Answer::Bad),
            Err(CalendarFault::NoMemory) => Err(AllocError),
        }
    }

    fn shorten(&mut self, day: Day, minute: u32) -> Result<Answer, AllocError>
        requires { IsAsked (Request.Short day minute) }
        ensures { IfOk result (λ answer. (answer, state_of self.new) ≡ shortening (state_of self.old) day minute) }
    {
        if minute >= self.court.close_minute() {
            return Ok(Answer::Bad);
        }
        match self.calendar.add_short(day, minute) {
            Ok(_) => Ok(Answer::Done),
            Err(CalendarFault::Full) => Ok(Answer::Full),
            Err(CalendarFault::OutOfRange) => Ok(Answer::Bad),
            Err(CalendarFault::NoMemory) => Err(AllocError),
        }
    }

    /// The end of a period of hours, where its moment has a local day that a court may enter.
    fn after_hours(&self, direction: Direction, at: i64, count: u32) -> Answer
        requires moment { IsMoment at }
        requires count { count ≤ 8760 }
        ensures { result ≡ after_hours (state_of self.now) direction (seconds at) count }
    {
        let (day, _) = self.court.local(at);
        if !is_entered(day) {
            return Answer::Bad;
        }
        let end = count_hours(&self.court, &self.calendar, direction, at, count);
        Answer::Moment(self.court.moment_bytes(end))
    }

    /// Answers a request.
    fn answer_request(&mut self, request: Request) -> Result<Answer, AllocError>
        requires { IsAsked request }
        ensures { IfOk result (λ answer. (answer, state_of self.new) ≡ outcome_of (state_of self.old) (Some request)) }
    {
        match request {
            Request::Enter(kind, day) => self.enter(kind, day),
            Request::Span(start, end) => self.span(start, end),
            Request::Short(day, minute) => self.shorten(day, minute),
            Request::Zone(court) => {
                self.court = court;
                Ok(Answer::Done)
            }
            Request::CountDays(direction, trigger, count) => {
                Ok(Answer::LastDay(count_days(&self.calendar, direction, trigger, count)))
            }
            Request::CountMonths(direction, trigger, count) => {
                Ok(Answer::LastDay(count_months(&self.calendar, direction, trigger, count)))
            }
            Request::CountHours(direction, at, count) => Ok(self.after_hours(direction, at, count)),
            Request::ByRule(rule, trigger, method) => {
                Ok(last_day(rule.end(&self.calendar, trigger, method)))
            }
            Request::Closing(day) => {
                let minute = closing(&self.court, &self.calendar, day);
                Ok(Answer::Clock(clock_bytes(minute)))
            }
        }
    }

    /// Answers a line.
    fn answer_to(&mut self, line: &[u8]) -> Result<Answer, AllocError>
        ensures { IfOk result (λ answer. (answer, state_of self.new) ≡ outcome (state_of self.old) line.now) }
    {
        if line.is_empty() {
            return Ok(Answer::Empty);
        }
        match read_request(self.alloc, line)? {
            Some(request) => self.answer_request(request),
            None => Ok(Answer::Bad),
        }
    }
}

/// Answers each line of the reader, by what the lines before it entered, and counts the
/// lines and those answered `bad` or `full`. On a fault a front of the answers was written.
pub fn count_run<R: Read, W: Write>(
    alloc: Global,
    reader: &mut R,
    writer: &mut W,
) -> Result<CountEnd, RunFault>
    ensures whole { IfOk result (λ end. IfSome (R.remaining reader.old) (λ input.
        Appends (W.contents writer.old) (W.contents writer.new) (count_text input)
        × (end.lines ≡ length (lines_of input))
        × (end.bad ≡ bad_answers input))) }
    ensures front { OnErr result (IfSome (R.remaining reader.old) (λ input.
        HasFront (W.contents writer.old) (W.contents writer.new) (count_text input))) }
{
    let Ok(mut counter) = Counter::start(alloc) else {
        return Err(RunFault::NoMemory);
    };
    match run_lines(alloc, reader, writer, &mut counter) {
        Ok(end) => Ok(end),
        Err(fault) => Err(RunFault::from(fault)),
    }
}
