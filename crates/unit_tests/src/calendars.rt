//! What a court enters in its calendar, and which filings are in time by it.
use crate::dockets::court;
use court_days::CalendarFault::{Full, OutOfRange};
use court_days::DayKind::{Closed, Federal, State};
use court_days::Way::{Electronic, Office};
use court_days::{
    Calendar, CalendarFault, Court, Day, DayKind, End, Way, read_day, read_moment, timely,
};
use std::alloc::Global;
use std::test::Fail;

/// What a court enters: a day, a span of time, or a day and the minute at which the office then closes.
#[derive(Clone, Copy)]
enum Entry {
    Day(DayKind, &'static str),
    Span(i64, i64),
    Short(&'static str, u32),
}

type Entered = Result<bool, CalendarFault>;

/// Enters it in the calendar; none if its text spells no day.
fn enter(calendar: &mut Calendar, entry: Entry) -> Option<Entered> {
    Some(match entry {
        Entry::Day(kind, text) => calendar.add_day(kind, read_day(text.as_bytes())?),
        Entry::Span(start, end) => calendar.add_span(start, end),
        Entry::Short(text, minute) => calendar.add_short(read_day(text.as_bytes())?, minute),
    })
}

/// Entries in a calendar, one after the other, and the result of each.
const ENTRIES: [(Entry, Entered); 19] = [
    (Entry::Day(Closed, "2007-08-31"), Ok(true)),
    (Entry::Day(Closed, "2007-08-31"), Ok(false)),
    (Entry::Day(State, "2007-08-31"), Ok(true)),
    (Entry::Day(Federal, "2099-12-31"), Ok(true)),
    (Entry::Day(Closed, "1999-12-31"), Err(OutOfRange)),
    (Entry::Day(Closed, "2100-01-01"), Err(OutOfRange)),
    (Entry::Span(1_750_705_200, 1_750_708_800), Ok(true)),
    (Entry::Span(1_750_705_200, 1_750_708_800), Ok(false)),
    (Entry::Span(1_750_705_200, 1_750_708_801), Ok(true)),
    (Entry::Span(946_598_400, 4_102_531_200), Ok(true)),
    (Entry::Span(946_598_399, 4_102_531_200), Err(OutOfRange)),
    (Entry::Span(946_598_400, 4_102_531_201), Err(OutOfRange)),
    (Entry::Span(1_750_705_200, 1_750_705_200), Err(OutOfRange)),
    (Entry::Span(-1, 1_750_705_200), Err(OutOfRange)),
    (Entry::Short("2025-12-24", 720), Ok(true)),
    (Entry::Short("2025-12-24", 780), Ok(false)),
    (Entry::Short("2025-11-28", 0), Ok(true)),
    (Entry::Short("2025-12-23", 1440), Err(OutOfRange)),
    (Entry::Short("2100-01-01", 720), Err(OutOfRange)),
];

#[test]
fn entries(rt: HostRuntime) {
    let mut calendar = Calendar::new(rt.alloc());
    for (row, (entry, entered)) in ENTRIES.iter().enumerate() {
        assert!(rt; enter(&mut calendar, *entry) == Some(*entered), "row {row}");
    }
    assert_eq!(rt; calendar.len(), 8);
}

/// A calendar in which the 4,000 days from 2000-01-01 to 2010-12-13 are closed.
fn full_calendar(alloc: Global) -> Option<Calendar> {
    let mut calendar = Calendar::new(alloc);
    for day in (10_957..14_957).filter_map(Day::new) {
        calendar.add_day(Closed, day).ok()?;
    }
    Some(calendar)
}

/// Entries in a full calendar, and the result of each.
const ENTRIES_IN_FULL: [(Entry, Entered); 6] = [
    (Entry::Day(Closed, "2010-12-13"), Ok(false)),
    (Entry::Day(Closed, "2010-12-14"), Err(Full)),
    (Entry::Day(State, "2010-12-13"), Err(Full)),
    (Entry::Span(1_750_705_200, 1_750_708_800), Err(Full)),
    (Entry::Short("2025-12-24", 720), Err(Full)),
    (Entry::Short("2025-12-24", 1440), Err(OutOfRange)),
];

#[test]
fn a_calendar_is_full_with_4000_rows(rt: HostRuntime) -> Result<(), Fail> {
    let mut calendar = full_calendar(rt.alloc()).ok_or("no calendar")?;
    for (row, (entry, entered)) in ENTRIES_IN_FULL.iter().enumerate() {
        assert!(rt; enter(&mut calendar, *entry) == Some(*entered), "row {row}");
    }
    assert_eq!(rt; calendar.len(), 4_000);
    Ok(())
}

/// An end, a moment, a way of filing, and whether the filing is in time.
type Filing = (&'static str, &'static str, Way, bool);

const TEN: &str = "2025-07-07T10:00-04:00";

/// On 2025-07-08 the clerk's office closes at 12:00, on the other days at 17:00.
const FILINGS: [Filing; 11] = [
    ("2025-07-07", "2025-07-06T23:59-04:00", Office, true),
    ("2025-07-07", "2025-07-07T17:00-04:00", Office, true),
    ("2025-07-07", "2025-07-07T17:01-04:00", Office, false),
    ("2025-07-07", "2025-07-08T09:00-04:00", Office, false),
    ("2025-07-07", "2025-07-07T23:59-04:00", Electronic, true),
    ("2025-07-07", "2025-07-08T00:00-04:00", Electronic, false),
    ("2025-07-08", "2025-07-08T12:00-04:00", Office, true),
    ("2025-07-08", "2025-07-08T12:01-04:00", Office, false),
    ("2025-07-08", "2025-07-08T23:59-04:00", Electronic, true),
    (TEN, TEN, Office, true),
    (TEN, "2025-07-07T10:01-04:00", Electronic, false),
];

/// The end of a day, or a moment.
fn read_end(text: &[u8]) -> Option<End> {
    match read_day(text) {
        Some(day) => Some(End::LastDay(day)),
        None => Some(End::Moment(read_moment(text)?)),
    }
}

/// Whether the filing is in time, if the texts spell an end and a moment.
fn is_in_time(court: &Court, calendar: &Calendar, (end, at, way, _): Filing) -> Option<bool> {
    let (end, at) = (read_end(end.as_bytes())?, read_moment(at.as_bytes())?);
    Some(timely(court, calendar, end, at, way))
}

#[test]
fn filings(rt: HostRuntime) -> Result<(), Fail> {
    let court = court(rt.alloc()).ok_or("no court")?;
    let mut calendar = Calendar::new(rt.alloc());
    assert!(rt; enter(&mut calendar, Entry::Short("2025-07-08", 720)) == Some(Ok(true)));
    for filing in FILINGS {
        let is_in_time = is_in_time(&court, &calendar, filing);
        assert!(rt; is_in_time == Some(filing.3), "{} {}", filing.0, filing.1);
    }
    Ok(())
}
