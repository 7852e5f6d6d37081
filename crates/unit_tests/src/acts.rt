//! The lists of acts that a deadline may have.
use court_days::{Direction, Way, read_day};
use court_rules::{Act, DayPeriod, MotionKind, Period, Start, acts_ok};
use std::alloc::Global;
use std::test::Fail;

/// A period that begins on the day.
fn start(trigger: &[u8], period: Period, direction: Direction, three_days: bool) -> Option<Act> {
    Some(Act::Start(Start::Days(DayPeriod {
        trigger: read_day(trigger)?,
        period,
        direction,
        three_days,
    })))
}

/// The act of that name.
fn act(word: &str) -> Option<Act> {
    let (days, months) = (Period::Days(21), Period::Months(120));
    match word {
        "start" => start(b"2025-06-13", days, Direction::Forward, false),
        "start_in_2100" => start(b"2100-01-01", days, Direction::Forward, false),
        "served_backward" => start(b"2025-12-12", months, Direction::Backward, true),
        "motion" => Some(Act::Motion(read_day(b"2025-07-01")?, MotionKind::B)),
        "resume" => Some(Act::Resume(read_day(b"2025-08-15")?, false)),
        "fixed" => Some(Act::Fixed(read_day(b"2025-09-01")?)),
        "fixed_in_1999" => Some(Act::Fixed(read_day(b"1999-12-31")?)),
        "extend" => Some(Act::ExtendBy(1)),
        "extend_by_0" => Some(Act::ExtendBy(0)),
        "extend_by_3651" => Some(Act::ExtendBy(3651)),
        "done" => Some(Act::Done(1_751_947_140, Way::Electronic)),
        "done_in_1999" => Some(Act::Done(946_598_399, Way::Office)),
        "vacated" => Some(Act::Vacated),
        _ => None,
    }
}

/// Whether a deadline may have these acts; none if a word names no act, or memory runs out.
fn are_acts(alloc: Global, words: &str) -> Option<bool> {
    let mut acts = Vec::new(alloc);
    for word in words.split_whitespace() {
        acts.push(act(word)?).ok()?;
    }
    Some(acts_ok(&acts))
}

/// Acts in their order, and whether a deadline may have them.
const LISTS: [(&str, bool); 19] = [
    ("start done", true),
    ("start vacated", true),
    ("start motion fixed", true),
    ("start motion resume motion", true),
    ("fixed extend", true),
    ("", false),
    ("done", false),
    ("start start", false),
    ("start done vacated", false),
    ("start motion motion", false),
    ("start fixed", false),
    ("start resume", false),
    ("start motion extend", false),
    ("start extend_by_0", false),
    ("start extend_by_3651", false),
    ("start done_in_1999", false),
    ("fixed_in_1999", false),
    ("start_in_2100", false),
    ("served_backward", false),
];

#[test]
fn orders_and_limits(rt: HostRuntime) {
    for (words, may_be) in LISTS {
        assert!(rt; are_acts(rt.alloc(), words) == Some(may_be), "{words}");
    }
}

#[test]
fn a_hundred_acts(rt: HostRuntime) -> Result<(), Fail> {
    for (count, may_be) in [(98, true), (99, false)] {
        let extensions = "extend ".repeat(rt.alloc(), count)?;
        let words = format!(in rt.alloc(); "start {extensions}vacated")?;
        assert!(rt; are_acts(rt.alloc(), &words) == Some(may_be), "{count}");
    }
    Ok(())
}
