//! Where the deadlines of a case stand, in words.
use court_days::{Court, Day, End};
use court_rules::Standing;
use docket_history::DeadlineLine;
use std::alloc::{AllocError, Global};

/// The case whose deadlines are shown.
pub const CASE: u32 = 1;

/// The line that asks where the deadlines of the case stand.
pub const ASKED: &[u8] = b"?\n";

/// The first and the last instant that a text may show, in seconds since 1970-01-01T00:00Z.
const INSTANTS: (i64, i64) = (315_705_600, 64_060_329_600);

fn day_text(alloc: Global, day: Day) -> Result<String, AllocError> {
    let (year, month, day) = day.ymd();
    format!(in alloc; "due {year:04}-{month:02}-{day:02}")
}

/// The last day of a time, with when the clerk's office closes on it, where that is earlier than on others.
fn last_day_text(alloc: Global, court: &Court, day: Day, close: u32) -> Result<String, AllocError> {
    let text = day_text(alloc, day)?;
    if close == court.close_minute() {
        return Ok(text);
    }
    let (hour, minute) = (close / 60, close % 60);
    format!(in alloc; "{text}, the office closes at {hour:02}:{minute:02}")
}

fn end_text(alloc: Global, court: &Court, end: End, close: u32) -> Result<String, AllocError> {
    match end {
        End::LastDay(day) => last_day_text(alloc, court, day, close),
        End::Moment(at) => {
            if at < INSTANTS.0 || at > INSTANTS.1 {
                return String::from_str(alloc, "due out of reach");
            }
            let moment = court.moment_text(alloc, at)?;
            format!(in alloc; "due {moment}")
        }
    }
}

/// Where a deadline stands, in words.
fn standing_text(alloc: Global, court: &Court, line: &DeadlineLine) -> Result<String, AllocError> {
    match line.standing {
        Standing::Running(end) => end_text(alloc, court, end, line.close),
        Standing::Suspended => String::from_str(alloc, "suspended"),
        Standing::Awaiting => String::from_str(alloc, "awaiting"),
        Standing::Done => String::from_str(alloc, "done"),
        Standing::Vacated => String::from_str(alloc, "vacated"),
    }
}

/// A line for each deadline.
pub fn push_deadlines(
    alloc: Global,
    court: &Court,
    lines: &[DeadlineLine],
    out: &mut Vec<u8>,
) -> Result<(), AllocError> {
    for line in lines {
        let standing = standing_text(alloc, court, line)?;
        let (number, party, rule) = (line.number, line.party, line.rule.as_str());
        let text = format!(in alloc; "{number} of {party} by {rule}: {standing}\n")?;
        out.extend_from_slice(text.as_bytes())?;
    }
    Ok(())
}
