//! The lines of a case's deadlines, and when the clerk's office closes on the last day of each.
ghost use Rattle.std.specs.Prelude.{◌≡◌, ◌<◌, ◌≤◌, length, IfOk};
ghost use Rattle.std.specs.List.{All};
ghost use Rattle.court_days.specs.Court.{zone_of};
ghost use Rattle.court_rules.specs.Standings.{AreActs};
ghost use Rattle.docket_history.specs.Records.{close_of_end, close_of_standing, line_of, lines_from};

use crate::record::DeadlineLine;
use crate::view::DeadlineView;
use court_days::{Calendar, Court, End, closing};
use court_rules::{Standing, due};
use docket_command::Text;
use std::alloc::{AllocError, Global};

/// When the clerk's office is scheduled to close on the last day of a time: 0 where the time ends at an
/// instant.
pub fn close_of_end(court: &Court, calendar: &Calendar, end: End) -> u32
    ensures value { result ≡ close_of_end court.now calendar.now end }
    ensures limit { result < 1440 }
{
    match end {
        End::LastDay(day) => closing(court, calendar, day),
        End::Moment(_) => 0,
    }
}

/// The same of a deadline: 0 too where no time runs.
pub fn close_of_standing(court: &Court, calendar: &Calendar, standing: Standing) -> u32
    ensures value { result ≡ close_of_standing court.now calendar.now standing }
    ensures limit { result < 1440 }
{
    match standing {
        Standing::Running(end) => close_of_end(court, calendar, end),
        _ => 0,
    }
}

/// A deadline with where it stands.
pub fn line_of(
    alloc: Global,
    court: &Court,
    calendar: &Calendar,
    number: u32,
    deadline: &DeadlineView,
    standing: Standing,
) -> Result<DeadlineLine, AllocError>
    ensures { IfOk result (λ line. line ≡ line_of court.now calendar.now number deadline.now standing) }
{
    Ok(DeadlineLine {
        number,
        party: deadline.party,
        rule: Text::from_str(alloc, deadline.rule.name())?,
        standing,
        close: close_of_standing(court, calendar, standing),
    })
}

/// The deadlines, numbered from 1, with where each stands by the calendar.
pub fn deadline_lines(
    alloc: Global,
    court: &Court,
    calendar: &Calendar,
    deadlines: &[DeadlineView],
) -> Result<Vec<DeadlineLine>, AllocError>
    requires few { length deadlines.now ≤ 1000 }
    requires acts { All (λ d. AreActs (zone_of court.now) d.acts) deadlines.now }
    ensures { IfOk result (λ lines. lines.items ≡ lines_from court.now calendar.now 1 deadlines.now) }
{
    let mut lines = Vec::new(alloc);
    let mut number = 1;
    for deadline in deadlines {
        let standing = due(court, calendar, deadline.acts.as_slice());
        lines.push(line_of(alloc, court, calendar, number, deadline, standing)?)?;
        number += 1;
    }
    Ok(lines)
}
