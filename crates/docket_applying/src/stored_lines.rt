//! The lines of a case's deadlines, by their acts and the stored ends.
ghost use Rattle.std.specs.Prelude.{◌≡◌, ◌≤◌, ℕ, length, IfOk, MatchResult};
ghost use Rattle.std.specs.List.{All};
ghost use Rattle.court_days.specs.Court.{zone_of};
ghost use Rattle.court_rules.specs.Standings.{AreActs, standing};
ghost use Rattle.docket_decisions.specs.EndRows.{end_rows_of, end_running};
ghost use Rattle.docket_history.specs.Records.{lines_from};
ghost use Rattle.docket_applying.specs.Told.{AreEndsBy, IsNotTold};

use crate::fault::Fault;
use crate::sound::is_sound_case;
use court_days::{Calendar, Court};
use court_rules::{Act, Standing, due};
use docket_decisions::{EndTime, StoredEnd, after_first, first_end};
use docket_history::{DeadlineLine, DeadlineView, line_of};
use std::alloc::{AllocError, Global};

/// Where a deadline stands, by its acts and its stored end.
fn standing_told(
    court: &Court,
    calendar: &Calendar,
    acts: &[Act],
    stored: Option<EndTime>,
) -> Standing
    requires { AreActs (zone_of court.now) acts.now }
    ensures { stored ≡ end_running (zone_of court.now) (standing (zone_of court.now) calendar.now acts.now)
        → result ≡ standing (zone_of court.now) calendar.now acts.now }
{
    match stored {
        Some(stored) => Standing::Running(stored.end()),
        None => due(court, calendar, acts),
    }
}

/// The deadlines, numbered from 1, with where each stands by the rows of their ends.
fn lines_by_ends(
    alloc: Global,
    court: &Court,
    calendar: &Calendar,
    deadlines: &[DeadlineView],
    stored: &[StoredEnd],
) -> Result<Vec<DeadlineLine>, AllocError>
    requires few { length deadlines.now ≤ 1000 }
    requires acts { All (λ d. AreActs (zone_of court.now) d.acts) deadlines.now }
    ensures { (case : ℕ) → stored.now ≡ end_rows_of (zone_of court.now) calendar.now case deadlines.now
        → IfOk result (λ lines. lines.items ≡ lines_from court.now calendar.now 1 deadlines.now) }
{
    let mut lines = Vec::new(alloc);
    let mut rest = stored;
    let mut number = 1;
    for deadline in deadlines {
        let end = first_end(rest, number);
        let standing = standing_told(court, calendar, deadline.acts.as_slice(), end);
        lines.push(line_of(alloc, court, calendar, number, deadline, standing)?)?;
        rest = after_first(rest, number);
        number += 1;
    }
    Ok(lines)
}

/// The lines of the deadlines of a case, by the rows of their ends and the calendar.
pub(crate) fn lines_told(
    alloc: Global,
    court: &Court,
    calendar: &Calendar,
    deadlines: &[DeadlineView],
    stored: &[StoredEnd],
) -> Result<Vec<DeadlineLine>, Fault>
    ensures { (case : ℕ) → MatchResult result
        (λ lines. AreEndsBy court.now calendar.now case deadlines.now stored.now → lines.items ≡ lines_from court.now calendar.now 1 deadlines.now)
        (IsNotTold (AreEndsBy court.now calendar.now case deadlines.now stored.now)) }
{
    if !is_sound_case(court, deadlines) {
        return Err(Fault::Damaged);
    }
    Ok(lines_by_ends(alloc, court, calendar, deadlines, stored)?)
}
