//! The text of a docket: each case with its parties, its entries and its deadlines, and the calendar of all
//! days.
use anyhow::{Error, anyhow};
use court_days::{Court, Day, read_day};
use docket_history::{CaseRecord, DeadlineLine, DueRow};
use docket_plain::Plain;
use docket_store::Docket;
use docket_text::{calendar_text, case_text, due_rows, sort_calendar};
use sqlite::Alter;
use std::alloc::Global;

/// No docket here has a case with a higher number.
const LAST_CASE: u32 = 3;

fn day(text: &str) -> Result<Day, Error> {
    read_day(text.as_bytes()).ok_or_else(|| anyhow!("{text} is no day"))
}

fn push_text(
    alloc: Global,
    court: &Court,
    case: &CaseRecord,
    lines: &[DeadlineLine],
    text: &mut Vec<u8>,
) -> Result<(), Error> {
    let added = case_text(alloc, court, case, lines)?;
    text.extend_from_slice(added.as_bytes())?;
    Ok(())
}

/// Appends the text of the case of a number, if there is one.
fn push_case<S: Alter>(
    alloc: Global,
    docket: &mut Docket<S>,
    number: u32,
    text: &mut Vec<u8>,
) -> Result<(), Error> {
    let Ok(lines) = docket.deadlines(number) else {
        return Err(anyhow!("the deadlines of a case are not told"));
    };
    let Some(lines) = lines else {
        return Ok(());
    };
    match docket.case(number) {
        Ok(Some(case)) => push_text(alloc, docket.court(), &case, &lines, text),
        Ok(None) => Ok(()),
        Err(_) => Err(anyhow!("a case is not told")),
    }
}

/// Returns the text of a docket in a database.
pub(crate) fn told<S: Alter>(alloc: Global, docket: &mut Docket<S>) -> Result<Vec<u8>, Error> {
    let mut text = Vec::new(alloc);
    for number in 1..=LAST_CASE {
        push_case(alloc, docket, number, &mut text)?;
    }
    match docket.calendar(day("1980-01-01")?, day("3999-12-31")?, &mut text) {
        Ok(_) => Ok(text),
        Err(_) => Err(anyhow!("the calendar broke off")),
    }
}

fn push_rows(
    alloc: Global,
    number: u32,
    lines: &[DeadlineLine],
    rows: &mut Vec<DueRow>,
) -> Result<(), Error> {
    for row in due_rows(alloc, number, lines)? {
        rows.push(row)?;
    }
    Ok(())
}

/// Appends the text of the case of a number, if there is one, and the rows of its deadlines whose time
/// runs.
fn push_plain_case(
    alloc: Global,
    docket: &Plain,
    court: &Court,
    number: u32,
    text: &mut Vec<u8>,
    rows: &mut Vec<DueRow>,
) -> Result<(), Error> {
    let Some(lines) = docket.deadlines(number)? else {
        return Ok(());
    };
    let Some(case) = docket.case(number)? else {
        return Ok(());
    };
    push_text(alloc, court, &case, &lines, text)?;
    push_rows(alloc, number, &lines, rows)
}

/// Returns the text of a docket in vectors.
pub(crate) fn told_by_vectors(
    alloc: Global,
    docket: &Plain,
    court: &Court,
) -> Result<Vec<u8>, Error> {
    let mut text = Vec::new(alloc);
    let mut rows = Vec::new(alloc);
    for number in 1..=LAST_CASE {
        push_plain_case(alloc, docket, court, number, &mut text, &mut rows)?;
    }
    sort_calendar(court, &mut rows);
    text.extend_from_slice(calendar_text(alloc, court, &rows)?.as_bytes())?;
    Ok(text)
}
