//! A case and its deadlines, read from the tables.
ghost use Rattle.std.specs.Prelude.{◌≡◌, ◌==◌, option_copied, IfOk};
ghost use Rattle.std.specs.Option.{option_map};
ghost use Rattle.docket_history.specs.Histories.{parties_of_case, entries_of_case};
ghost use Rattle.docket_history.specs.Records.{case_at, record_of, deadline_lines};
ghost use Rattle.docket_plain.specs.Dockets.{history_of, IsDocket};

use crate::vectors::Vectors;
use crate::viewing::{deadlines_of, items_of};
use court_days::Court;
use docket_history::{
    CaseRecord, CaseRow, DeadlineLine, EntryRow, EntryRows, PartyRow, PartyRows, calendar_of,
    deadline_lines,
};
use std::alloc::{AllocError, Global};

fn parties_of(alloc: Global, rows: &[PartyRow], case: u32) -> Result<PartyRows, AllocError>
    ensures { IfOk result (λ found. found ≡ parties_of_case case rows.now) }
{
    let mut found = Vec::new(alloc);
    for row in rows {
        if row.case == case {
            found.push(PartyRow {
                case,
                number: row.number,
                name: row.name.copied()?,
                role: row.role,
            })?;
        }
    }
    Ok(PartyRows::new(found))
}

fn entries_of(alloc: Global, rows: &[EntryRow], case: u32) -> Result<EntryRows, AllocError>
    ensures { IfOk result (λ found. found ≡ entries_of_case case rows.now) }
{
    let mut found = Vec::new(alloc);
    for row in rows {
        if row.case == case {
            found.push(EntryRow {
                case,
                number: row.number,
                day: row.day,
                text: row.text.copied()?,
            })?;
        }
    }
    Ok(EntryRows::new(found))
}

/// The row of a case, by its number.
fn row_of(rows: &[CaseRow], number: u32) -> Option<&CaseRow>
    ensures { option_copied result ≡ case_at rows.now number }
{
    if number == 0 {
        return None;
    }
    rows.get(number as usize - 1)
}

/// The case of a number, with its parties and its entries.
pub(crate) fn case_record(
    alloc: Global,
    tables: &Vectors,
    number: u32,
) -> Result<Option<CaseRecord>, AllocError>
    ensures { IfOk result (λ found. found
        ≡ record_of tables.now.parties.items tables.now.entries.items (case_at tables.now.cases.items number)) }
{
    match row_of(tables.cases.as_slice(), number) {
        Some(row) => Ok(Some(CaseRecord {
            number: row.number,
            label: row.label.copied()?,
            caption: row.caption.copied()?,
            filed: row.filed,
            parties: parties_of(alloc, tables.parties.as_slice(), row.number)?,
            entries: entries_of(alloc, tables.entries.as_slice(), row.number)?,
        })),
        None => Ok(None),
    }
}

/// The deadlines of the case of a number, with where each stands.
pub(crate) fn lines_of_case(
    alloc: Global,
    court: &Court,
    tables: &Vectors,
    number: u32,
) -> Result<Option<Vec<DeadlineLine>>, AllocError>
    requires { IsDocket court.now tables.now }
    ensures { IfOk result (λ found. option_map (λ lines. lines.items) found
        ≡ deadline_lines court.now (history_of tables.now.receipts.items) number) }
{
    if number < 1 || tables.cases.len() < number as usize {
        return Ok(None);
    }
    let items = items_of(alloc, tables.calendar.as_slice())?;
    let calendar = calendar_of(alloc, items.as_slice())?;
    let deadlines = deadlines_of(alloc, tables, number)?;
    let lines = deadline_lines(alloc, court, &calendar, deadlines.as_slice())?;
    Ok(Some(lines))
}
