//! A case, by the tables of the docket.
ghost use Rattle.std.specs.Prelude.{◌≡◌, Some};
ghost use Rattle.docket_history.specs.Records.{case_at, record_of};
ghost use Rattle.docket_tables.specs.Asking.{OnlyAsks};
ghost use Rattle.docket_tables.specs.Readings.{Reads};

use docket_history::{CaseRecord, CaseRow, EntryRows, PartyRows};
use docket_tables::{ReadFault, case, entries, parties};
use sqlite::{Alter, Connection};
use std::alloc::Global;

/// The case of the row, with its parties and its entries.
fn record_of<S: Alter>(
    conn: &mut Connection<S>,
    alloc: Global,
    row: CaseRow,
) -> Result<CaseRecord, ReadFault>
    ensures read { Reads S.Store conn.old conn.new result (λ _ t found. Some found ≡ record_of t.parties t.entries (Some row)) }
    ensures only { OnlyAsks S.Store conn.old conn.new result }
{
    let parties = parties(conn, alloc, row.number)?;
    let entries = entries(conn, alloc, row.number)?;
    Ok(CaseRecord {
        number: row.number,
        label: row.label,
        caption: row.caption,
        filed: row.filed,
        parties: PartyRows::new(parties),
        entries: EntryRows::new(entries),
    })
}

/// The case of a number, with its parties and its entries.
pub fn case_record<S: Alter>(
    conn: &mut Connection<S>,
    alloc: Global,
    number: u32,
) -> Result<Option<CaseRecord>, ReadFault>
    ensures read { Reads S.Store conn.old conn.new result (λ _ t found. found ≡ record_of t.parties t.entries (case_at t.cases number)) }
    ensures only { OnlyAsks S.Store conn.old conn.new result }
{
    match case(conn, alloc, number)? {
        Some(row) => Ok(Some(record_of(conn, alloc, row)?)),
        None => Ok(None),
    }
}
