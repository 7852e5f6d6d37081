//! Days to be entered in the court's calendar, as comma-separated values.
ghost use Rattle.std.specs.Prelude.{◌≡◌, ◌≢◌, ◌++◌, ◌∷◌, [], List, ℕ, length, IfOk, IfErr, MatchBool, Some, true, ◌≤◌, option_map, option_and_then};
ghost use Rattle.civil_time.specs.DayText.{day_of_text};
ghost use Rattle.docket_command.specs.Words.{day_kind_named};
ghost use Rattle.csv.specs.Records.{fields_of, field_at};
ghost use Rattle.day_tables.specs.CalendarCsv.{is_header, field_is, text_of, row_at, IsTable, HasFault, GivesRow};
ghost use Rattle.day_tables.specs.CsvRecords.{Record, IsAt, AreAll, BeginsWith, expected_of};
ghost use Rattle.day_tables.specs.declared.csv_fault.CsvFault.TheVariants.{NoMemory};

use crate::csv_fault::CsvFault;
use civil_time::{Day, read_day};
use court_days::DayKind;
use csv::{ByteRecord, ErrorKind, Reader, ReaderBuilder};
use docket_command::{NewDay, Text, from_word};
use std::alloc::Global;
use std::str::from_utf8;

/// Reads the next record, and returns whether there was one. A reader of bytes in memory never fails
/// by itself: such a fault would be reported as out of memory.
fn next_record(reader: &mut Reader<&[u8]>, row: &mut ByteRecord) -> Result<bool, CsvFault>
    ensures found { (bytes : List ℕ) (rs : List Record) → IsAt bytes rs reader.old → IfOk result
        (λ found. MatchBool found (IsAt bytes (rs ++ fields_of row.new ∷ []) reader.new
        × (expected_of (rs ++ fields_of row.new ∷ []) ≡ Some (length (fields_of row.new)))) (AreAll bytes rs)) }
    ensures refused { (bytes : List ℕ) (rs : List Record) → IsAt bytes rs reader.old → IfErr result
        (λ e. e ≢ NoMemory → (e ≡ CsvFault.BadCsv) × (fields : Record) × BeginsWith bytes (rs ++ fields ∷ [])
        × (n : ℕ) × (expected_of rs ≡ Some n) × (length fields ≢ n)) }
{
    match reader.read_byte_record(row) {
        Ok(found) => Ok(found),
        Err(e) => match e.kind() {
            ErrorKind::UnequalLengths { .. } => Err(CsvFault::BadCsv),
            _ => Err(CsvFault::NoMemory),
        },
    }
}

/// The days of a table, or why the text is no table.
pub fn read_calendar_csv(alloc: Global, bytes: &[u8]) -> Result<Vec<NewDay>, CsvFault>
    ensures rows { IfOk result (λ v. IsTable bytes.now v.items) }
    ensures fault { IfErr result (λ e. e ≢ NoMemory → HasFault bytes.now e) }
{
    let mut reader = reader_of(alloc, bytes);
    let mut row = ByteRecord::new(alloc);
    if !next_record(&mut reader, &mut row)? {
        return Err(CsvFault::BadRow(0));
    }
    if !is_header(&row) {
        return Err(CsvFault::BadRow(0));
    }
    days_of(alloc, &mut reader, &mut row)
}

fn reader_of(alloc: Global, bytes: &[u8]) -> Reader<&[u8]>
    ensures { IsAt bytes.now [] result }
{
    ReaderBuilder::new()
        .has_headers(false)
        .from_reader(alloc, bytes)
}

/// The days of the records that follow the header.
fn days_of(
    alloc: Global,
    reader: &mut Reader<&[u8]>,
    row: &mut ByteRecord,
) -> Result<Vec<NewDay>, CsvFault>
    ensures rows { (bytes : List ℕ) (header : Record) → is_header header ≡ true
        → IsAt bytes (header ∷ []) reader.old → IfOk result (λ v. IsTable bytes v.items) }
    ensures fault { (bytes : List ℕ) (header : Record) → is_header header ≡ true
        → IsAt bytes (header ∷ []) reader.old → IfErr result (λ e. e ≢ NoMemory → HasFault bytes e) }
{
    let mut days = Vec::new(alloc);
    for n in 1..1001u32 {
        if !next_record(reader, row)? {
            return Ok(days);
        }
        days.push(day_of(alloc, n, row)?)?;
    }
    if next_record(reader, row)? {
        return Err(CsvFault::BadRow(1001));
    }
    Ok(days)
}

fn is_header(row: &ByteRecord) -> bool
    ensures { result ≡ is_header (fields_of row.now) }
{
    row.len() == 3
        && field_is(row, 0, "kind")
        && field_is(row, 1, "day")
        && field_is(row, 2, "name")
}

fn field_is(row: &ByteRecord, i: usize, text: &str) -> bool
    ensures { result ≡ field_is text.now (field_at (fields_of row.now) i) }
{
    match row.get(i) {
        None => false,
        Some(field) => field == text.as_bytes(),
    }
}

/// The day of the record of that number after the header.
fn day_of(alloc: Global, n: u32, row: &ByteRecord) -> Result<NewDay, CsvFault>
    requires { n ≤ 1000 }
    ensures { GivesRow result (row_at n (fields_of row.now)) }
{
    let kind = kind_field(row, 0).ok_or(CsvFault::BadRow(n))?;
    let day = day_field(row, 1).ok_or(CsvFault::BadRow(n))?;
    let name = text_field(row, 2).ok_or(CsvFault::BadRow(n))?;
    let name = Text::from_str(alloc, name)?;
    Ok(NewDay { kind, day, name })
}

/// The kind of day whose word is the field.
fn kind_field(row: &ByteRecord, i: usize) -> Option<DayKind>
    ensures { result ≡ option_and_then (λ t. option_and_then day_kind_named (text_of t)) (field_at (fields_of row.now) i) }
{
    from_word(text_field(row, i)?)
}

fn day_field(row: &ByteRecord, i: usize) -> Option<Day>
    ensures { result ≡ option_and_then day_of_text (field_at (fields_of row.now) i) }
{
    read_day(row.get(i)?)
}

fn text_field(row: &ByteRecord, i: usize) -> Option<&str>
    ensures { option_map (λ s. s.now) result ≡ option_and_then text_of (field_at (fields_of row.now) i) }
{
    text_in(row.get(i)?)
}

#[tactic(auto, using(crate::proofs::CsvLemmas::text_of_text, crate::proofs::CsvLemmas::text_of_none))]
fn text_in(bytes: &[u8]) -> Option<&str>
    ensures { option_map (λ s. s.now) result ≡ text_of bytes.now }
{
    match from_utf8(bytes) {
        Ok(text) => Some(text),
        Err(_) => None,
    }
}
