//! The row of the table of the court.
ghost use Rattle.std.specs.Prelude.{◌≡◌, ◌↔◌, ℕ, ◌<◌, ◌≤◌, ◌^◌, pos, Some, IfOk, IfSome, IsTrue};
ghost use Rattle.sqlite.specs.Values.{bound};
ghost use Rattle.sqlite_value.specs.Order.{column};
ghost use Rattle.sqlite_value.specs.declared.value.Value.TheVariants.{Int};
ghost use Rattle.court_days.specs.Court.{CourtSettings};
ghost use Rattle.docket_columns.specs.Cells.{court_cells, court_cells_of, settings_of, HasWord, IsOfVersion};
ghost use Rattle.docket_columns.specs.Fits.{IsCourtRow};

use crate::cell::{count_at, has_values, is_number, is_text, number_at, text_at};
use crate::version::Version;
use court_days::Court;
use docket_command::Text;
use sqlite::Row;
use sqlite::types::{ToSql, ValueRef};
use std::alloc::{AllocError, Global};

/// The word that marks a database as that of a docket.
const WORD: &str = "civil docket";

const MINUTES_OF_A_DAY: u32 = 1440;

const MOST_ROWS: u64 = 1 << 32;

/// The values of the court's row: the text of its zone, when the clerk's office closes, and the number of the
/// next row of the calendar. The minute of closing is 0 to 1439, the number up to 2^32.
#[derive(Drop)]
pub struct CourtRow {
    pub zone: Text,
    pub close: u32,
    pub next_row: u64,
}

fn values_of(version: Version, zone: &str, close: u32, next_row: u64) -> [ValueRef<'_>; 6]
    requires { next_row < 2 ^ 63 }
    ensures { bound result ≡ court_cells_of version (record { zone_text = zone.now; close_minute = close }) next_row }
{
    [
        1u32.to_sql(),
        WORD.to_sql(),
        version.number().to_sql(),
        zone.to_sql(),
        close.to_sql(),
        (next_row as i64).to_sql(),
    ]
}

/// The columns of the court in the version that is kept: id, word, version, zone, close, next_row. A
/// column holds numbers below 2^63.
pub fn court_values(court: &Court, next_row: u64) -> [ValueRef<'_>; 6]
    requires { next_row < 2 ^ 63 }
    ensures { bound result ≡ court_cells court.now next_row }
{
    values_of(
        Version::KEPT,
        court.zone_text(),
        court.close_minute(),
        next_row,
    )
}

fn minute_at(row: &Row, at: usize) -> Option<u32>
    ensures reads { (n : ℕ) → n < 1440 → column row.now at ≡ Int (pos n) → result ≡ Some n }
    ensures fits { IfSome result (λ n. n < 1440) }
{
    let minute = count_at(row, at)?;
    if minute < MINUTES_OF_A_DAY {
        Some(minute)
    } else {
        None
    }
}

fn next_row_at(row: &Row, at: usize) -> Option<u64>
    ensures reads { (n : ℕ) → n ≤ 2 ^ 32 → column row.now at ≡ Int (pos n) → result ≡ Some n }
    ensures fits { IfSome result (λ n. n ≤ 2 ^ 32) }
{
    let next_row = u64::try_from(number_at(row, at)?).ok()?;
    if next_row <= MOST_ROWS {
        Some(next_row)
    } else {
        None
    }
}

/// Whether a row of the court's table has the word of a docket.
pub fn has_word(row: &Row) -> bool
    ensures { IsTrue result ↔ HasWord row.now }
{
    is_text(row, 1, WORD)
}

/// Whether a row of the court's table has the number of that version of the tables.
pub fn is_of_version(row: &Row, version: Version) -> bool
    ensures { IsTrue result ↔ IsOfVersion version row.now }
{
    is_number(row, 2, i64::from(version.number()))
}

/// Reads the court of a row in that version. `None`: it is not a row of a court, or is of another version.
pub fn court_of(alloc: Global, row: &Row, version: Version) -> Result<Option<CourtRow>, AllocError>
    ensures reads { (c : CourtSettings) (next : ℕ) → IsCourtRow c next → row.now ≡ court_cells_of version c next
        → IfOk result (λ found. found ≡ Some (record { zone = c.zone_text; close = c.close_minute; next_row = next })) }
    ensures sound { IfOk result (λ found. IfSome found (λ r. row.now ≡ court_cells_of version (settings_of r) r.next_row)) }
    ensures fits { IfOk result (λ found. IfSome found (λ r. IsCourtRow (settings_of r) r.next_row)) }
{
    let Some(zone) = text_at(row, 3) else {
        return Ok(None);
    };
    let Some(close) = minute_at(row, 4) else {
        return Ok(None);
    };
    let Some(next_row) = next_row_at(row, 5) else {
        return Ok(None);
    };
    if !has_values(row, &values_of(version, zone, close, next_row)) {
        return Ok(None);
    }
    Ok(Some(CourtRow {
        zone: Text::from_str(alloc, zone)?,
        close,
        next_row,
    }))
}
