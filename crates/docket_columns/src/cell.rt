//! The values of a row of SQL.
ghost use Rattle.std.specs.Prelude.{◌≡◌, ◌↔◌, Bool, ℕ, ℤ, pos, List, Some, option_copied, IfSome, IsTrue, length, map};
ghost use Rattle.std.specs.Str.{IsUtf8};
ghost use Rattle.sqlite.specs.Values.{bound};
ghost use Rattle.sqlite_value.specs.Value.{owned};
ghost use Rattle.sqlite_value.specs.Order.{Row as Cells, column};
ghost use Rattle.sqlite_value.specs.declared.value.Value.TheVariants.{Int, Text};
ghost use Rattle.civil_time.specs.Civil.{IsDayNumber};
ghost use Rattle.docket_columns.specs.Codes.{flag_number};
ghost use Rattle.docket_columns.specs.Fits.{IsCount};
ghost use Rattle.docket_columns.specs.Plain.{are_plain};

use crate::codes::flag_of;
use court_days::Day;
use sqlite::Row;
use sqlite::types::ValueRef;
use sqlite_value::order::is_same;

/// The whole number in a column.
pub(crate) fn number_at(row: &Row, at: usize) -> Option<i64>
    ensures { (n : ℤ) → column row.now at ≡ Int n → result ≡ Some n }
{
    match row.get_ref(at) {
        Ok(ValueRef::Int(number)) => Some(number),
        _ => None,
    }
}

/// The whole number in a column, where it is from 0 to 2^32 - 1.
pub fn count_at(row: &Row, at: usize) -> Option<u32>
    ensures { (n : ℕ) → IsCount n → column row.now at ≡ Int (pos n) → result ≡ Some n }
{
    u32::try_from(number_at(row, at)?).ok()
}

/// Whether that number stands in a column.
pub(crate) fn is_number(row: &Row, at: usize, number: i64) -> bool
    ensures { IsTrue result ↔ (column row.now at ≡ Int number) }
{
    match row.get_ref(at) {
        Ok(ValueRef::Int(found)) => found == number,
        _ => false,
    }
}

/// Whether that text stands in a column.
pub(crate) fn is_text(row: &Row, at: usize, text: &str) -> bool
    ensures { IsTrue result ↔ (column row.now at ≡ Text text.now) }
{
    match row.get_ref(at) {
        Ok(ValueRef::Text(found)) => found == text.as_bytes(),
        _ => false,
    }
}

/// The bytes of the text in a column.
pub(crate) fn bytes_at(row: &Row, at: usize) -> Option<&[u8]>
    ensures reads { (t : List ℕ) → column row.now at ≡ Text t → option_copied result ≡ Some t }
    ensures sound { IfSome result (λ t. column row.now at ≡ Text t.now) }
{
    match row.get_ref(at) {
        Ok(ValueRef::Text(text)) => Some(text),
        _ => None,
    }
}

/// The flag in a column.
pub(crate) fn flag_at(row: &Row, at: usize) -> Option<bool>
    ensures { (flag : Bool) → column row.now at ≡ Int (pos (flag_number flag)) → result ≡ Some flag }
{
    flag_of(count_at(row, at)?)
}

/// The text in a column.
pub fn text_at(row: &Row, at: usize) -> Option<&str>
    ensures reads { (t : List ℕ) → IsUtf8 t → column row.now at ≡ Text t → option_copied result ≡ Some t }
    ensures utf8 { IfSome result (λ text. IsUtf8 text.now) }
    ensures sound { IfSome result (λ text. column row.now at ≡ Text text.now) }
{
    str::from_utf8(bytes_at(row, at)?).ok()
}

/// The day of that number.
pub(crate) fn day_numbered(number: i64) -> Option<Day>
    ensures { (d : ℕ) → IsDayNumber d → number ≡ pos d → result ≡ Some d }
{
    Day::new(i32::try_from(number).ok()?)
}

/// The day in a column.
pub(crate) fn day_at(row: &Row, at: usize) -> Option<Day>
    ensures { (d : ℕ) → IsDayNumber d → column row.now at ≡ Int (pos d) → result ≡ Some d }
{
    day_numbered(number_at(row, at)?)
}

/// Whether the row, which is as long, has these values.
fn are_values(row: &Row, values: &[ValueRef<'_>]) -> bool
    requires { length row.now ≡ length values.now }
    ensures { IsTrue result ↔ (row.now ≡ map owned values.now) }
{
    for at in 0..values.len() {
        match row.get_ref(at) {
            Ok(found) if is_same(found, values[at]) => {}
            _ => return false,
        }
    }
    true
}

/// Whether the row has these values, which are numbers and texts, and no more.
pub(crate) fn has_values(row: &Row, values: &[ValueRef<'_>]) -> bool
    ensures { (cells : Cells) → IsTrue (are_plain cells) → bound values.now ≡ cells → IsTrue result ↔ (row.now ≡ cells) }
{
    row.column_count() == values.len() && are_values(row, values)
}
