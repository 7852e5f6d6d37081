//! Rows of SQL as rows of a docket.
ghost use Rattle.std.specs.Prelude.{◌≡◌, ℕ, ◌^◌, ◌<◌, List, [], ◌∷◌, Ok, Some, None, pos, map, IfOk, IfErr};
ghost use Rattle.std.specs.List.{AllByRecursion};
ghost use Rattle.sqlite.specs.Order.{Row as Cells, column};
ghost use Rattle.sqlite.specs.declared.types.Value.TheVariants.{Int};
ghost use Rattle.docket_history.specs.declared.row.ActRow.{ActRow as OnDeadline};
ghost use Rattle.court_days.specs.Court.{CourtSettings};
ghost use Rattle.docket_command.specs.declared.command.Command.{Command as Asked};
ghost use Rattle.docket_command.specs.declared.refusal.Reply.{Reply};
ghost use Rattle.docket_decisions.specs.Outcomes.{kept_by};
ghost use Rattle.docket_history.specs.ShortDays.{day_and_span_rows, short_day_rows};
ghost use Rattle.docket_history.specs.declared.row.CalendarRow.{CalendarRow as Entered};
ghost use Rattle.docket_history.specs.declared.row.LocalRuleRow.{LocalRuleRow as Entry};
ghost use Rattle.docket_history.specs.declared.row.Receipt.{Receipt as Stored};
ghost use Rattle.docket_history.specs.declared.view.Kept.TheVariants as under_key;
ghost use Rattle.docket_wire.specs.Valid.{IsCommand};
ghost use Rattle.docket_wire.specs.Writing.{canonical};
ghost use Rattle.docket_columns.specs.Cells.{act_cells, calendar_cells, court_cells, local_rule_cells, receipt_cells, short_day_cells, stored_cells};
ghost use Rattle.docket_columns.specs.Fits.{IsActRow, IsCalendarRow, IsCourtRow, IsLocalRuleRow, IsReceipt, IsShortDayRow};
ghost use Rattle.docket_tables.specs.Causes.{IsOwn};
ghost use Rattle.docket_tables.specs.Readings.{AreNumberedRows, IsReadAs};

use crate::fault::ReadFault;
use court_rules::Act;
use docket_columns::{CourtRow, StoredRow, Version, count_at, court_of, kept_by};
use docket_command::LocalRule;
use docket_history::{ActRow, CalendarRow, Kept, LocalRuleRow, ShortDayRow};
use sqlite::Row;
use std::alloc::{AllocError, Global};

/// Reads all rows.
pub(crate) fn all_in<R: StoredRow>(alloc: Global, rows: &[Row]) -> Result<Vec<R>, ReadFault>
    ensures read { (all : List R) → AllByRecursion R.Is all → rows.now ≡ map R.cells all → IsReadAs (λ found. found.items ≡ all) result }
    ensures own { IfErr result IsOwn }
{
    let mut found = Vec::new(alloc);
    for row in rows {
        let Some(one) = R::read(alloc, row)? else {
            return Err(ReadFault::Damaged);
        };
        found.push(one)?;
    }
    Ok(found)
}

/// Rows of the calendar and short days among them, in the order of their numbers.
fn in_order(
    mut calendar: Vec<CalendarRow>,
    short_days: Vec<ShortDayRow>,
) -> Result<Vec<CalendarRow>, AllocError>
    ensures { (all : List Entered) → AreNumberedRows all → calendar.items ≡ day_and_span_rows all → short_days.items ≡ short_day_rows all
        → IfOk result (λ found. found.items ≡ all) }
{
    calendar.extend(short_days.into_iter().map(|row| CalendarRow::from(row)))?;
    calendar.sort_by_key(|row| row.number)?;
    Ok(calendar)
}

/// Reads the calendar from the rows of its two tables, in the order of their numbers.
pub(crate) fn calendar_in(
    alloc: Global,
    rows: &[Row],
    short_rows: &[Row],
) -> Result<Vec<CalendarRow>, ReadFault>
    ensures read { (all : List Entered) → AllByRecursion IsCalendarRow (day_and_span_rows all) → AllByRecursion IsShortDayRow (short_day_rows all) → AreNumberedRows all
        → rows.now ≡ map calendar_cells (day_and_span_rows all) → short_rows.now ≡ map short_day_cells (short_day_rows all) → IsReadAs (λ found. found.items ≡ all) result }
    ensures own { IfErr result IsOwn }
{
    let calendar: Vec<CalendarRow> = all_in(alloc, rows)?;
    let short_days: Vec<ShortDayRow> = all_in(alloc, short_rows)?;
    Ok(in_order(calendar, short_days)?)
}

/// Reads the first row, if there is one.
pub(crate) fn first_in<R: StoredRow>(alloc: Global, rows: &[Row]) -> Result<Option<R>, ReadFault>
    ensures none { rows.now ≡ [] → IsReadAs (λ found. found ≡ None) result }
    ensures one { (r : R) → R.Is r → rows.now ≡ R.cells r ∷ [] → IsReadAs (λ found. found ≡ Some r) result }
    ensures own { IfErr result IsOwn }
{
    let Some(row) = rows.first() else {
        return Ok(None);
    };
    match R::read(alloc, row)? {
        Some(found) => Ok(Some(found)),
        None => Err(ReadFault::Damaged),
    }
}

/// These acts, without their places.
fn acts_alone(alloc: Global, rows: &[ActRow]) -> Result<Vec<Act>, AllocError>
    ensures { IfOk result (λ found. found.items ≡ map (λ row. row.act) rows.now) }
{
    rows.iter().map(|row| row.act).collect(alloc)
}

/// The acts of rows, without their places.
pub(crate) fn acts_alone_in(alloc: Global, rows: &[Row]) -> Result<Vec<Act>, ReadFault>
    ensures read { (all : List OnDeadline) → AllByRecursion IsActRow all → rows.now ≡ map act_cells all → IsReadAs (λ found. found.items ≡ map (λ row. row.act) all) result }
    ensures own { IfErr result IsOwn }
{
    let acts: Vec<ActRow> = all_in(alloc, rows)?;
    Ok(acts_alone(alloc, acts.as_slice())?)
}

/// The local rule of the first row, if there is one.
pub(crate) fn local_rule_in(alloc: Global, rows: &[Row]) -> Result<Option<LocalRule>, ReadFault>
    ensures none { rows.now ≡ [] → IsReadAs (λ found. found ≡ None) result }
    ensures one { (r : Entry) → IsLocalRuleRow r → rows.now ≡ local_rule_cells r ∷ [] → IsReadAs (λ found. found ≡ Some r.rule) result }
    ensures own { IfErr result IsOwn }
{
    let found: Option<LocalRuleRow> = first_in(alloc, rows)?;
    Ok(found.map(|row| row.rule))
}

/// The court of the first row.
pub(crate) fn court_in(alloc: Global, rows: &[Row]) -> Result<CourtRow, ReadFault>
    ensures read { (settings : CourtSettings) (next : ℕ) → IsCourtRow settings next → rows.now ≡ court_cells settings next ∷ []
        → IsReadAs (λ found. found ≡ record { zone = settings.zone_text; close = settings.close_minute; next_row = next }) result }
    ensures own { IfErr result IsOwn }
{
    let row = rows.first().ok_or(ReadFault::Damaged)?;
    court_of(alloc, row, Version::KEPT)?.ok_or(ReadFault::Damaged)
}

/// Reads what is kept under the key of the first row, for a command with this canonical text.
pub(crate) fn kept_in(rows: &[Row], body: &str) -> Result<Kept, ReadFault>
    ensures none { rows.now ≡ [] → result ≡ Ok under_key.Fresh }
    ensures one { (r : Stored) (c : Asked) → IsReceipt r → IsCommand c → body.now ≡ canonical c → rows.now ≡ receipt_cells r ∷ []
        → result ≡ Ok (kept_by (Some r) c) }
    ensures same { (reply : Reply) → result ≡ Ok (under_key.Same reply)
        → (key : List ℕ) × (rest : List Cells) × (rows.now ≡ stored_cells key body.now reply.number ∷ rest) }
    ensures own { IfErr result IsOwn }
{
    let Some(row) = rows.first() else {
        return Ok(Kept::Fresh);
    };
    kept_by(row, body).ok_or(ReadFault::Damaged)
}

/// The number in a column of the first row, or 0 where there is no row.
pub(crate) fn number_in(rows: &[Row], place: usize) -> Result<u32, ReadFault>
    ensures none { rows.now ≡ [] → result ≡ Ok 0 }
    ensures first { (row : Cells) (n : ℕ) → n < 2 ^ 32 → rows.now ≡ row ∷ [] → column row place ≡ Int (pos n) → result ≡ Ok n }
    ensures own { IfErr result IsOwn }
{
    let Some(row) = rows.first() else {
        return Ok(0);
    };
    count_at(row, place).ok_or(ReadFault::Damaged)
}
