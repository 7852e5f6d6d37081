//! The days of an import, read and written.
ghost use Rattle.std.specs.Prelude.{◌≡◌, Some, IfOk, OnOk};
ghost use Rattle.serde_json.specs.View.{view, items_view, members_view};
ghost use Rattle.std.specs.List.{AllByRecursion};
ghost use Rattle.docket_wire.specs.Valid.{IsNewDay};
ghost use Rattle.docket_wire.specs.Members.{Gives, or_fault, required as required_at};
ghost use Rattle.docket_wire.specs.Reading.{new_day_at, new_days_of, rows_of};
ghost use Rattle.docket_wire.specs.Writing.{put_some, new_day_data, rows_data};

use crate::fault::WireFault;
use crate::member::{present, required, required_text, required_word};
use crate::reading::has_only;
use crate::written::{Members, put, put_text, put_value, put_word};
use docket_command::{Field, NewDay, NewDays};
use serde_json::Value;
use std::alloc::{AllocError, Global};

pub(crate) fn required_rows(alloc: Global, object: &Value) -> Result<NewDays, WireFault>
    ensures { Gives result (required_at rows_of Field.Rows (view object.now)) }
{
    let value = present(object, Field::Rows).ok_or(WireFault::MissingField(Field::Rows))?;
    let list = value.as_array().ok_or(WireFault::WrongField(Field::Rows))?;
    new_days(alloc, list)
}

fn new_days(alloc: Global, list: &[Value]) -> Result<NewDays, WireFault>
    ensures { Gives result (or_fault (WireFault.WrongField Field.Rows)
        (new_days_of (items_view list.now))) }
{
    let mut rows = Vec::new(alloc);
    for value in list {
        match new_day(alloc, value) {
            Ok(row) => rows.push(row)?,
            Err(fault) => return Err(fault.in_rows()),
        }
    }
    Ok(NewDays::new(rows))
}

#[tactic(auto, unfolding(crate::specs::Reading::new_day_at))]
fn new_day(alloc: Global, object: &Value) -> Result<NewDay, WireFault>
    ensures { Gives result (new_day_at (view object.now)) }
{
    let kind = required_word(object, Field::Kind)?;
    let day = required(object, Field::Day)?;
    let name = required_text(alloc, object, Field::Name)?;
    if !has_only(object, &[Field::Kind, Field::Day, Field::Name], &[]) {
        return Err(WireFault::UnknownField);
    }
    Ok(NewDay { kind, day, name })
}

pub(crate) fn put_rows(
    members: &mut Members,
    alloc: Global,
    rows: &NewDays,
) -> Result<(), AllocError>
    ensures value { OnOk result (members_view members.new.entries
        ≡ put_some Field.Rows (Some (rows_data rows.now)) (members_view members.old.entries)) }
    ensures lawful { OnOk result (AllByRecursion IsNewDay rows.now) }
{
    put(members, alloc, Field::Rows, rows_value(alloc, rows)?)
}

fn rows_value(alloc: Global, rows: &NewDays) -> Result<Value, AllocError>
    ensures value { IfOk result (λ v. view v ≡ rows_data rows.now) }
    ensures lawful { IfOk result (λ _. AllByRecursion IsNewDay rows.now) }
{
    let mut values = Vec::new(alloc);
    for row in rows.as_slice() {
        values.push(new_day_value(alloc, row)?)?;
    }
    Ok(Value::Array(values))
}

fn new_day_value(alloc: Global, row: &NewDay) -> Result<Value, AllocError>
    ensures value { IfOk result (λ v. view v ≡ new_day_data row.now) }
    ensures lawful { IfOk result (λ _. IsNewDay row.now) }
{
    let mut members = Members::new(alloc);
    put_word(&mut members, alloc, Field::Kind, row.kind)?;
    put_value(&mut members, alloc, Field::Day, row.day)?;
    put_text(&mut members, alloc, Field::Name, &row.name)?;
    Ok(Value::Object(members))
}
