//! Members of a JSON object, each read as a value of its type.
ghost use Rattle.std.specs.Prelude.{◌≡◌, Option, option_map, IfOk};
ghost use Rattle.std.specs.Str.{IsUtf8};
ghost use Rattle.civil_time.specs.Civil.{IsDayNumber};
ghost use Rattle.civil_time.specs.DayText.{day_text};
ghost use Rattle.docket_command.specs.Moments.{IsWholeMinute};
ghost use Rattle.docket_wire.specs.Valid.{IsNumber, IsMinute};
ghost use Rattle.serde_json.specs.Data.{Data, boolean};
ghost use Rattle.serde_json.specs.Find.{as_str};
ghost use Rattle.serde_json.specs.View.{view};
ghost use Rattle.docket_wire.specs.Members.{Gives, present, required as required_at, optional as optional_at, a_number, a_day, a_moment, a_time, a_word, written_number, written_day, written_moment, written_time};

use crate::fault::WireFault;
use civil_time::{Day, day_bytes, read_day};
use docket_command::{Field, Moment, Text, TimeOfDay, Word, from_word};
use serde_json::Value;
use std::alloc::{AllocError, Global};

/// A type whose values are read from JSON values. Reading one takes no memory.
pub(crate) trait FieldValue: Copy {
    // What a JSON value means.
    ghost meaning: { Data → Option Self };

    // The JSON value that is written.
    ghost written: { Self → Data };

    fn from_value(value: &Value) -> Option<Self>
        ensures { result ≡ meaning (view value.now) };

    // Which values there are.
    ghost is_lawful: { Self → Type 0 };

    fn to_value(self, alloc: Global) -> Result<Value, AllocError>
        ensures value { IfOk result (λ v. view v ≡ written self) }
        ensures lawful { is_lawful self };
}

impl FieldValue for u32 {
    ghost meaning = { a_number };

    ghost written = { written_number };

    ghost is_lawful = { IsNumber };

    fn from_value(value: &Value) -> Option<u32> {
        u32::try_from(value.as_u64()?).ok()
    }

    fn to_value(self, _alloc: Global) -> Result<Value, AllocError> {
        Ok(Value::from(self))
    }
}

impl FieldValue for bool {
    ghost use Rattle.serde_json.specs.Find.{as_bool};

    ghost meaning = { as_bool };

    ghost written = { boolean };

    ghost is_lawful = { λ _. Unit {0} };

    fn from_value(value: &Value) -> Option<bool> {
        value.as_bool()
    }

    fn to_value(self, _alloc: Global) -> Result<Value, AllocError> {
        Ok(Value::from(self))
    }
}

/// The text of a day, which is UTF-8; the contract also bounds its number.
fn text_bytes(day: Day) -> [u8; 10]
    ensures value { result ≡ day_text day }
    ensures text { IsUtf8 result }
    ensures limits { IsDayNumber day }
{
    let _number = day.epoch_day();
    day_bytes(day)
}

impl FieldValue for Day {
    ghost meaning = { a_day };

    ghost written = { written_day };

    ghost is_lawful = { IsDayNumber };

    fn from_value(value: &Value) -> Option<Day> {
        read_day(value.as_str()?.as_bytes())
    }

    fn to_value(self, alloc: Global) -> Result<Value, AllocError> {
        let bytes = text_bytes(self);
        Value::try_from_str(alloc, str::from_utf8(&bytes).unwrap())
    }
}

impl FieldValue for Moment {
    ghost meaning = { a_moment };

    ghost written = { written_moment };

    ghost is_lawful = { IsWholeMinute };

    fn from_value(value: &Value) -> Option<Moment> {
        Moment::read(value.as_str()?.as_bytes())
    }

    fn to_value(self, alloc: Global) -> Result<Value, AllocError> {
        let _instant = self.instant();
        let bytes = self.bytes();
        Value::try_from_str(alloc, str::from_utf8(&bytes).unwrap())
    }
}

impl FieldValue for TimeOfDay {
    ghost meaning = { a_time };

    ghost written = { written_time };

    ghost is_lawful = { IsMinute };

    fn from_value(value: &Value) -> Option<TimeOfDay> {
        TimeOfDay::read(value.as_str()?.as_bytes())
    }

    fn to_value(self, alloc: Global) -> Result<Value, AllocError> {
        let _minute = self.minute();
        let bytes = self.bytes();
        Value::try_from_str(alloc, str::from_utf8(&bytes).unwrap())
    }
}

/// The member, unless it is absent or null.
pub(crate) fn present(object: &Value, field: Field) -> Option<&Value>
    ensures { option_map (λ v. view v.now) result ≡ present field (view object.now) }
{
    match object.get(field.name()) {
        None | Some(Value::Null) => None,
        Some(value) => Some(value),
    }
}

/// A field that must be there.
pub(crate) fn required<T: FieldValue>(object: &Value, field: Field) -> Result<T, WireFault>
    ensures { result ≡ required_at T.meaning field (view object.now) }
{
    let value = present(object, field).ok_or(WireFault::MissingField(field))?;
    T::from_value(value).ok_or(WireFault::WrongField(field))
}

/// A field that may be absent.
pub(crate) fn optional<T: FieldValue>(object: &Value, field: Field) -> Result<Option<T>, WireFault>
    ensures { result ≡ optional_at T.meaning field (view object.now) }
{
    let Some(value) = present(object, field) else {
        return Ok(None);
    };
    let read = T::from_value(value).ok_or(WireFault::WrongField(field))?;
    Ok(Some(read))
}

/// A text that must be there.
pub(crate) fn required_text(alloc: Global, object: &Value, field: Field) -> Result<Text, WireFault>
    ensures { Gives result (required_at as_str field (view object.now)) }
{
    let value = present(object, field).ok_or(WireFault::MissingField(field))?;
    let text = value.as_str().ok_or(WireFault::WrongField(field))?;
    Ok(Text::from_str(alloc, text)?)
}

/// The value that has the JSON value's word.
fn word_of_value<W: Word>(value: &Value) -> Option<W>
    ensures { result ≡ a_word W.named (view value.now) }
{
    from_word(value.as_str()?)
}

/// A word that must be there.
pub(crate) fn required_word<W: Word>(object: &Value, field: Field) -> Result<W, WireFault>
    ensures { result ≡ required_at (a_word W.named) field (view object.now) }
{
    let value = present(object, field).ok_or(WireFault::MissingField(field))?;
    word_of_value(value).ok_or(WireFault::WrongField(field))
}

/// A word that may be absent.
pub(crate) fn optional_word<W: Word>(object: &Value, field: Field) -> Result<Option<W>, WireFault>
    ensures { result ≡ optional_at (a_word W.named) field (view object.now) }
{
    let Some(value) = present(object, field) else {
        return Ok(None);
    };
    let word = word_of_value(value).ok_or(WireFault::WrongField(field))?;
    Ok(Some(word))
}
