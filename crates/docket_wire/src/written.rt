//! Members put into a JSON object.
ghost use Rattle.std.specs.Prelude.{◌≡◌, Some, IfSome, OnOk, IsUtf8, option_map};
ghost use Rattle.serde_json.specs.Data.{string};
ghost use Rattle.serde_json.specs.View.{view, members_view};
ghost use Rattle.docket_wire.specs.Members.{written_word};
ghost use Rattle.docket_wire.specs.Writing.{put_some};

use crate::member::FieldValue;
use docket_command::{Field, Text, Word};
use serde_json::{Map, Value};
use std::alloc::{AllocError, Global};

/// The members of an object, in the order of their names' bytes.
pub(crate) type Members = Map<String, Value>;

pub(crate) fn put(
    members: &mut Members,
    alloc: Global,
    field: Field,
    value: Value,
) -> Result<(), AllocError>
    ensures { OnOk result (members_view members.new.entries
        ≡ put_some field (Some (view value)) (members_view members.old.entries)) }
{
    serde_json::put(members, alloc, field.name(), value)
}

pub(crate) fn put_text(
    members: &mut Members,
    alloc: Global,
    field: Field,
    text: &Text,
) -> Result<(), AllocError>
    ensures value { OnOk result (members_view members.new.entries
        ≡ put_some field (Some (string text.now)) (members_view members.old.entries)) }
    ensures lawful { IsUtf8 text.now }
{
    put(
        members,
        alloc,
        field,
        Value::try_from_str(alloc, text.as_str())?,
    )
}

pub(crate) fn put_value<T: FieldValue>(
    members: &mut Members,
    alloc: Global,
    field: Field,
    x: T,
) -> Result<(), AllocError>
    ensures value { OnOk result (members_view members.new.entries
        ≡ put_some field (Some (T.written x)) (members_view members.old.entries)) }
    ensures lawful { T.is_lawful x }
{
    put(members, alloc, field, x.to_value(alloc)?)
}

pub(crate) fn put_optional<T: FieldValue>(
    members: &mut Members,
    alloc: Global,
    field: Field,
    x: Option<T>,
) -> Result<(), AllocError>
    ensures value { OnOk result (members_view members.new.entries
        ≡ put_some field (option_map T.written x) (members_view members.old.entries)) }
    ensures lawful { IfSome x T.is_lawful }
{
    let Some(x) = x else {
        return Ok(());
    };
    put_value(members, alloc, field, x)
}

pub(crate) fn put_word<W: Word>(
    members: &mut Members,
    alloc: Global,
    field: Field,
    x: W,
) -> Result<(), AllocError>
    ensures { OnOk result (members_view members.new.entries
        ≡ put_some field (Some (written_word W.word_of x)) (members_view members.old.entries)) }
{
    put(members, alloc, field, Value::try_from_str(alloc, x.word())?)
}

pub(crate) fn put_optional_word<W: Word>(
    members: &mut Members,
    alloc: Global,
    field: Field,
    x: Option<W>,
) -> Result<(), AllocError>
    ensures { OnOk result (members_view members.new.entries
        ≡ put_some field (option_map (written_word W.word_of) x) (members_view members.old.entries)) }
{
    match x {
        None => Ok(()),
        Some(x) => put_word(members, alloc, field, x),
    }
}
