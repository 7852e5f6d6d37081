//! The command that pairs spell, by its line.
ghost use Rattle.std.specs.Prelude.{◌≡◌, IfOk, string_bytes};
ghost use Rattle.serde_json.specs.View.{view};
ghost use Rattle.docket_wire.specs.Members.{Gives};
ghost use Rattle.docket_wire.specs.Reading.{command_in};
ghost use Rattle.command_forms.specs.Forms.{texts_of, object_of, line_of, command_of_pairs};

use crate::pair::Pair;
use crate::value::value_of;
use docket_command::Command;
use docket_wire::{WireFault, read_command};
use serde_json::{Map, Value, put};
use std::alloc::{AllocError, Global};

// The object that pairs spell.
fn object_of(alloc: Global, pairs: &[Pair]) -> Result<Value, AllocError>
    ensures { IfOk result (λ value. view value ≡ object_of (texts_of pairs.now)) }
{
    let mut members = Map::new(alloc);
    for pair in pairs {
        let value = value_of(alloc, &pair.name, &pair.text)?;
        put(&mut members, alloc, &pair.name, value)?;
    }
    Ok(Value::Object(members))
}

/// The JSON line of the command that pairs spell: an object, compact, each pair a member. A number is written in
/// digits, and a flag as `true` or `false`; a field whose text is empty counts as absent. Of a name that comes
/// twice the last pair counts. Where pairs spell no command the line has the fault that they have.
pub fn command_line(alloc: Global, pairs: &[Pair]) -> Result<String, AllocError>
    ensures text { IfOk result (λ line. string_bytes line ≡ line_of (texts_of pairs.now)) }
    ensures reads { IfOk result (λ line. command_in (string_bytes line) ≡ command_of_pairs (texts_of pairs.now)) }
{
    let object = object_of(alloc, pairs)?;
    object.to_string(alloc)
}

/// The command that pairs spell, read from its line (`command_line`). Otherwise the first fault of that line, or
/// `NoMemory`, which may come at any point.
pub fn entered_command(alloc: Global, pairs: &[Pair]) -> Result<Command, WireFault>
    ensures { Gives result (command_of_pairs (texts_of pairs.now)) }
{
    let line = command_line(alloc, pairs)?;
    read_command(alloc, line.as_bytes())
}
