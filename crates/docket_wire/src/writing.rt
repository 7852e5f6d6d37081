//! The canonical text of a command.
ghost use Rattle.std.specs.Prelude.{◌≡◌, IfOk, string_bytes};
ghost use Rattle.serde_json.specs.View.{view};
ghost use Rattle.docket_wire.specs.Spells.{Spells};
ghost use Rattle.docket_wire.specs.Valid.{IsCommand};
ghost use Rattle.docket_wire.specs.Writing.{command_data, canonical};

use crate::table::put_action;
use crate::written::{Members, put_text, put_word};
use docket_command::{Command, Field};
use serde_json::Value;
use std::alloc::{AllocError, Global};

/// The canonical text of a command: compact JSON, with its members in the ascending order of their
/// names' bytes, absent fields left out, and moments at Greenwich.
#[tactic(auto, using(crate::proofs::WritingLemmas::no_float, crate::proofs::SpelledLemmas::canonical_spells))]
pub fn command_text(alloc: Global, command: &Command) -> Result<String, AllocError>
    ensures value { IfOk result (λ s. string_bytes s ≡ canonical command.now) }
    ensures lawful { IfOk result (λ _. IsCommand command.now) }
    ensures spells { IfOk result (λ s. Spells (string_bytes s) command.now) }
{
    let value = command_value(alloc, command)?;
    value.to_string(alloc)
}

#[tactic(auto, unfolding(crate::specs::Writing::command_data))]
fn command_value(alloc: Global, command: &Command) -> Result<Value, AllocError>
    ensures value { IfOk result (λ v. view v ≡ command_data command.now) }
    ensures lawful { IfOk result (λ _. IsCommand command.now) }
{
    let mut members = Members::new(alloc);
    put_word(&mut members, alloc, Field::Do, command.action.name())?;
    put_text(&mut members, alloc, Field::Key, &command.key)?;
    put_action(&mut members, alloc, &command.action)?;
    Ok(Value::Object(members))
}
