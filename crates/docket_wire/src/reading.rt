//! Commands from JSON texts.
ghost use Rattle.std.specs.Prelude.{◌≡◌, ◌≢◌, ◌++◌, IfOk, IfErr};
ghost use Rattle.docket_command.specs.declared.command.Command.{Command};
ghost use Rattle.serde_json.specs.View.{view, members_view};
ghost use Rattle.docket_wire.specs.declared.fault.WireFault.TheVariants.{NoMemory};
ghost use Rattle.docket_wire.specs.FirstFaults.{HasFault};
ghost use Rattle.docket_wire.specs.Members.{Gives};
ghost use Rattle.docket_wire.specs.Spells.{Spells};
ghost use Rattle.docket_wire.specs.Reading.{first_missing, only_known, all_known, is_known, name_of_object, command_of, command_in};

use crate::fault::WireFault;
use crate::member::{present, required_text};
use crate::table::{members_of, read_action};
use docket_command::{Command, CommandName, Field, from_word};
use serde_json::{Map, Value};
use std::alloc::Global;

/// The command that the text spells: it is a JSON object with the members `do` and `key` and the
/// fields of the command, each of its type, and no other. Of a member that is given twice the last
/// counts; a field that may be absent may be null. Otherwise the first fault of the text, or
/// `NoMemory`, which may come at any point.
pub fn read_command(alloc: Global, bytes: &[u8]) -> Result<Command, WireFault>
    ensures value { Gives result (command_in bytes.now) }
    ensures spelled { IfOk result (λ command. Spells bytes.now command) }
    ensures none { IfErr result (λ fault. fault ≢ NoMemory
        → (command : Command) → ¬ (Spells bytes.now command)) }
    ensures fault { IfErr result (λ fault. fault ≢ NoMemory → HasFault bytes.now fault) }
{
    parsed(alloc, bytes)
}

#[tactic(auto, unfolding(crate::specs::Reading::command_in))]
fn parsed(alloc: Global, bytes: &[u8]) -> Result<Command, WireFault>
    ensures { Gives result (command_in bytes.now) }
{
    match Value::from_slice(alloc, bytes) {
        Ok(value) => command(alloc, &value),
        Err(e) => {
            if e.is_memory() {
                Err(WireFault::NoMemory)
            } else {
                Err(WireFault::NotJson)
            }
        }
    }
}

#[tactic(auto, unfolding(crate::specs::Reading::command_of))]
fn command(alloc: Global, object: &Value) -> Result<Command, WireFault>
    ensures { Gives result (command_of (view object.now)) }
{
    if !object.is_object() {
        return Err(WireFault::NotAnObject);
    }
    let name = command_name(object).ok_or(WireFault::UnknownCommand)?;
    let known = members_of(name);
    if let Some(field) = first_missing(object, known.required) {
        return Err(WireFault::MissingField(field));
    }
    let key = required_text(alloc, object, Field::Key)?;
    let action = read_action(alloc, name, object)?;
    if !has_only(object, known.required, known.others) {
        return Err(WireFault::UnknownField);
    }
    Ok(Command { key, action })
}

fn command_name(object: &Value) -> Option<CommandName>
    ensures { result ≡ name_of_object (view object.now) }
{
    from_word(object.get("do")?.as_str()?)
}

fn first_missing(object: &Value, fields: &[Field]) -> Option<Field>
    ensures { result ≡ first_missing fields.now (view object.now) }
{
    fields
        .iter()
        .copied()
        .find(|f| present(object, *f).is_none())
}

pub(crate) fn has_only(object: &Value, fields: &[Field], others: &[Field]) -> bool
    ensures { result ≡ only_known (fields.now ++ others.now) (view object.now) }
{
    match object.as_object() {
        None => true,
        Some(members) => all_known(members, fields, others),
    }
}

fn all_known(members: &Map<String, Value>, fields: &[Field], others: &[Field]) -> bool
    ensures { result ≡ all_known (fields.now ++ others.now) (members_view members.now.entries) }
{
    for name in members.keys() {
        if !is_known(name.as_str(), fields, others) {
            return false;
        }
    }
    true
}

#[tactic(auto, using(crate::proofs::ReadingLemmas::known_in_either))]
fn is_known(name: &str, fields: &[Field], others: &[Field]) -> bool
    ensures { result ≡ is_known (fields.now ++ others.now) name.now }
{
    is_one_of(name, fields) || is_one_of(name, others)
}

#[tactic(auto, unfolding(crate::specs::Reading::is_known))]
fn is_one_of(name: &str, fields: &[Field]) -> bool
    ensures { result ≡ is_known fields.now name.now }
{
    fields.iter().any(|f| name == f.name())
}
