//! The texts of replies, refusals and faults.
ghost use Rattle.std.specs.Prelude.{◌≡◌, IfOk, string_bytes};
ghost use Rattle.docket_wire.specs.Texts.{refused_field, refusal_text_of, refusal_text, fault_name, fault_number, fault_field, fault_text_of, fault_text, reply_text};

use crate::fault::WireFault;
use docket_command::{Field, Refusal, Reply};
use std::alloc::{AllocError, Global};

/// The text of the reply to a command, as `{"number":1}`, `{"name":"Exists","refused":8}` or
/// `{"field":"filed","name":"BadValue","refused":3}`.
pub fn reply_text(alloc: Global, answer: &Result<Reply, Refusal>) -> Result<String, AllocError>
    ensures { IfOk result (λ s. string_bytes s ≡ reply_text answer.now) }
{
    match answer {
        Ok(reply) => {
            let number = reply.number;
            format!(in alloc; "{{\"number\":{number}}}")
        }
        Err(refusal) => refusal_text(alloc, *refusal),
    }
}

fn refused_field(refusal: Refusal) -> Option<Field>
    ensures { result ≡ refused_field refusal }
{
    match refusal {
        Refusal::BadValue(field) => Some(field),
        _ => None,
    }
}

fn refusal_text(alloc: Global, refusal: Refusal) -> Result<String, AllocError>
    ensures { IfOk result (λ s. string_bytes s ≡ refusal_text refusal) }
{
    refusal_text_of(
        alloc,
        refusal.number(),
        refusal.name(),
        refused_field(refusal),
    )
}

fn refusal_text_of(
    alloc: Global,
    number: u32,
    name: &str,
    field: Option<Field>,
) -> Result<String, AllocError>
    ensures { IfOk result (λ s. string_bytes s ≡ refusal_text_of number name.now field) }
{
    match field {
        Some(field) => {
            let field = field.name();
            format!(in alloc; "{{\"field\":\"{field}\",\"name\":\"{name}\",\"refused\":{number}}}")
        }
        None => format!(in alloc; "{{\"name\":\"{name}\",\"refused\":{number}}}"),
    }
}

impl WireFault {
    /// Its place in the order in which faults are checked, from 1.
    pub fn number(self) -> u32
        ensures { result ≡ fault_number self }
    {
        match self {
            WireFault::NotJson => 1,
            WireFault::NotAnObject => 2,
            WireFault::UnknownCommand => 3,
            WireFault::MissingField(_) => 4,
            WireFault::WrongField(_) => 5,
            WireFault::UnknownField => 6,
            WireFault::NoMemory => 7,
        }
    }

    /// The field that it is about.
    pub fn field(self) -> Option<Field>
        ensures { result ≡ fault_field self }
    {
        match self {
            WireFault::MissingField(field) | WireFault::WrongField(field) => Some(field),
            _ => None,
        }
    }

    /// Its name.
    pub fn name(self) -> &'static str
        ensures { result.now ≡ fault_name self }
    {
        match self {
            WireFault::NotJson => "NotJson",
            WireFault::NotAnObject => "NotAnObject",
            WireFault::UnknownCommand => "UnknownCommand",
            WireFault::MissingField(_) => "MissingField",
            WireFault::WrongField(_) => "WrongField",
            WireFault::UnknownField => "UnknownField",
            WireFault::NoMemory => "NoMemory",
        }
    }
}

/// A fault, as `{"fault":1,"name":"NotJson"}` or `{"fault":4,"field":"case","name":"MissingField"}`.
pub fn wire_fault_text(alloc: Global, fault: &WireFault) -> Result<String, AllocError>
    ensures { IfOk result (λ s. string_bytes s ≡ fault_text fault.now) }
{
    fault_text_of(alloc, fault.number(), fault.name(), fault.field())
}

fn fault_text_of(
    alloc: Global,
    number: u32,
    name: &str,
    field: Option<Field>,
) -> Result<String, AllocError>
    ensures { IfOk result (λ s. string_bytes s ≡ fault_text_of number name.now field) }
{
    match field {
        Some(field) => {
            let field = field.name();
            format!(in alloc; "{{\"fault\":{number},\"field\":\"{field}\",\"name\":\"{name}\"}}")
        }
        None => format!(in alloc; "{{\"fault\":{number},\"name\":\"{name}\"}}"),
    }
}
