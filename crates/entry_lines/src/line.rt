//! The line of a command, with its kind and its key.
ghost use Rattle.std.specs.Prelude.{◌≡◌, IfOk, string_bytes};
ghost use Rattle.command_forms.specs.Forms.{texts_of};
ghost use Rattle.entry_lines.specs.Lines.{key_of, line_entered};

use crate::entry::Entry;
use crate::fields::pair_of;
use crate::key::made_key;
use command_forms::{Pair, command_line};
use court_days::Court;
use docket_command::{Field, Word};
use std::alloc::{AllocError, Global};

/// The key of the command that pairs without a key spell: the one that is given, or the one that is made.
fn key_of(
    alloc: Global,
    court: &Court,
    entry: &Entry<'_>,
    pairs: &[Pair],
) -> Result<String, AllocError>
    ensures { IfOk result (λ key. string_bytes key ≡ key_of court.now entry.now (texts_of pairs.now)) }
{
    match entry.key {
        Some(key) => String::from_str(alloc, key),
        None => {
            let line = command_line(alloc, pairs)?;
            made_key(alloc, court, entry.clock, line.as_str())
        }
    }
}

/// The line of the command with these fields: first its kind and its key.
pub(crate) fn line_entered(
    alloc: Global,
    court: &Court,
    entry: &Entry<'_>,
    fields: Vec<Pair>,
) -> Result<String, AllocError>
    ensures { IfOk result (λ line. string_bytes line ≡ line_entered court.now entry.now (texts_of fields.items)) }
{
    let mut pairs = fields;
    let word = String::from_str(alloc, entry.kind.word())?;
    let kind = pair_of(alloc, Field::Do.name(), word)?;
    pairs.insert(0, kind)?;
    let text = key_of(alloc, court, entry, &pairs)?;
    let key = pair_of(alloc, Field::Key.name(), text)?;
    pairs.insert(1, key)?;
    command_line(alloc, &pairs)
}
