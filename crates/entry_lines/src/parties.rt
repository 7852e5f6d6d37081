//! The party that is meant by a name.
ghost use Rattle.std.specs.Prelude.{◌≡◌, IfOk, bytes_eq};
ghost use Rattle.docket_questions.specs.Searches.{folded};
ghost use Rattle.entry_lines.specs.Names.{fits, numbers_fitting, only_one, party_meant};

use crate::entry::Unnamed;
use docket_command::Field;
use docket_history::PartyRow;
use docket_questions::has_words;
use std::alloc::{AllocError, Global};

/// How words fit a name.
#[derive(Clone, Copy)]
pub(crate) enum Fit {
    /// They are the whole name.
    Whole,
    /// They are a part of it.
    Part,
}

/// Whether the text is the words, without regard to the case of ASCII letters.
fn is_same(text: &str, words: &str) -> bool
    ensures { result ≡ bytes_eq (folded text.now) (folded words.now) }
{
    text.eq_ignore_ascii_case(words)
}

/// Whether the words fit the name.
fn fits(fit: Fit, words: &str, name: &str) -> bool
    ensures { result ≡ fits fit words.now name.now }
{
    match fit {
        Fit::Whole => is_same(name, words),
        Fit::Part => has_words(name, words),
    }
}

/// The numbers of the parties whose names the words fit.
fn numbers_fitting(
    alloc: Global,
    fit: Fit,
    words: &str,
    parties: &[PartyRow],
) -> Result<Vec<u32>, AllocError>
    ensures { IfOk result (λ numbers. numbers.items ≡ numbers_fitting fit words.now parties.now) }
{
    let mut numbers = Vec::new(alloc);
    for party in parties {
        if fits(fit, words, party.name.as_str()) {
            numbers.push(party.number)?;
        }
    }
    Ok(numbers)
}

/// The only one of the numbers.
fn only_one(field: Field, numbers: &[u32]) -> Result<u32, Unnamed>
    ensures { result ≡ only_one field numbers.now }
{
    match numbers.len() {
        0 => Err(Unnamed::NoParty(field)),
        1 => Ok(numbers[0]),
        _ => Err(Unnamed::SeveralParties(field, numbers[0], numbers[1])),
    }
}

/// The number of the party that the words mean: the one of that whole name, else the one whose name contains them.
pub(crate) fn party_meant(
    alloc: Global,
    field: Field,
    parties: &[PartyRow],
    words: &str,
) -> Result<Result<u32, Unnamed>, AllocError>
    ensures { IfOk result (λ meant. meant ≡ party_meant field parties.now words.now) }
{
    let whole = numbers_fitting(alloc, Fit::Whole, words, parties)?;
    if !whole.is_empty() {
        return Ok(only_one(field, whole.as_slice()));
    }
    let parts = numbers_fitting(alloc, Fit::Part, words, parties)?;
    Ok(only_one(field, parts.as_slice()))
}
