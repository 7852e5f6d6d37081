//! The fields of a command, with numbers for the names in them.
ghost use Rattle.std.specs.Prelude.{◌≡◌, ◌++◌, ◌∷◌, [], IfOk, OnOk, Ok, string_bytes};
ghost use Rattle.std.specs.Result.{result_map_both};
ghost use Rattle.command_forms.specs.Forms.{texts_of};
ghost use Rattle.command_forms.specs.Given.{texts_given};
ghost use Rattle.docket_command.specs.Fields.{field_name};
ghost use Rattle.entry_lines.specs.Names.{case_text, number_meant, takes_name, text_meant, text_of_number};
ghost use Rattle.entry_lines.specs.Lines.{pairs_meant};

use crate::digits::is_name;
use crate::entry::Unnamed;
use crate::parties::party_meant;
use command_forms::{FieldText, Pair};
use docket_command::Field;
use docket_history::PartyRow;
use std::alloc::{AllocError, Global};

/// Whether a name may stand in the field.
fn takes_name(field: Field) -> bool
    ensures { result ≡ takes_name field }
{
    matches!(field, Field::Case | Field::Party | Field::Opponent)
}

/// The text that stands for the case, which is empty where none does.
pub(crate) fn case_text<'g>(given: &[FieldText<'g>]) -> &'g str
    ensures { result.now ≡ case_text (texts_given given.now) }
{
    for it in given {
        if matches!(it.field, Field::Case) {
            return it.text;
        }
    }
    ""
}

/// The number that a name in the field means.
fn number_meant(
    alloc: Global,
    case: Option<u32>,
    parties: &[PartyRow],
    field: Field,
    name: &str,
) -> Result<Result<u32, Unnamed>, AllocError>
    ensures { IfOk result (λ meant. meant ≡ number_meant case parties.now field name.now) }
{
    match field {
        Field::Case => Ok(case.ok_or(Unnamed::NoCase)),
        _ => party_meant(alloc, field, parties, name),
    }
}

/// The text of a number.
fn number_text(
    alloc: Global,
    meant: Result<u32, Unnamed>,
) -> Result<Result<String, Unnamed>, AllocError>
    ensures { IfOk result (λ text. result_map_both string_bytes (λ why. why) text ≡ text_of_number meant) }
{
    match meant {
        Ok(number) => {
            let text = format!(in alloc; "{number}")?;
            Ok(Ok(text))
        }
        Err(why) => Ok(Err(why)),
    }
}

/// The text of a field, with the number that a name means.
fn text_meant(
    alloc: Global,
    case: Option<u32>,
    parties: &[PartyRow],
    given: &FieldText<'_>,
) -> Result<Result<String, Unnamed>, AllocError>
    ensures { IfOk result (λ text. result_map_both string_bytes (λ why. why) text
        ≡ text_meant case parties.now given.now.field given.now.text.now) }
{
    if takes_name(given.field) && is_name(given.text) {
        let meant = number_meant(alloc, case, parties, given.field, given.text)?;
        return number_text(alloc, meant);
    }
    let text = String::from_str(alloc, given.text)?;
    Ok(Ok(text))
}

/// The pair of a name and a text.
pub(crate) fn pair_of(alloc: Global, name: &str, text: String) -> Result<Pair, AllocError>
    ensures name { IfOk result (λ pair. string_bytes pair.name ≡ name.now) }
    ensures text { IfOk result (λ pair. string_bytes pair.text ≡ string_bytes text) }
{
    let name = String::from_str(alloc, name)?;
    Ok(Pair { name, text })
}

/// Adds the pair of a field.
fn push_field(
    alloc: Global,
    pairs: &mut Vec<Pair>,
    field: Field,
    text: String,
) -> Result<(), AllocError>
    ensures { OnOk result (texts_of pairs.new.items ≡ texts_of pairs.old.items ++ (field_name field, string_bytes text) ∷ []) }
{
    let pair = pair_of(alloc, field.name(), text)?;
    pairs.push(pair)?;
    Ok(())
}

/// The pairs of the fields, with numbers for the names.
pub(crate) fn pairs_meant(
    alloc: Global,
    case: Option<u32>,
    parties: &[PartyRow],
    given: &[FieldText<'_>],
) -> Result<Result<Vec<Pair>, Unnamed>, AllocError>
    ensures { IfOk result (λ pairs. result_map_both (λ pairs. texts_of pairs.items) (λ why. why) pairs
        ≡ pairs_meant case parties.now (texts_given given.now)) }
{
    let mut pairs = Vec::new(alloc);
    'given: for it in given {
        match text_meant(alloc, case, parties, it)? {
            Ok(text) => push_field(alloc, &mut pairs, it.field, text)?,
            Err(why) => return Ok(Err(why)),
        }
    }
    Ok(Ok(pairs))
}
