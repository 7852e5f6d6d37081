//! What a form is filled in with.
ghost use Rattle.std.specs.Prelude.{◌≡◌, [], ◌∷◌, ◌++◌, IfOk, OnOk};
ghost use Rattle.command_forms.specs.Forms.{texts_of};
ghost use Rattle.entry_pages.specs.Forms.{number_pair, about_pairs, text_in};

use command_forms::Pair;
use docket_command::Field;
use html_sheets::About;
use std::alloc::{AllocError, Global};

/// The text of the last pair of a name, which is empty where there is none.
pub(crate) fn text_in<'p>(name: &str, pairs: &'p [Pair]) -> &'p str
    ensures { result.now ≡ text_in name.now (texts_of pairs.now) }
{
    let mut found = "";
    for pair in pairs {
        if pair.name.as_str() == name {
            found = pair.text.as_str();
        }
    }
    found
}

/// Adds the pair of a field, which has a number.
fn push_number(
    alloc: Global,
    pairs: &mut Vec<Pair>,
    field: Field,
    number: u32,
) -> Result<(), AllocError>
    ensures { OnOk result (texts_of pairs.new.items ≡ texts_of pairs.old.items ++ number_pair field number ∷ []) }
{
    let name = String::from_str(alloc, field.name())?;
    let text = format!(in alloc; "{number}")?;
    pairs.push(Pair { name, text })?;
    Ok(())
}

fn push_about(alloc: Global, pairs: &mut Vec<Pair>, about: About) -> Result<(), AllocError>
    ensures { OnOk result (texts_of pairs.new.items ≡ texts_of pairs.old.items ++ about_pairs about) }
{
    match about {
        About::Nothing => Ok(()),
        About::Case(case) => push_number(alloc, pairs, Field::Case, case),
        About::Party(case, party) => {
            push_number(alloc, pairs, Field::Case, case)?;
            push_number(alloc, pairs, Field::Party, party)
        }
        About::Deadline(case, deadline) => {
            push_number(alloc, pairs, Field::Case, case)?;
            push_number(alloc, pairs, Field::Deadline, deadline)
        }
    }
}

/// The pairs with which a link fills in a form: the number of the case that it is about, and that of the party or
/// the deadline.
pub fn about_pairs(alloc: Global, about: About) -> Result<Vec<Pair>, AllocError>
    ensures { IfOk result (λ pairs. texts_of pairs.items ≡ about_pairs about) }
{
    let mut pairs = Vec::new(alloc);
    push_about(alloc, &mut pairs, about)?;
    Ok(pairs)
}
