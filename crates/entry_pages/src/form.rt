//! The form of a kind of command.
ghost use Rattle.std.specs.Prelude.{◌≡◌, ◌++◌, OnOk, string_bytes};
ghost use Rattle.command_forms.specs.Forms.{texts_of};
ghost use Rattle.entry_pages.specs.Forms.{entry_form, form_head};
ghost use Rattle.entry_pages.specs.Saying.{saying_of};

use crate::field::push_fields;
use crate::said::Said;
use command_forms::Pair;
use docket_command::{CommandName, Word};
use std::alloc::AllocError;

fn push_head(text: &mut String, kind: CommandName, fresh: u64) -> Result<(), AllocError>
    ensures { OnOk result (string_bytes text.new ≡ string_bytes text.old ++ form_head kind fresh) }
{
    let word = kind.word();
    write!(
        text,
        "<form class=\"entry\" action=\"/pages/commands\" method=\"post\" autocomplete=\"off\">\n\
        <input type=\"hidden\" name=\"do\" value=\"{word}\"><input type=\"hidden\" name=\"key\" value=\"desk-{fresh}\">\n"
    )
}

/// Adds the form of a kind of command, with each of its fields filled in by the last pair of its name. Its key is
/// made of the number `fresh`.
#[tactic(auto, unfolding(crate::specs::Forms::entry_form))]
pub(crate) fn push_form(
    text: &mut String,
    kind: CommandName,
    fresh: u64,
    pairs: &[Pair],
    said: Said<'_>,
) -> Result<(), AllocError>
    ensures { OnOk result (string_bytes text.new ≡ string_bytes text.old ++ entry_form kind fresh (texts_of pairs.now) (saying_of said.entry)) }
{
    push_head(text, kind, fresh)?;
    push_fields(text, kind, pairs, said)?;
    text.push_str(
        "<p><button>Enter</button> <button class=\"other\" formaction=\"/pages/previews\">Show what it would do</button></p>\n</form>\n",
    )
}
