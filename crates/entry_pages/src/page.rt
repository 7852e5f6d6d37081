//! The pages on which commands are entered.
ghost use Rattle.std.specs.Prelude.{◌≡◌, ◌++◌, IfOk, string_bytes};
ghost use Rattle.command_forms.specs.Forms.{texts_of};
ghost use Rattle.entry_pages.specs.Pages.{entry_head, kinds_page, entry_page, page_of, form_again};
ghost use Rattle.entry_pages.specs.Saying.{saying_of, said_head};

use crate::form::push_form;
use crate::kinds::push_kinds;
use crate::pair::text_in;
use crate::said::{Said, push_said, said_head};
use command_forms::Pair;
use docket_command::{CommandName, from_word};
use html_sheets::{page_foot, page_head, site_nav, title_of};
use std::alloc::{AllocError, Global};

fn titled(alloc: Global, title: &str, said: Said<'_>) -> Result<String, AllocError>
    ensures { IfOk result (λ text. string_bytes text ≡ said_head (saying_of said.entry) ++ title.now) }
{
    let head = said_head(said);
    format!(in alloc; "{head}{title}")
}

/// A page up to what is entered.
#[tactic(auto, unfolding(crate::specs::Pages::entry_head))]
fn entry_head(alloc: Global, title: &str, said: Said<'_>) -> Result<String, AllocError>
    ensures { IfOk result (λ text. string_bytes text ≡ entry_head title.now (saying_of said.entry)) }
{
    let title = titled(alloc, title, said)?;
    let mut text = page_head(alloc, title.as_str())?;
    text.push_str(site_nav())?;
    push_said(&mut text, said)?;
    Ok(text)
}

/// The page of the kinds of commands that are entered by a form, each a link.
#[tactic(auto, unfolding(crate::specs::Pages::kinds_page))]
pub fn kinds_page(alloc: Global, said: Said<'_>) -> Result<String, AllocError>
    ensures { IfOk result (λ text. string_bytes text ≡ kinds_page (saying_of said.entry)) }
{
    let mut text = entry_head(alloc, "Enter", said)?;
    push_kinds(&mut text)?;
    text.push_str(page_foot())?;
    Ok(text)
}

/// The page of a kind of command: its form, with each field filled in by the last pair of its name, the field
/// that was refused marked, and above it what was said. Its key is `desk-` and the number `fresh`.
#[tactic(auto, unfolding(crate::specs::Pages::entry_page))]
pub fn entry_page(
    alloc: Global,
    kind: CommandName,
    fresh: u64,
    pairs: &[Pair],
    said: Said<'_>,
) -> Result<String, AllocError>
    ensures { IfOk result (λ text. string_bytes text ≡ entry_page kind fresh (texts_of pairs.now) (saying_of said.entry)) }
{
    let mut text = entry_head(alloc, title_of(kind), said)?;
    push_form(&mut text, kind, fresh, pairs, said)?;
    text.push_str(page_foot())?;
    Ok(text)
}

fn page_of(
    alloc: Global,
    kind: CommandName,
    fresh: u64,
    pairs: &[Pair],
    said: Said<'_>,
) -> Result<String, AllocError>
    ensures { IfOk result (λ text. string_bytes text ≡ page_of kind fresh (texts_of pairs.now) (saying_of said.entry)) }
{
    match kind {
        CommandName::ImportCalendar => kinds_page(alloc, said),
        _ => entry_page(alloc, kind, fresh, pairs, said),
    }
}

/// A form that was sent, again: the page of the kind that its pair `do` names, filled in by its pairs, or the
/// page of the kinds where it names none that is entered by a form.
#[tactic(auto, unfolding(crate::specs::Pages::form_again))]
pub fn form_again(
    alloc: Global,
    fresh: u64,
    pairs: &[Pair],
    said: Said<'_>,
) -> Result<String, AllocError>
    ensures { IfOk result (λ text. string_bytes text ≡ form_again fresh (texts_of pairs.now) (saying_of said.entry)) }
{
    match from_word(text_in("do", pairs)) {
        Some(kind) => page_of(alloc, kind, fresh, pairs, said),
        None => kinds_page(alloc, said),
    }
}
