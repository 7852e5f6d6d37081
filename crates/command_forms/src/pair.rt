//! The pairs of a form.
ghost use Rattle.std.specs.Prelude.{◌≡◌, IfOk};
ghost use Rattle.command_forms.specs.Forms.{pairs_in, texts_of};

use form_urlencoded::parse;
use std::alloc::{AllocError, Global};

/// A name and a text, as a form has them.
#[derive(Drop)]
pub struct Pair {
    pub name: String,
    pub text: String,
}

/// The pairs of a form (`application/x-www-form-urlencoded`, by the URL Standard, section 5.1), in their order.
/// What is no UTF-8 in a name or a text is read as U+FFFD.
pub fn read_pairs(alloc: Global, form: &[u8]) -> Result<Vec<Pair>, AllocError>
    ensures { IfOk result (λ pairs. texts_of pairs.items ≡ pairs_in form.now) }
{
    let mut pairs = Vec::new(alloc);
    let mut left = parse(alloc, form).into_owned();
    'left: while let Some(pair) = left.next() {
        let (name, text) = pair?;
        pairs.push(Pair { name, text })?;
    }
    Ok(pairs)
}
