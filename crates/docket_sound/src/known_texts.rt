//! Texts that are known.
ghost use Rattle.std.specs.Prelude.{◌≡◌, List, ℕ, ◌||◌, false, OnOk, OnErr};
ghost use Rattle.std.specs.Str.{bytes_eq};
ghost use Rattle.docket_sound.specs.KnownTexts.{is_known};

use docket_command::Text;
use std::alloc::{AllocError, Global};
use std::collections::BTreeSet;

/// Texts that are known, as the labels of cases or the names of local rules.
#[derive(Drop)]
pub struct KnownTexts {
    pub(crate) texts: BTreeSet<String>,
}

impl KnownTexts {
    /// No text. It takes no memory yet.
    pub fn new(alloc: Global) -> KnownTexts
        ensures { (text : List ℕ) → is_known result text ≡ false }
    {
        KnownTexts {
            texts: BTreeSet::new(alloc),
        }
    }

    /// Whether the text is one of them.
    pub fn has(&self, text: &Text) -> bool
        ensures { result ≡ is_known self.now text.now }
    {
        self.texts.contains(text.as_str())
    }

    /// Adds a text. Out of memory changes nothing.
    pub fn put(&mut self, alloc: Global, text: &str) -> Result<(), AllocError>
        ensures ok { OnOk result ((other : List ℕ) → is_known self.new other ≡ (bytes_eq text.now other || is_known self.old other)) }
        ensures err { OnErr result ((other : List ℕ) → is_known self.new other ≡ is_known self.old other) }
    {
        let copy = String::from_str(alloc, text)?;
        self.texts.insert(copy)?;
        Ok(())
    }
}
