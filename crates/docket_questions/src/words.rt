//! Texts that contain words, without regard to the case of ASCII letters.
ghost use Rattle.std.specs.Prelude.{◌≡◌};
ghost use Rattle.std.specs.List.{list_any};
ghost use Rattle.docket_questions.specs.Searches.{begins, folded, has_words};

use docket_history::PartyRow;

/// Whether the text begins with the words.
fn begins(text: &[u8], words: &[u8]) -> bool
    ensures { result ≡ begins (folded words.now) (folded text.now) }
{
    let most = words.len().min(text.len());
    text[..most].eq_ignore_ascii_case(words)
}

/// Returns whether the text contains the words, without regard to the case of ASCII letters.
pub fn has_words(text: &str, words: &str) -> bool
    ensures { result ≡ has_words text.now words.now }
{
    let text = text.as_bytes();
    let words = words.as_bytes();
    'places: for from in 0..text.len() {
        if begins(&text[from..], words) {
            return true;
        }
    }
    words.is_empty()
}

/// Whether the name of one of the parties contains the words.
pub(crate) fn is_among(parties: &[PartyRow], words: &str) -> bool
    ensures { result ≡ list_any (λ party. has_words party.name words.now) parties.now }
{
    parties
        .iter()
        .any(|party| has_words(party.name.as_str(), words))
}
