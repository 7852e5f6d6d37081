//! The words of a search, by the query.
ghost use Rattle.std.specs.Prelude.{◌≡◌, ◌<◌, ◌≤◌, length, map, MatchOption, option_copied};
ghost use Rattle.form_urlencoded.specs.Form.{decode, plus_to_space, raw_pairs as pairs_of};
ghost use Rattle.http_request.specs.Search.{find_value as value_of_find, words_in as words_by_value, words_of};

use arrayvec::ArrayVec;
use form_urlencoded::raw_pairs;
use percent_encoding::percent_decode;
use std::marker::Model;
use std::str::from_utf8;

/// The words that are searched for: a text of 1 to 100 bytes.
#[derive(Clone, Copy)]
pub struct Words {
    // Zeros stand behind the text.
    bytes: [u8; 100],
    len: usize,
}

impl Model for Words {
    ghost use Rattle.std.specs.Prelude.{◌≡◌, ◌≤◌, ℕ, List, length, take, IsUtf8};
    ghost use Rattle.http_request.specs.Search.{padded};

    ghost Value = { List ℕ };

    ghost view = { λ words. take words.len words.bytes };

    ghost invariant = { λ words. (words.len ≤ 100) × (length words.bytes ≡ 100) × IsUtf8 (take words.len words.bytes)
        × (words.bytes ≡ padded words.len (take words.len words.bytes)) };

    ghost inverse = { λ text. record { bytes = padded (length text) text; len = length text } };
}

impl Words {
    // The words of a text of at most 100 bytes.
    fn new(text: &str) -> Words
        requires { length text.now ≤ 100 }
        ensures { result ≡ text.now }
    {
        let mut bytes = [0; 100];
        bytes[..text.len()].copy_from_slice(text.as_bytes());
        Words {
            bytes,
            len: text.len(),
        }
    }

    /// The text of the words.
    pub fn as_str(&self) -> &str
        ensures { result.now ≡ self.now }
    {
        from_utf8(&self.bytes[..self.len]).unwrap()
    }
}

// The bytes with a space for each plus sign. `None`: they stand for more than the words may have.
fn spaced(value: &[u8]) -> Option<ArrayVec<u8, 300>>
    ensures { MatchOption result (300 < length value.now) (λ bytes. bytes.items ≡ map plus_to_space value.now) }
{
    let mut bytes = ArrayVec::new();
    for byte in value {
        let byte = if *byte == b'+' { b' ' } else { *byte };
        if bytes.try_push(byte).is_err() {
            return None;
        }
    }
    Some(bytes)
}

// The bytes that a value stands for. `None`: they are more than the words may have.
fn decoded(value: &[u8]) -> Option<ArrayVec<u8, 100>>
    ensures { MatchOption result (100 < length (decode value.now)) (λ bytes. bytes.items ≡ decode value.now) }
{
    let spaced = spaced(value)?;
    let mut bytes = ArrayVec::new();
    for byte in percent_decode(spaced.as_slice()) {
        if bytes.try_push(byte).is_err() {
            return None;
        }
    }
    Some(bytes)
}

// The words that a value stands for.
fn words_in(value: &[u8]) -> Option<Words>
    ensures { result ≡ words_by_value value.now }
{
    let bytes = decoded(value)?;
    let Ok(text) = from_utf8(bytes.as_slice()) else {
        return None;
    };
    if text.is_empty() {
        return None;
    }
    Some(Words::new(text))
}

// The value of the one pair of a form.
fn find_value(form: &[u8]) -> Option<&[u8]>
    ensures { option_copied result ≡ value_of_find (pairs_of form.now) }
{
    let mut pairs = raw_pairs(form);
    let (name, value) = pairs.next()?;
    if pairs.next().is_none() && name == b"find".as_slice() {
        Some(value)
    } else {
        None
    }
}

/// The words that a query searches for: `find=WORDS`, in the form that a browser gives it. They have 1 to 100 bytes,
/// which are UTF-8.
pub fn read_words(query: &str) -> Option<Words>
    ensures { result ≡ words_of query.now }
{
    words_in(find_value(query.as_bytes())?)
}
