//! Prefixes, and the words that a key takes.

ghost use Rattle.std.specs.Prelude.{◌≡◌, IfOk, map};
ghost use Rattle.std.specs.List.{list_all};
ghost use Rattle.ct_base.specs.Bytes as bytes_spec;
ghost use Rattle.ct_settings.specs.Names as spec;

use crate::record::WhenPtr;
use crate::texts::{behind, text_of};
use ct_base::{Mem, Text, first_of, is_letter, is_name_byte, is_nondigit};
use std::alloc::Global;

fn are_name_bytes(bytes: &[u8]) -> bool
    ensures { result ≡ list_all bytes_spec.is_name_byte bytes.now }
{
    bytes.iter().all(|byte| is_name_byte(*byte))
}

/// Whether a text is letters, digits and `_`, one at least.
fn is_prefix(text: &[u8]) -> bool
    ensures { result ≡ spec.is_prefix text.now }
{
    match first_of(text) {
        Some((byte, bytes)) => is_name_byte(byte) && are_name_bytes(bytes),
        None => false,
    }
}

/// Whether a text is such a prefix that begins with a letter.
fn is_mock_prefix(text: &[u8]) -> bool
    ensures { result ≡ spec.is_mock_prefix text.now }
{
    match first_of(text) {
        Some((byte, bytes)) => is_letter(byte) && are_name_bytes(bytes),
        None => false,
    }
}

/// The prefix that a text is.
#[tactic(auto, using(crate::proofs::Ascii::ascii_rules), unfolding(crate::specs::Names::prefix_of))]
pub fn prefix(alloc: Global, text: &[u8]) -> Mem<Option<Text>>
    ensures { IfOk result (λ prefix. prefix ≡ spec.prefix_of text.now) }
{
    if !is_prefix(text) {
        return Ok(None);
    }
    text_of(alloc, text)
}

/// The prefix of mocks that a text is.
#[tactic(auto, using(crate::proofs::Ascii::ascii_rules), unfolding(crate::specs::Names::mock_prefix_of))]
pub fn mock_prefix(alloc: Global, text: &[u8]) -> Mem<Option<Text>>
    ensures { IfOk result (λ prefix. prefix ≡ spec.mock_prefix_of text.now) }
{
    if !is_mock_prefix(text) {
        return Ok(None);
    }
    text_of(alloc, text)
}

/// Whether a text is an identifier (C11 6.4.2.1).
pub fn is_identifier(text: &[u8]) -> bool
    ensures { result ≡ spec.is_identifier text.now }
{
    match first_of(text) {
        Some((byte, bytes)) => is_nondigit(byte) && are_name_bytes(bytes),
        None => false,
    }
}

fn is_word(name: &[u8], word: &[u8]) -> bool
    ensures { result ≡ spec.is_word name.now word.now }
{
    word == name || behind(b":", word) == Some(name)
}

/// Whether a word stands among words, with a colon before it or without.
pub fn has_word(name: &[u8], words: &[&[u8]]) -> bool
    ensures { result ≡ spec.has_word name.now (map (λ word. word.now) words.now) }
{
    words.iter().any(|word| is_word(name, word))
}

/// What a word says is compared of pointers.
#[tactic(auto, unfolding(crate::specs::Names::when_ptr_of))]
pub fn when_ptr(text: &[u8]) -> Option<WhenPtr>
    ensures { result ≡ spec.when_ptr_of text.now }
{
    if text == b":compare_data".as_slice() {
        Some(WhenPtr::CompareData)
    } else if text == b":compare_ptr".as_slice() {
        Some(WhenPtr::ComparePtr)
    } else if text == b":smart".as_slice() {
        Some(WhenPtr::Smart)
    } else {
        None
    }
}

/// The truth value that a word is.
#[tactic(auto, unfolding(crate::specs::Names::truth_of))]
pub fn truth(text: &[u8]) -> Option<bool>
    ensures { result ≡ spec.truth_of text.now }
{
    if text == b"TRUE".as_slice() || text == b"true".as_slice() {
        Some(true)
    } else if text == b"FALSE".as_slice() || text == b"false".as_slice() {
        Some(false)
    } else {
        None
    }
}
