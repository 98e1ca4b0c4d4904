//! Texts, and what stands at their ends.

ghost use Rattle.std.specs.Prelude.{◌≡◌, IfOk, Some, None, if◌then◌else◌};
ghost use Rattle.std.specs.Option.{option_copied};
ghost use Rattle.std.specs.Str as str_spec;
ghost use Rattle.ct_settings.specs.Paths as spec;

use ct_base::{Mem, Text};
use std::alloc::Global;
use std::str;

/// What stands behind a front, where the text begins with it.
pub fn behind<'a>(front: &[u8], text: &'a [u8]) -> Option<&'a [u8]>
    ensures { option_copied result ≡ spec.behind front.now text.now }
{
    text.strip_prefix(front)
}

/// What stands before an end, where the text ends with it.
pub fn before<'a>(end: &[u8], text: &'a [u8]) -> Option<&'a [u8]>
    ensures { option_copied result ≡ spec.before end.now text.now }
{
    text.strip_suffix(end)
}

#[tactic(auto, using(crate::proofs::TextLemmas::utf8_rules))]
fn as_str(bytes: &[u8]) -> Option<&str>
    ensures { option_copied result ≡ (if str_spec.is_utf8 bytes.now then Some bytes.now else None) }
{
    match str::from_utf8(bytes) {
        Ok(text) => Some(text),
        Err(_) => None,
    }
}

/// The text of bytes that are UTF-8.
pub fn text_of(alloc: Global, bytes: &[u8]) -> Mem<Option<Text>>
    ensures { IfOk result (λ text. text ≡ (if str_spec.is_utf8 bytes.now then Some bytes.now else None)) }
{
    let Some(text) = as_str(bytes) else {
        return Ok(None);
    };
    Ok(Some(Text::copy_of(alloc, text)?))
}
