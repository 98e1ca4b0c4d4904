//! Paths and patterns of folders.

ghost use Rattle.std.specs.Prelude.{◌≡◌, IfOk};
ghost use Rattle.ct_settings.specs.Paths as spec;

use crate::record::Pattern;
use crate::texts::{before, behind, text_of};
use ct_base::{Mem, Text};
use std::alloc::Global;

fn is_component(text: &[u8]) -> bool
    ensures { result ≡ spec.is_component text.now }
{
    !(text.is_empty() || text == b".".as_slice() || text == b"..".as_slice())
}

fn is_path(text: &[u8]) -> bool
    ensures { result ≡ spec.is_path text.now }
{
    text.split(|byte| *byte == b'/').all(is_component)
}

fn without_start(text: &[u8]) -> &[u8]
    ensures { result.now ≡ spec.without_start text.now }
{
    behind(b"./", text).unwrap_or(text)
}

fn without_end(text: &[u8]) -> &[u8]
    ensures { result.now ≡ spec.without_end text.now }
{
    before(b"/", text).unwrap_or(text)
}

/// The path that a text stands for.
#[tactic(auto, unfolding(crate::specs::Paths::path_of))]
pub fn path(alloc: Global, text: &[u8]) -> Mem<Option<Text>>
    ensures { IfOk result (λ path. path ≡ spec.path_of text.now) }
{
    let path = without_end(without_start(text));
    if !is_path(path) {
        return Ok(None);
    }
    text_of(alloc, path)
}

/// The path of a pattern, which is empty for the root.
fn folder(alloc: Global, text: &[u8]) -> Mem<Option<Text>>
    ensures { IfOk result (λ path. path ≡ spec.folder_of text.now) }
{
    if text == b".".as_slice() || text == b"./".as_slice() {
        return Ok(Some(Text::new(String::new(alloc))));
    }
    path(alloc, text)
}

fn with_sign(alloc: Global, add: bool, text: &[u8]) -> Mem<Option<Pattern>>
    ensures { IfOk result (λ pattern. pattern ≡ spec.pattern add text.now) }
{
    match folder(alloc, text)? {
        Some(path) => Ok(Some(Pattern { add, path })),
        None => Ok(None),
    }
}

/// The pattern that a text stands for.
#[tactic(auto, unfolding(crate::specs::Paths::pattern_of))]
pub fn pattern(alloc: Global, text: &[u8]) -> Mem<Option<Pattern>>
    ensures { IfOk result (λ pattern. pattern ≡ spec.pattern_of text.now) }
{
    match behind(b"-:", text) {
        Some(rest) => with_sign(alloc, false, rest),
        None => with_sign(alloc, true, behind(b"+:", text).unwrap_or(text)),
    }
}
