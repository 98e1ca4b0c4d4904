//! Macros that a project file defines.

ghost use Rattle.std.specs.Prelude.{◌≡◌, ◌<◌, ◌||◌, ℕ, List, length, not, position, IfOk, IfSome};
ghost use Rattle.std.specs.Str.{bytes_eq};
ghost use Rattle.ct_settings.specs.Names as spec;
ghost use Rattle.ct_settings.specs.Seen.{has_name};

use crate::names::is_identifier;
use crate::record::Define;
use crate::texts::behind;
use ct_base::{Bytes, Items, Mem, has_pair};
use std::alloc::Global;
use std::collections::BTreeSet;

/// Whether a project may not define a name.
fn is_reserved(name: &[u8]) -> bool
    ensures { result ≡ spec.is_reserved name.now }
{
    behind(b"ceedling_head_", name).is_some()
        || name == b"defined".as_slice()
        || name == b"__LINE__".as_slice()
        || name == b"__FILE__".as_slice()
        || name == b"__STDC__".as_slice()
        || name == b"__STDC_VERSION__".as_slice()
}

/// Whether a text may replace a name.
fn is_body(text: &[u8]) -> bool
    ensures { result ≡ spec.is_body text.now }
{
    !(has_pair(b'#', b'#', text) || has_pair(b'/', b'*', text) || text.contains(&b'\n'))
}

/// Where the first `=` stands.
fn equals_place(text: &[u8]) -> Option<usize>
    ensures place { result ≡ position spec.is_equals text.now }
    ensures within { IfSome result (λ place. place < length text.now) }
{
    text.iter().position(|byte| *byte == b'=')
}

/// The name and the text of `NAME=TEXT`, or of `NAME`, whose text is `1`.
fn parts(text: &[u8]) -> (&[u8], &[u8])
    ensures { (result.0.now, result.1.now) ≡ spec.parts_of text.now }
{
    match equals_place(text) {
        Some(place) => (&text[..place], &text[place + 1..]),
        None => (text, b"1"),
    }
}

/// The define that a text stands for.
#[tactic(auto, unfolding(crate::specs::Names::define_of))]
pub fn define(alloc: Global, text: &[u8]) -> Mem<Option<Define>>
    ensures { IfOk result (λ define. define ≡ spec.define_of text.now) }
{
    let (name, body) = parts(text);
    if !is_identifier(name) || is_reserved(name) || !is_body(body) {
        return Ok(None);
    }
    let name = Bytes::from_slice(alloc, name)?;
    let text = Bytes::from_slice(alloc, body)?;
    Ok(Some(Define { name, text }))
}

/// Whether a name is new to the names so far, to which it is added.
fn is_new(alloc: Global, name: &[u8], names: &mut BTreeSet<Vec<u8>>) -> Mem<bool>
    ensures { IfOk result (λ new. (new ≡ not (has_name names.old name.now))
        × ((other : List ℕ) → has_name names.new other ≡ bytes_eq name.now other || has_name names.old other)) }
{
    let name = Vec::from_slice(alloc, name)?;
    Ok(names.insert(name)?)
}

/// The defines without each whose name stands again behind it.
pub fn keep_last(alloc: Global, defines: Items<Define>) -> Mem<Items<Define>>
    ensures { IfOk result (λ kept. kept ≡ spec.last_defines defines) }
{
    let mut left = defines;
    let mut names = BTreeSet::new(alloc);
    let mut kept = Vec::new(alloc);
    while let Some(define) = left.pop() {
        if is_new(alloc, define.name.as_slice(), &mut names)? {
            kept.push(define)?;
        }
    }
    kept.reverse();
    Ok(Items::from_vec(kept))
}
