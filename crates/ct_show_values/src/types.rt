//! Types by words.

use crate::names::kind_named;
use ct_base::{Bytes, Items, Mem};
use ct_ctype::{CType, FunctionType, IntKind, Member};
use sqlite_items::Boxed;
use std::alloc::Global;

/// The type that a word names: a kind, `pointer`, `void`, `function` or a struct by its number, as `struct0`,
/// and behind it the lengths of arrays, as in `int*2*3` for three arrays of two, or `*?` for no length.
pub fn type_named(alloc: Global, word: &str) -> Mem<Option<CType>> {
    let mut parts = word.split('*');
    let Some(first) = parts.next() else {
        return Ok(None);
    };
    let Some(mut kind) = element_named(alloc, first)? else {
        return Ok(None);
    };
    for part in parts {
        let length = part.parse::<u32>().ok();
        if length.is_none() && part != "?" {
            return Ok(None);
        }
        kind = CType::Array(Boxed::new(alloc, kind)?, length);
    }
    Ok(Some(kind))
}

/// The type that a word without `*` names.
fn element_named(alloc: Global, word: &str) -> Mem<Option<CType>> {
    if let Some(number) = word.strip_prefix("struct") {
        return Ok(number.parse::<u32>().ok().map(CType::Struct));
    }
    match word {
        "pointer" => Ok(Some(CType::Pointer(Boxed::new(alloc, CType::Void)?, false))),
        "void" => Ok(Some(CType::Void)),
        "function" => Ok(Some(CType::Function(Boxed::new(alloc, procedure(alloc))?))),
        _ => Ok(kind_named(word).map(CType::Int)),
    }
}

/// `int (void)`
fn procedure(alloc: Global) -> FunctionType {
    FunctionType {
        result: CType::Int(IntKind::Int),
        parameters: Items::new(alloc),
        variadic: false,
    }
}

/// The members that words name; the name of each is its place.
pub fn members_named(alloc: Global, words: &[&str]) -> Mem<Option<Vec<Member>>> {
    let mut members = Vec::new(alloc);
    for (place, word) in words.iter().enumerate() {
        let Some(kind) = type_named(alloc, word)? else {
            return Ok(None);
        };
        let name = format!(in alloc; "{place}")?;
        members.push(Member {
            name: Bytes::from_slice(alloc, name.as_bytes())?,
            kind,
            constant: false,
            offset: 0,
        })?;
    }
    Ok(Some(members))
}
