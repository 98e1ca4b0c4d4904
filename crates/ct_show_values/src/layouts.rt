//! Layouts of structs.

use crate::types::{members_named, type_named};
use ct_base::Mem;
use ct_ctype::{CType, Structs, align_of, offset_of, size_of};
use ct_show_rows::Row;
use std::alloc::Global;

/// How many structs a row may have.
const MOST_STRUCTS: usize = 1000;

/// Appends what the steps come to that are the name of a row, with `;` between two. A step is
/// `layout MEMBER ..`, which adds a struct and shows its size, its alignment and the offsets of its members;
/// `struct MEMBER ..`, which adds a struct; `open`, which adds a struct without members; `into STRUCT MEMBER ..`,
/// which gives a struct members; `size TYPE`; `offset STRUCT PLACE`; or `count`.
pub fn layout_outcome(alloc: Global, row: &Row, out: &mut String) -> Mem<()> {
    let words: Vec<&str> = row.name.as_str().split_whitespace().collect(alloc)?;
    let mut structs = Structs::new(alloc);
    for step in words.split(|word| *word == ";") {
        take_step(alloc, step, &mut structs, out)?;
    }
    Ok(())
}

fn take_step(alloc: Global, step: &[&str], structs: &mut Structs, out: &mut String) -> Mem<()> {
    match step {
        ["layout", members @ ..] => push_layout(alloc, members, structs, out),
        ["struct", members @ ..] => add_struct(alloc, members, structs, out),
        ["open"] => add_open(structs, out),
        ["into", which, members @ ..] => fill(alloc, which, members, structs, out),
        ["size", word] => push_size_named(alloc, word, structs, out),
        ["offset", which, place] => push_offset_named(alloc, which, place, structs, out),
        ["count"] => push_count(alloc, structs, out),
        _ => push_word("no answer", out),
    }
}

fn push_word(word: &str, out: &mut String) -> Mem<()> {
    out.push_str(word)?;
    out.push(' ')?;
    Ok(())
}

fn push_number(alloc: Global, number: u64, out: &mut String) -> Mem<()> {
    let text = format!(in alloc; "{number} ")?;
    out.push_str(text.as_str())?;
    Ok(())
}

fn push_count(alloc: Global, structs: &Structs, out: &mut String) -> Mem<()> {
    let text = format!(in alloc; "{} ", structs.count())?;
    out.push_str(text.as_str())?;
    Ok(())
}

fn push_optional(alloc: Global, number: Option<u64>, out: &mut String) -> Mem<()> {
    match number {
        Some(number) => push_number(alloc, number, out),
        None => push_word("none", out),
    }
}

fn push_extent(alloc: Global, kind: &CType, structs: &Structs, out: &mut String) -> Mem<()> {
    push_optional(alloc, size_of(kind, structs), out)?;
    push_optional(alloc, align_of(kind, structs), out)
}

/// Adds a struct without members, and gives its number.
fn declare(structs: &mut Structs) -> Mem<Option<u32>> {
    if structs.count() >= MOST_STRUCTS {
        return Ok(None);
    }
    Ok(Some(structs.declare()?))
}

fn add_open(structs: &mut Structs, out: &mut String) -> Mem<()> {
    match declare(structs)? {
        Some(_) => Ok(()),
        None => push_word("no answer", out),
    }
}

/// Gives a struct members, and says whether it took them.
fn complete(alloc: Global, which: u32, members: &[&str], structs: &mut Structs) -> Mem<bool> {
    match members_named(alloc, members)? {
        Some(members) => Ok(structs.complete(which, members)),
        None => Ok(false),
    }
}

/// Adds a struct with members, and gives its number.
fn declare_with(alloc: Global, members: &[&str], structs: &mut Structs) -> Mem<Option<u32>> {
    let Some(which) = declare(structs)? else {
        return Ok(None);
    };
    if complete(alloc, which, members, structs)? {
        return Ok(Some(which));
    }
    Ok(None)
}

fn add_struct(alloc: Global, members: &[&str], structs: &mut Structs, out: &mut String) -> Mem<()> {
    match declare_with(alloc, members, structs)? {
        Some(_) => Ok(()),
        None => push_word("no answer", out),
    }
}

fn push_layout(
    alloc: Global,
    members: &[&str],
    structs: &mut Structs,
    out: &mut String,
) -> Mem<()> {
    let Some(which) = declare_with(alloc, members, structs)? else {
        return push_word("no answer", out);
    };
    push_extent(alloc, &CType::Struct(which), structs, out)?;
    push_offsets(alloc, which, members.len(), structs, out)
}

fn push_offsets(
    alloc: Global,
    which: u32,
    count: usize,
    structs: &Structs,
    out: &mut String,
) -> Mem<()> {
    for place in 0..count {
        let name = format!(in alloc; "{place}")?;
        push_optional(alloc, offset_of(structs, which, name.as_bytes()), out)?;
    }
    Ok(())
}

fn fill(
    alloc: Global,
    which: &str,
    members: &[&str],
    structs: &mut Structs,
    out: &mut String,
) -> Mem<()> {
    let Ok(which) = which.parse::<u32>() else {
        return push_word("no answer", out);
    };
    if complete(alloc, which, members, structs)? {
        return push_word("taken", out);
    }
    push_word("refused", out)
}

fn push_size_named(alloc: Global, word: &str, structs: &Structs, out: &mut String) -> Mem<()> {
    match type_named(alloc, word)? {
        Some(kind) => push_extent(alloc, &kind, structs, out),
        None => push_word("no answer", out),
    }
}

fn push_offset_named(
    alloc: Global,
    which: &str,
    place: &str,
    structs: &Structs,
    out: &mut String,
) -> Mem<()> {
    match which.parse::<u32>() {
        Ok(which) => push_optional(alloc, offset_of(structs, which, place.as_bytes()), out),
        Err(_) => push_word("no answer", out),
    }
}
