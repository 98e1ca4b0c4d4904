//! What constants and string literals stand for.

use ct_base::Mem;
use ct_show_rows::{Row, push_escaped};
use ct_token::{Literal, character_count, characters, integer};
use std::alloc::Global;

/// Appends the value of an integer constant and what it says of its type.
fn push_literal(alloc: Global, literal: Literal, out: &mut String) -> Mem<()> {
    let value = format!(in alloc; "{}", literal.value)?;
    out.push_str(value.as_str())?;
    if literal.decimal {
        out.push_str(" decimal")?;
    }
    if literal.unsigned {
        out.push_str(" unsigned")?;
    }
    for _ in 0..literal.longs {
        out.push_str(" long")?;
    }
    Ok(())
}

fn push_none(out: &mut String) -> Mem<()> {
    Ok(out.push_str("none")?)
}

fn push_integer(alloc: Global, text: &[u8], out: &mut String) -> Mem<()> {
    match integer(text) {
        Some(literal) => push_literal(alloc, literal, out),
        None => push_none(out),
    }
}

fn push_characters(alloc: Global, text: &[u8], out: &mut String) -> Mem<()> {
    let Some(bytes) = characters(alloc, text)? else {
        return push_none(out);
    };
    out.push('<')?;
    push_escaped(bytes.as_slice(), out)?;
    out.push('>')?;
    Ok(())
}

fn push_count(alloc: Global, text: &[u8], out: &mut String) -> Mem<()> {
    match character_count(text) {
        Some(count) => {
            let count = format!(in alloc; "{count}")?;
            Ok(out.push_str(count.as_str())?)
        }
        None => push_none(out),
    }
}

/// A text without the new-line at its end.
fn without_line(text: &[u8]) -> &[u8] {
    match text.split_last() {
        Some((b'\n', before)) => before,
        _ => text,
    }
}

/// Appends what the text of a row stands for: by its option the value of an `integer`, the bytes of
/// `characters` between `<` and `>`, or the `count` of those bytes.
pub fn constant_outcome(alloc: Global, row: &Row, out: &mut String) -> Mem<()> {
    let text = row.input(alloc)?;
    let text = without_line(text.as_slice());
    if row.has("integer") {
        return push_integer(alloc, text, out);
    }
    if row.has("count") {
        return push_count(alloc, text, out);
    }
    push_characters(alloc, text, out)
}
