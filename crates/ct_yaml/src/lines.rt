//! What stands on a line.

ghost use Rattle.std.specs.Prelude.{◌≡◌, [], ◌∷◌, ◌++◌, false, OnOk};
ghost use Rattle.ct_yaml.specs.Gives.{Gives};
ghost use Rattle.ct_yaml.specs.Reading as reading;

use crate::chars::{Unspelled, has_tab_indent, is_end, is_gap, is_rest, skip};
use crate::mark::{Inline, Mark};
use crate::scalars::scalar;
use crate::values::inline;
use ct_base::{Bytes, Fail, Mem, Out, first_of};
use std::alloc::Global;

/// A value, where nothing else stands behind it.
fn ended(value: Inline, rest: &[u8]) -> Out<Mark, Unspelled>
    ensures { Gives (λ mark. mark ∷ []) result (reading.ended value rest.now) }
{
    if !is_end(rest) {
        return Err(Fail::Fault(Unspelled));
    }
    Ok(Mark::Value(value))
}

/// A value that ends the line.
#[tactic(auto, unfolding(crate::specs::Reading::value_at))]
fn last_value(alloc: Global, bytes: &[u8]) -> Out<Mark, Unspelled>
    ensures { Gives (λ mark. mark ∷ []) result (reading.value_at bytes.now) }
{
    let (value, rest) = inline(alloc, bytes)?;
    ended(value, rest)
}

/// What stands behind a key's colon: a value, or nothing.
#[tactic(auto, unfolding(crate::specs::Reading::key_rest))]
fn key_rest(alloc: Global, bytes: &[u8]) -> Out<Option<Mark>, Unspelled>
    ensures { Gives reading.at_most_one result (reading.key_rest bytes.now) }
{
    if is_end(bytes) {
        return Ok(None);
    }
    let value = last_value(alloc, skip(bytes))?;
    Ok(Some(value))
}

/// A scalar as a key, where a colon stands behind it, or else as a value.
fn behind_scalar(
    alloc: Global,
    column: usize,
    text: Bytes,
    rest: &[u8],
) -> Out<(Mark, Option<Mark>), Unspelled>
    ensures { Gives reading.one_or_two result (reading.behind_scalar column text rest.now) }
{
    let Some((byte, more)) = first_of(rest) else {
        return Ok((Mark::Value(Inline::Scalar(text)), None));
    };
    if byte == b':' && is_gap(more) {
        let value = key_rest(alloc, more)?;
        return Ok((Mark::Key { column, key: text }, value));
    }
    let mark = ended(Inline::Scalar(text), rest)?;
    Ok((mark, None))
}

/// A value, or an entry's key and what stands behind it.
#[tactic(auto, unfolding(crate::specs::Reading::last_at))]
fn last(alloc: Global, column: usize, bytes: &[u8]) -> Out<(Mark, Option<Mark>), Unspelled>
    ensures { Gives reading.one_or_two result (reading.last_at column bytes.now) }
{
    let Some((byte, _)) = first_of(bytes) else {
        return Err(Fail::Fault(Unspelled));
    };
    if byte == b'[' || byte == b'{' {
        let value = last_value(alloc, bytes)?;
        return Ok((value, None));
    }
    let (text, rest) = scalar(alloc, bytes)?;
    behind_scalar(alloc, column, text, rest)
}

fn push_last(marks: &mut Vec<Mark>, last: (Mark, Option<Mark>)) -> Mem<()>
    ensures { OnOk result (marks.new.items ≡ marks.old.items ++ reading.one_or_two last) }
{
    let (mark, value) = last;
    marks.push(mark)?;
    match value {
        None => Ok(()),
        Some(value) => Ok(marks.push(value)?),
    }
}

/// The marks of a line, whatever begins it.
#[tactic(auto, using(crate::proofs::Onto::onto_rules))]
fn all_marks(alloc: Global, line: &[u8]) -> Out<Vec<Mark>, Unspelled>
    ensures { Gives (λ marks. marks.items) result (reading.line_from false 0 line.now) }
{
    let mut marks = Vec::new(alloc);
    let mut column = 0;
    let mut spaced = false;
    let mut rest = line;
    while let Some((byte, more)) = first_of(rest) {
        if byte == b' ' {
            spaced = true;
        } else if is_rest(spaced, rest) {
            return Ok(marks);
        } else if byte == b'-' && is_gap(more) {
            marks.push(Mark::Dash { column })?;
            spaced = false;
        } else {
            let found = last(alloc, column, rest)?;
            push_last(&mut marks, found)?;
            return Ok(marks);
        }
        rest = more;
        column += 1;
    }
    Ok(marks)
}

/// Whether no value begins the line.
fn is_opened(marks: &[Mark]) -> bool
    ensures { result ≡ reading.is_opened marks.now }
{
    match marks.first() {
        Some(Mark::Value(_)) => false,
        _ => true,
    }
}

/// The marks of a line, which is indented by spaces.
#[tactic(auto, unfolding(crate::specs::Reading::line_marks))]
pub fn marks(alloc: Global, line: &[u8]) -> Out<Vec<Mark>, Unspelled>
    ensures { Gives (λ marks. marks.items) result (reading.line_marks line.now) }
{
    if has_tab_indent(line) {
        return Err(Fail::Fault(Unspelled));
    }
    let marks = all_marks(alloc, line)?;
    if !is_opened(&marks) {
        return Err(Fail::Fault(Unspelled));
    }
    Ok(marks)
}
