//! What integers of C come to.

ghost use Rattle.std.specs.Prelude.{◌≡◌};
ghost use Rattle.ct_ctype.specs.Operation as spec;

use crate::names::{binary_named, fault_name, kind_named, name_of, unary_named};
use ct_base::{BinaryOp, FaultKind, Mem, decimal};
use ct_ctype::{IntKind, binary, common, convert, promote, unary};
use ct_show_rows::{Row, push_escaped};
use std::alloc::Global;

/// Appends the answer to the question that is the name of a row: `convert NUMBER KIND`, `promote KIND`,
/// `common KIND KIND`, `binary OPERATOR KIND NUMBER NUMBER` or `unary OPERATOR KIND NUMBER`. It is `no answer`
/// for any other name, and for a number outside the kind of its operand.
pub fn integer_outcome(alloc: Global, row: &Row, out: &mut String) -> Mem<()> {
    let words: Vec<&str> = row.name.as_str().split_whitespace().collect(alloc)?;
    match words.as_slice() {
        ["convert", number, kind] => push_converted(alloc, number, kind, out),
        ["promote", kind] => push_promoted(kind, out),
        ["common", first, second] => push_common(first, second, out),
        ["binary", op, kind, left, right] => push_binary(alloc, op, kind, left, right, out),
        ["unary", op, kind, number] => push_unary(alloc, op, kind, number, out),
        _ => push_none(out),
    }
}

/// Appends a text and behind it the decimal digits of the number that is the name of a row.
pub fn digit_outcome(alloc: Global, row: &Row, out: &mut String) -> Mem<()> {
    let Ok(number) = row.name.as_str().parse::<i128>() else {
        return push_none(out);
    };
    let mut text = Vec::from_slice(alloc, "n = ".as_bytes())?;
    decimal(alloc, number, &mut text)?;
    push_escaped(text.as_slice(), out)
}

/// No answer.
fn push_none(out: &mut String) -> Mem<()> {
    out.push_str("no answer")?;
    Ok(())
}

fn push_promoted(kind: &str, out: &mut String) -> Mem<()> {
    match kind_named(kind) {
        Some(kind) => Ok(out.push_str(name_of(promote(kind)))?),
        None => push_none(out),
    }
}

fn push_number(alloc: Global, number: i128, out: &mut String) -> Mem<()> {
    let text = format!(in alloc; "{number}")?;
    out.push_str(text.as_str())?;
    Ok(())
}

fn push_result(alloc: Global, found: Result<i128, FaultKind>, out: &mut String) -> Mem<()> {
    match found {
        Ok(number) => push_number(alloc, number, out),
        Err(fault) => Ok(out.push_str(fault_name(fault))?),
    }
}

fn push_converted(alloc: Global, number: &str, kind: &str, out: &mut String) -> Mem<()> {
    match (number.parse::<i128>(), kind_named(kind)) {
        (Ok(number), Some(kind)) => push_number(alloc, convert(number, kind), out),
        _ => push_none(out),
    }
}

fn push_common(first: &str, second: &str, out: &mut String) -> Mem<()> {
    match (kind_named(first), kind_named(second)) {
        (Some(first), Some(second)) => Ok(out.push_str(name_of(common(first, second)))?),
        _ => push_none(out),
    }
}

fn is_shift(op: BinaryOp) -> bool
    ensures { result ≡ spec.is_shift op }
{
    match op {
        BinaryOp::ShiftLeft | BinaryOp::ShiftRight => true,
        _ => false,
    }
}

fn push_binary(
    alloc: Global,
    op: &str,
    kind: &str,
    left: &str,
    right: &str,
    out: &mut String,
) -> Mem<()> {
    let (Some(op), Some(kind)) = (binary_named(op), kind_named(kind)) else {
        return push_none(out);
    };
    let (Ok(left), Ok(right)) = (left.parse::<i128>(), right.parse::<i128>()) else {
        return push_none(out);
    };
    if !kind.holds(left) {
        return push_none(out);
    }
    if is_shift(op) {
        return push_result(alloc, binary(op, kind, left, right), out);
    }
    if kind.holds(right) {
        return push_result(alloc, binary(op, kind, left, right), out);
    }
    push_none(out)
}

fn push_unary(alloc: Global, op: &str, kind: &str, number: &str, out: &mut String) -> Mem<()> {
    let (Some(op), Some(kind)) = (unary_named(op), kind_named(kind)) else {
        return push_none(out);
    };
    match number.parse::<i128>() {
        Ok(number) if kind.holds(number) => push_result(alloc, unary(op, kind, number), out),
        _ => push_none(out),
    }
}
