//! Operators of integers (C11 6.5.3.3 and 6.5.5 to 6.5.12).

ghost use Rattle.std.specs.Prelude.{◌≡◌, ◌≢◌, ◌<◌, ◌^◌, ◌+ℤ◌, ◌-ℤ◌, ◌*ℤ◌, ◌≤ℤ◌, ◌<ℤ◌, pos, neg_ℤ, int_div, int_rem, unsigned_abs, IfOk, IsTrue, IsFalse};
ghost use Rattle.std.specs.Int.{int_div_euclid};
ghost use Rattle.ct_ctype.specs.Ranges.{InRange, is_in_range, is_signed, wrapped, width, low_bits as spec_low_bits};
ghost use Rattle.ct_ctype.specs.Operation as spec;

use crate::conversions::{low_bits, number_of, wrap};
use crate::kinds::IntKind;
use ct_base::{BinaryOp, FaultKind, UnaryOp};

/// The result of an operator of two numbers of the kind `k`. The count of a shift may be any
/// number. Results of unsigned kinds wrap (C11 6.2.5p9), quotients are cut towards zero (C11
/// 6.5.5p6), right shifts round down, and comparisons give 1 or 0.
///
/// `SignedOverflow` is a result outside a signed kind (C11 6.5p5), and the quotient and the
/// remainder of the least number by -1. `DivideByZero` is `/` or `%` by 0 (C11 6.5.5p5).
/// `ShiftRange` is a count below 0 or from the width on (C11 6.5.7p3), and a signed left shift
/// of a negative number or to a number outside the kind (C11 6.5.7p4).
#[tactic(auto, unfolding(crate::specs::Operation::binary_result))]
pub fn binary(op: BinaryOp, k: IntKind, left: i128, right: i128) -> Result<i128, FaultKind>
    requires left { InRange k left }
    requires right { IsFalse (spec.is_shift op) → InRange k right }
    ensures value { result ≡ spec.binary_result op k left right }
    ensures in_range { IfOk result (InRange k) }
{
    match op {
        BinaryOp::Multiply => multiply(k, left, right),
        BinaryOp::Divide => divide(k, left, right),
        BinaryOp::Remainder => remainder(k, left, right),
        BinaryOp::Add => add(k, left, right),
        BinaryOp::Subtract => subtract(k, left, right),
        BinaryOp::ShiftLeft => shift_left(k, left, right),
        BinaryOp::ShiftRight => shift_right(k, left, right),
        BinaryOp::Less => Ok(truth(left < right)),
        BinaryOp::Greater => Ok(truth(left > right)),
        BinaryOp::LessEqual => Ok(truth(left <= right)),
        BinaryOp::GreaterEqual => Ok(truth(left >= right)),
        BinaryOp::Equal => Ok(truth(left == right)),
        BinaryOp::NotEqual => Ok(truth(left != right)),
        BinaryOp::And => Ok(number_of(k, low_bits(k, left) & low_bits(k, right))),
        BinaryOp::Xor => Ok(number_of(k, low_bits(k, left) ^ low_bits(k, right))),
        BinaryOp::Or => Ok(number_of(k, low_bits(k, left) | low_bits(k, right))),
    }
}

/// The result of an operator of one number of the kind `k`. `!` gives 1 for 0, and else 0 (C11
/// 6.5.3.3p5). Minus of an unsigned kind wraps (C11 6.2.5p9). `SignedOverflow` is a result outside
/// a signed kind (C11 6.5p5).
#[tactic(auto, unfolding(crate::specs::Operation::unary_result))]
pub fn unary(op: UnaryOp, k: IntKind, v: i128) -> Result<i128, FaultKind>
    requires { InRange k v }
    ensures value { result ≡ spec.unary_result op k v }
    ensures in_range { IfOk result (InRange k) }
{
    match op {
        UnaryOp::Plus => Ok(v),
        UnaryOp::Minus => arithmetic(k, -v),
        UnaryOp::Complement => Ok(number_of(k, k.count() as u128 - 1 - low_bits(k, v))),
        UnaryOp::Not => Ok(truth(v == 0)),
    }
}

/// 1 where the relation holds, else 0.
fn truth(holds: bool) -> i128
    ensures { Ok result ≡ spec.truth holds }
{
    i128::from(holds)
}

/// A result in the kind: of a signed one it must be in the range, of an unsigned one it wraps.
fn arithmetic(k: IntKind, z: i128) -> Result<i128, FaultKind>
    ensures value { result ≡ spec.arithmetic k z }
    ensures in_range { IfOk result (InRange k) }
{
    if !k.is_signed() {
        Ok(wrap(k, z))
    } else if k.holds(z) {
        Ok(z)
    } else {
        Err(FaultKind::SignedOverflow)
    }
}

fn add(k: IntKind, left: i128, right: i128) -> Result<i128, FaultKind>
    requires left { InRange k left }
    requires right { InRange k right }
    ensures value { result ≡ spec.arithmetic k (left +ℤ right) }
    ensures in_range { IfOk result (InRange k) }
{
    arithmetic(k, left + right)
}

fn subtract(k: IntKind, left: i128, right: i128) -> Result<i128, FaultKind>
    requires left { InRange k left }
    requires right { InRange k right }
    ensures value { result ≡ spec.arithmetic k (left -ℤ right) }
    ensures in_range { IfOk result (InRange k) }
{
    arithmetic(k, left - right)
}

fn multiply(k: IntKind, left: i128, right: i128) -> Result<i128, FaultKind>
    requires left { InRange k left }
    requires right { InRange k right }
    ensures value { result ≡ spec.arithmetic k (left *ℤ right) }
    ensures in_range { IfOk result (InRange k) }
{
    if k.is_signed() {
        arithmetic(k, left * right)
    } else {
        let product = left as u128 * right as u128;
        Ok(number_of(k, product % k.count() as u128))
    }
}

fn divide(k: IntKind, left: i128, right: i128) -> Result<i128, FaultKind>
    requires left { InRange k left }
    requires right { InRange k right }
    ensures value { result ≡ spec.divided k left right (int_div left right) }
    ensures in_range { IfOk result (InRange k) }
{
    if right == 0 {
        return Err(FaultKind::DivideByZero);
    }
    let quotient = quotient(k, left, right);
    if k.holds(quotient) {
        Ok(quotient)
    } else {
        Err(FaultKind::SignedOverflow)
    }
}

fn remainder(k: IntKind, left: i128, right: i128) -> Result<i128, FaultKind>
    requires left { InRange k left }
    requires right { InRange k right }
    ensures value { result ≡ spec.divided k left right (int_rem left right) }
    ensures in_range { IfOk result (InRange k) }
{
    if right == 0 {
        return Err(FaultKind::DivideByZero);
    }
    if !k.holds(quotient(k, left, right)) {
        return Err(FaultKind::SignedOverflow);
    }
    Ok(rest(k, left, right))
}

/// The quotient, rounded toward zero.
fn quotient(k: IntKind, left: i128, right: i128) -> i128
    requires left { InRange k left }
    requires right { InRange k right }
    requires nonzero { right ≢ pos 0 }
    ensures { result ≡ int_div left right }
{
    left / right
}

/// The remainder, with the sign of `left`.
fn rest(k: IntKind, left: i128, right: i128) -> i128
    requires left { InRange k left }
    requires right { InRange k right }
    requires nonzero { right ≢ pos 0 }
    ensures value { result ≡ int_rem left right }
    ensures in_range { InRange k result }
{
    left % right
}

fn shift_left(k: IntKind, left: i128, count: i128) -> Result<i128, FaultKind>
    requires { InRange k left }
    ensures value { result ≡ spec.shifted_left k left count }
    ensures in_range { IfOk result (InRange k) }
{
    if !is_count(k, count) {
        return Err(FaultKind::ShiftRange);
    }
    let product = scaled(k, left, count as u32);
    if !k.is_signed() {
        Ok(wrap(k, product))
    } else if left < 0 {
        Err(FaultKind::ShiftRange)
    } else if k.holds(product) {
        Ok(product)
    } else {
        Err(FaultKind::ShiftRange)
    }
}

fn shift_right(k: IntKind, left: i128, count: i128) -> Result<i128, FaultKind>
    requires { InRange k left }
    ensures value { result ≡ spec.shifted_right k left count }
    ensures in_range { IfOk result (InRange k) }
{
    if is_count(k, count) {
        Ok(left.div_euclid(power(count as u32)))
    } else {
        Err(FaultKind::ShiftRange)
    }
}

/// `left` times 2 to a power.
fn scaled(k: IntKind, left: i128, n: u32) -> i128
    requires left { InRange k left }
    requires below { n < 64 }
    ensures { result ≡ left *ℤ pos (2 ^ n) }
{
    left * power(n)
}

/// Whether a shift of the kind may have this count (C11 6.5.7p3).
fn is_count(k: IntKind, count: i128) -> bool
    ensures { result ≡ spec.is_count k count }
{
    0 <= count && count < i128::from(k.width())
}

/// 2 to a power.
fn power(n: u32) -> i128
    requires { n < 64 }
    ensures { result ≡ pos (2 ^ n) }
{
    (1u128 << n) as i128
}
