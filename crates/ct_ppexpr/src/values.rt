//! Values of expressions (C11 6.10.1p4).

ghost use Rattle.std.specs.Prelude.{◌≡◌, IsFalse, false, if◌then◌else◌};
ghost use Rattle.ct_ctype.specs.Conversion.{converted};
ghost use Rattle.ct_ctype.specs.Operation.{is_shift};
ghost use Rattle.ct_ctype.specs.Ranges.{InRange};
ghost use Rattle.ct_ppexpr.specs.Values as spec;

use crate::words::Infix;
use ct_base::{BinaryOp, FaultKind, UnaryOp};
use ct_ctype::{IntKind, binary, common, convert, unary};
use ct_token::Literal;

/// Why an expression has no number.
#[derive(Clone, Copy, Debug, PartialEq, Eq)]
pub(crate) enum Fault {
    DivideByZero,
    Overflow,
    Shift,
    /// A comma that is evaluated.
    Comma,
}

/// The number of an expression, or the first fault of its parts that are evaluated.
pub(crate) type Evaluated = Result<i128, Fault>;

/// The value of an expression: whether its type is that of the greatest unsigned integers or of the
/// greatest signed ones, and what became of its number.
#[derive(Clone, Copy, Debug, PartialEq, Eq)]
pub(crate) struct Value {
    pub unsigned: bool,
    pub outcome: Evaluated,
}

/// A value of the signed type.
pub(crate) fn signed(number: i128) -> Value
    ensures { result ≡ spec.value false (Ok number) }
{
    Value {
        unsigned: false,
        outcome: Ok(number),
    }
}

fn kind_of(unsigned: bool) -> IntKind
    ensures { result ≡ spec.kind_of unsigned }
{
    if unsigned {
        IntKind::UnsignedLongLong
    } else {
        IntKind::LongLong
    }
}

fn outcome_of(result_of: Result<i128, FaultKind>) -> Evaluated
    ensures { result ≡ spec.outcome_of result_of }
{
    match result_of {
        Ok(number) => Ok(number),
        Err(FaultKind::DivideByZero) => Err(Fault::DivideByZero),
        Err(FaultKind::ShiftRange) => Err(Fault::Shift),
        Err(_) => Err(Fault::Overflow),
    }
}

fn is_comparison(op: BinaryOp) -> bool
    ensures { result ≡ spec.is_comparison op }
{
    matches!(
        op,
        BinaryOp::Less
            | BinaryOp::Greater
            | BinaryOp::LessEqual
            | BinaryOp::GreaterEqual
            | BinaryOp::Equal
            | BinaryOp::NotEqual
    )
}

fn is_shift(op: BinaryOp) -> bool
    ensures { result ≡ is_shift op }
{
    matches!(op, BinaryOp::ShiftLeft | BinaryOp::ShiftRight)
}

/// The type in which an operator computes.
fn kind_for(op: BinaryOp, left: bool, right: bool) -> IntKind
    ensures { result ≡ spec.kind_for op left right }
{
    if is_shift(op) {
        kind_of(left)
    } else {
        common(kind_of(left), kind_of(right))
    }
}

/// The right operand in the type of its operator, but that the count of a shift stays as it is.
fn right_operand(op: BinaryOp, kind: IntKind, number: i128) -> i128
    ensures value { result ≡ (if is_shift op then number else converted number kind) }
    ensures in_range { IsFalse (is_shift op) → InRange kind result }
{
    if is_shift(op) {
        number
    } else {
        convert(number, kind)
    }
}

fn binary_outcome(op: BinaryOp, kind: IntKind, left: Evaluated, right: Evaluated) -> Evaluated
    ensures { result ≡ spec.binary_outcome op kind left right }
{
    let Ok(a) = left else { return left };
    let Ok(b) = right else { return right };
    outcome_of(binary(op, kind, convert(a, kind), right_operand(op, kind, b)))
}

fn binary_value(op: BinaryOp, left: Value, right: Value) -> Value
    ensures { result ≡ spec.binary_value op left right }
{
    let kind = kind_for(op, left.unsigned, right.unsigned);
    Value {
        unsigned: !(is_comparison(op) || kind.is_signed()),
        outcome: binary_outcome(op, kind, left.outcome, right.outcome),
    }
}

fn is_not(op: UnaryOp) -> bool
    ensures { result ≡ spec.is_not op }
{
    matches!(op, UnaryOp::Not)
}

fn unary_outcome(op: UnaryOp, kind: IntKind, operand: Evaluated) -> Evaluated
    ensures { result ≡ spec.unary_outcome op kind operand }
{
    let Ok(a) = operand else { return operand };
    outcome_of(unary(op, kind, convert(a, kind)))
}

pub(crate) fn unary_value(op: UnaryOp, operand: Value) -> Value
    ensures { result ≡ spec.unary_value op operand }
{
    Value {
        unsigned: operand.unsigned && !is_not(op),
        outcome: unary_outcome(op, kind_of(operand.unsigned), operand.outcome),
    }
}

/// 1 for every number but 0.
fn truth(operand: Evaluated) -> Evaluated
    ensures { result ≡ spec.truth_outcome operand }
{
    let Ok(number) = operand else { return operand };
    Ok(convert(number, IntKind::Bool))
}

/// `&&`: the right operand is evaluated only where the left one is not 0.
fn both(left: Evaluated, right: Evaluated) -> Evaluated
    ensures { result ≡ spec.both_outcome left right }
{
    match left {
        Ok(0) => Ok(0),
        Ok(_) => truth(right),
        Err(_) => left,
    }
}

/// `||`: the right operand is evaluated only where the left one is 0.
fn either(left: Evaluated, right: Evaluated) -> Evaluated
    ensures { result ≡ spec.either_outcome left right }
{
    match left {
        Ok(0) => truth(right),
        Ok(_) => Ok(1),
        Err(_) => left,
    }
}

pub(crate) fn infix_value(op: Infix, left: Value, right: Value) -> Value
    ensures { result ≡ spec.infix_value op left right }
{
    match op {
        Infix::Compute(op) => binary_value(op, left, right),
        Infix::Both => Value {
            unsigned: false,
            outcome: both(left.outcome, right.outcome),
        },
        Infix::Either => Value {
            unsigned: false,
            outcome: either(left.outcome, right.outcome),
        },
        Infix::Comma => Value {
            unsigned: right.unsigned,
            outcome: Err(Fault::Comma),
        },
    }
}

fn converted(kind: IntKind, operand: Evaluated) -> Evaluated
    ensures { result ≡ spec.converted_outcome kind operand }
{
    let Ok(number) = operand else { return operand };
    Ok(convert(number, kind))
}

/// One of the two, in their common type.
fn choice(kind: IntKind, test: Evaluated, first: Evaluated, second: Evaluated) -> Evaluated
    ensures { result ≡ spec.choice_outcome kind test first second }
{
    match test {
        Ok(0) => converted(kind, second),
        Ok(_) => converted(kind, first),
        Err(_) => test,
    }
}

pub(crate) fn choice_value(test: Value, first: Value, second: Value) -> Value
    ensures { result ≡ spec.choice_value test first second }
{
    let kind = common(kind_of(first.unsigned), kind_of(second.unsigned));
    Value {
        unsigned: !kind.is_signed(),
        outcome: choice(kind, test.outcome, first.outcome, second.outcome),
    }
}

/// The value of an integer constant.
pub(crate) fn literal_value(literal: Literal) -> Value
    ensures { result ≡ spec.literal_value literal }
{
    Value {
        unsigned: literal.unsigned || literal.value > i64::MAX as u64,
        outcome: Ok(i128::from(literal.value)),
    }
}

/// The value of a character constant of one byte, which is that of its `char`.
pub(crate) fn character_value(byte: u8) -> Value
    ensures { result ≡ spec.character_value byte }
{
    signed(convert(i128::from(byte), IntKind::Char))
}
