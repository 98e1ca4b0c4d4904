//! Values as operands. `MissingReturn` is for a function that ended without the value that is
//! used (C11 6.9.1p12); typed trees give values of the right types.

ghost use Rattle.std.specs.Prelude.{◌≡◌, Ok, Err, IfOk, IsFalse, MatchResult};
ghost use Rattle.ct_ctype.specs.Ranges.{InRange};
ghost use Rattle.ct_ctype.specs.Operation.{is_shift};
ghost use Rattle.ct_core.specs.declared.values.Value.TheVariants.{Object};
ghost use Rattle.ct_meaning.specs.Rules as spec;

use ct_base::{BinaryOp, FaultKind};
use ct_core::{Pointer, Scalar, Value};
use ct_ctype::{IntKind, binary, convert};
use ct_memory::Memory;

/// The number of this kind that a value is.
pub fn number_in(k: IntKind, v: &Value) -> Result<i128, FaultKind>
    ensures value { result ≡ spec.number_in k v.now }
    ensures in_range { IfOk result (InRange k) }
{
    match v {
        Value::Int(z) => {
            if k.holds(*z) {
                Ok(*z)
            } else {
                Err(FaultKind::MissingReturn)
            }
        }
        Value::Void | Value::Null | Value::Object(_) | Value::Function(_) | Value::Struct(_) => Err(
            FaultKind::MissingReturn,
        ),
    }
}

/// The number that a value is.
pub fn any_number_in(v: &Value) -> Result<i128, FaultKind>
    ensures { result ≡ spec.any_number_in v.now }
{
    match v {
        Value::Int(z) => Ok(*z),
        Value::Void | Value::Null | Value::Object(_) | Value::Function(_) | Value::Struct(_) => Err(
            FaultKind::MissingReturn,
        ),
    }
}

/// The place of an object to which a value points.
pub fn pointer_in(v: &Value) -> Result<Pointer, FaultKind>
    ensures { result ≡ spec.pointer_in v.now }
{
    match v {
        Value::Object(p) => Ok(*p),
        Value::Null => Err(FaultKind::NullPointer),
        Value::Function(_) => Err(FaultKind::OutOfBounds),
        Value::Void | Value::Int(_) | Value::Struct(_) => Err(FaultKind::MissingReturn),
    }
}

/// Whether a value compares unequal to 0 (C11 6.8.4.1p2, 6.8.5p4).
pub fn truth_in(v: &Value) -> Result<bool, FaultKind>
    ensures { result ≡ spec.truth_in v.now }
{
    match v {
        Value::Int(z) => Ok(*z != 0),
        Value::Null => Ok(false),
        Value::Object(_) | Value::Function(_) => Ok(true),
        Value::Void | Value::Struct(_) => Err(FaultKind::MissingReturn),
    }
}

/// A value that is used.
pub fn used(v: Value) -> Result<Value, FaultKind>
    ensures { result ≡ spec.used v }
{
    match v {
        Value::Void => Err(FaultKind::MissingReturn),
        Value::Int(z) => Ok(Value::Int(z)),
        Value::Null => Ok(Value::Null),
        Value::Object(p) => Ok(Value::Object(p)),
        Value::Function(n) => Ok(Value::Function(n)),
        Value::Struct(cells) => Ok(Value::Struct(cells)),
    }
}

/// The right operand of an operator. The count of a shift is of any kind.
fn right_number(op: BinaryOp, k: IntKind, v: &Value) -> Result<i128, FaultKind>
    ensures value { result ≡ spec.right_number op k v.now }
    ensures in_range { IsFalse (is_shift op) → IfOk result (InRange k) }
{
    match op {
        BinaryOp::ShiftLeft | BinaryOp::ShiftRight => any_number_in(v),
        BinaryOp::Multiply
        | BinaryOp::Divide
        | BinaryOp::Remainder
        | BinaryOp::Add
        | BinaryOp::Subtract
        | BinaryOp::Less
        | BinaryOp::Greater
        | BinaryOp::LessEqual
        | BinaryOp::GreaterEqual
        | BinaryOp::Equal
        | BinaryOp::NotEqual
        | BinaryOp::And
        | BinaryOp::Xor
        | BinaryOp::Or => number_in(k, v),
    }
}

/// The value of an operator of two values.
#[tactic(auto, unfolding(crate::specs::Rules::binary_value))]
pub fn binary_value(op: BinaryOp, k: IntKind, x: &Value, y: &Value) -> Result<Value, FaultKind>
    ensures { result ≡ spec.binary_value op k x.now y.now }
{
    let a = number_in(k, x)?;
    let b = right_number(op, k, y)?;
    Ok(Value::Int(binary(op, k, a, b)?))
}

/// The value of a conversion.
#[tactic(auto, unfolding(crate::specs::Rules::converted_value))]
pub fn converted_value(k: IntKind, v: &Value) -> Result<Value, FaultKind>
    ensures { result ≡ spec.converted_value k v.now }
{
    Ok(Value::Int(convert(any_number_in(v)?, k)))
}

/// What the object holds to which a value points.
pub fn value_from(address: &Value, t: Scalar, memory: &Memory) -> Result<Value, FaultKind>
    ensures { result ≡ spec.value_from address.now t memory.now }
{
    memory.load(pointer_in(address)?, t)
}

/// Stores a value where another one points, and gives it as it was stored.
pub fn store(address: &Value, t: Scalar, v: &Value, memory: &mut Memory) -> Result<Value, FaultKind>
    ensures { MatchResult result (λ x. spec.stored_value address.now t v.now memory.old ≡ Ok (x, memory.new)) (λ fault. (spec.stored_value address.now t v.now memory.old ≡ Err fault) × (memory.new ≡ memory.old)) }
{
    let p = pointer_in(address)?;
    let Scalar::Int(k) = t;
    let z = number_in(k, v)?;
    memory.store(p, t, Value::Int(z))?;
    Ok(Value::Int(z))
}

/// Stores the first value of an object.
pub fn initialise(p: Pointer, t: Scalar, v: &Value, memory: &mut Memory) -> Result<Value, FaultKind>
    ensures { MatchResult result (λ x. spec.first_value (Object p) t v.now memory.old ≡ Ok (x, memory.new)) (λ fault. (spec.first_value (Object p) t v.now memory.old ≡ Err fault) × (memory.new ≡ memory.old)) }
{
    let Scalar::Int(k) = t;
    let z = number_in(k, v)?;
    memory.initialise(p, t, Value::Int(z))?;
    Ok(Value::Int(z))
}
