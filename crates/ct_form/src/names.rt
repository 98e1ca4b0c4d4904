//! What names mean: variables in scope and functions.

ghost use Rattle.std.specs.Prelude.{◌≡◌, IfOk};
ghost use Rattle.std.specs.List.{list_any};
ghost use Rattle.std.specs.Option.{option_map};
ghost use Rattle.ct_form.specs.Names.{callee as callee_of, is_declared as declared, is_signed, variable_number as place_of, signature_named, type_of as function_type};

use ct_base::{Bytes, Items, Mem};
use ct_ctype::{CType, FunctionType, IntKind};
use std::alloc::Global;

/// A declaration of a variable in a scope: its name, and its number among the variables of the
/// function.
#[derive(Debug, Drop)]
pub struct Binding {
    pub name: Bytes,
    pub number: u32,
}

/// A function by what a call of it needs: its name, whether it gives an `int` or is `void`, and
/// how many parameters of type `int` it has.
#[derive(Debug, Drop)]
pub struct Signature {
    pub name: Bytes,
    pub gives_value: bool,
    pub parameters: u32,
}

/// The number of the variable of a name, by the newest declaration of the scope.
pub fn number_of(scope: &[Binding], name: &[u8]) -> Option<u32>
    ensures { result ≡ place_of scope.now name.now }
{
    scope
        .iter()
        .rev()
        .find(|binding| binding.name.as_slice() == name)
        .map(|binding| binding.number)
}

/// Whether these declarations have the name.
pub fn is_declared(own: &[Binding], name: &[u8]) -> bool
    ensures { result ≡ declared own.now name.now }
{
    own.iter().any(|binding| binding.name.as_slice() == name)
}

/// Whether one of these functions has the name.
pub fn has_name(signatures: &[Signature], name: &[u8]) -> bool
    ensures { result ≡ list_any (is_signed name.now) signatures.now }
{
    signatures
        .iter()
        .any(|signature| signature.name.as_slice() == name)
}

/// The function of a name.
fn named<'a>(signatures: &'a [Signature], name: &[u8]) -> Option<&'a Signature>
    ensures { option_map (λ found. found.now) result ≡ signature_named signatures.now name.now }
{
    signatures
        .iter()
        .find(|signature| signature.name.as_slice() == name)
}

/// The function that a call by this name calls. A variable in scope hides a function of its name.
pub fn callee<'a>(
    signatures: &'a [Signature],
    scope: &[Binding],
    name: &[u8],
) -> Option<&'a Signature>
    ensures { option_map (λ found. found.now) result ≡ callee_of signatures.now scope.now name.now }
{
    match number_of(scope, name) {
        Some(_) => None,
        None => named(signatures, name),
    }
}

/// The type of a function.
pub fn type_of(alloc: Global, signature: &Signature) -> Mem<FunctionType>
    ensures { IfOk result (λ kind. kind ≡ function_type signature.now) }
{
    let mut parameters = Items::new(alloc);
    for _parameter in 0..signature.parameters {
        parameters.push(CType::Int(IntKind::Int))?;
    }
    let result = if signature.gives_value {
        CType::Int(IntKind::Int)
    } else {
        CType::Void
    };
    Ok(FunctionType {
        result,
        parameters,
        variadic: false,
    })
}
