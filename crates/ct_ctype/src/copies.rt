//! Copies of types, and whether two types are the same.

ghost use Rattle.std.specs.Prelude.{◌≡◌, IfOk, true, Decides};

use crate::types::{CType, FunctionType};
use ct_base::{Items, Mem};
use sqlite_items::Boxed;
use std::alloc::Global;

impl CType {
    /// The same type once more.
    #[cycle(copies)]
    pub fn copy(&self, alloc: Global) -> Mem<CType>
        ensures { IfOk result (λ copy. copy ≡ self.now) }
    {
        match self {
            CType::Void => Ok(CType::Void),
            CType::Int(kind) => Ok(CType::Int(*kind)),
            CType::Pointer(pointee, constant) => {
                let pointee = pointee.get().copy(alloc)?;
                Ok(CType::Pointer(Boxed::new(alloc, pointee)?, *constant))
            }
            CType::Array(element, count) => {
                let element = element.get().copy(alloc)?;
                Ok(CType::Array(Boxed::new(alloc, element)?, *count))
            }
            CType::Struct(which) => Ok(CType::Struct(*which)),
            CType::Function(function) => {
                let function = function.get().copy(alloc)?;
                Ok(CType::Function(Boxed::new(alloc, function)?))
            }
        }
    }

    /// Whether two types are the same, part by part.
    #[cycle(comparisons)]
    pub fn is_same(&self, other: &CType) -> bool
        ensures { Decides result (self.now ≡ other.now) }
    {
        match (self, other) {
            (CType::Void, CType::Void) => true,
            (CType::Int(a), CType::Int(b)) => *a == *b,
            (CType::Pointer(a, constant), CType::Pointer(b, other_constant)) => {
                *constant == *other_constant && a.get().is_same(b.get())
            }
            (CType::Array(a, count), CType::Array(b, other_count)) => {
                *count == *other_count && a.get().is_same(b.get())
            }
            (CType::Struct(a), CType::Struct(b)) => *a == *b,
            (CType::Function(a), CType::Function(b)) => a.get().is_same(b.get()),
            _ => false,
        }
    }
}

/// The same types once more, in order.
#[cycle(copies)]
fn copies(alloc: Global, types: &[CType]) -> Mem<Items<CType>>
    ensures { IfOk result (λ copies. copies ≡ types.now) }
{
    let mut copies = Items::new(alloc);
    for index in 0..types.len() {
        let copy = types[index].copy(alloc)?;
        copies.push(copy)?;
    }
    Ok(copies)
}

impl FunctionType {
    /// The same type once more.
    #[cycle(copies)]
    pub fn copy(&self, alloc: Global) -> Mem<FunctionType>
        ensures { IfOk result (λ copy. copy ≡ self.now) }
    {
        let result = self.result.copy(alloc)?;
        let parameters = copies(alloc, self.parameters.as_slice())?;
        Ok(FunctionType {
            result,
            parameters,
            variadic: self.variadic,
        })
    }

    /// Whether two types of functions are the same, part by part.
    #[cycle(comparisons)]
    pub fn is_same(&self, other: &FunctionType) -> bool
        ensures { Decides result (self.now ≡ other.now) }
    {
        if self.variadic != other.variadic || self.parameters.len() != other.parameters.len() {
            return false;
        }
        for index in 0..self.parameters.len() {
            if !self.parameters.as_slice()[index].is_same(&other.parameters.as_slice()[index]) {
                return false;
            }
        }
        self.result.is_same(&other.result)
    }
}
