//! Units (C11 5.1.1.1p1) and their link.

use crate::trees::CoreStatement;
use crate::values::Space;
use ct_base::{Bytes, Items, Span, Text};
use ct_ctype::{CType, FunctionType, Structs};

/// The linkage of a name (C11 6.2.2).
#[derive(Clone, Copy, Debug, PartialEq, Eq)]
pub enum Linkage {
    External,
    Internal,
    Absent,
}

/// A variable of a function. `constant` is set where the definition has `const`.
#[derive(Debug, Drop)]
pub struct Variable {
    pub name: Bytes,
    pub kind: CType,
    pub constant: bool,
    pub span: Span,
}

/// A function that a unit defines. The first `parameters` of the variables are its parameters.
#[derive(Debug, Drop)]
pub struct CoreFunction {
    pub name: Bytes,
    pub kind: FunctionType,
    pub linkage: Linkage,
    pub span: Span,
    pub parameters: u32,
    pub variables: Items<Variable>,
    pub body: CoreStatement,
}

/// A translation unit: where its objects lie, the paths of its files, its own first, the
/// functions that it defines, its string literals without the zero byte at their end, and its
/// structs.
#[derive(Debug, Drop)]
pub struct CoreUnit {
    pub space: Space,
    pub files: Items<Text>,
    pub functions: Items<CoreFunction>,
    pub texts: Items<Bytes>,
    pub structs: Structs,
}

/// A definition: its name, the number of its unit, and its place among the functions of the unit.
#[derive(Debug, Drop)]
pub struct Definition {
    pub name: Bytes,
    pub unit: u32,
    pub place: u32,
}

/// The definitions of a test program. A function's number is its place here. The functions that
/// are built in stand after those that a unit defines, with the number of units as their unit.
#[derive(Debug, Drop)]
pub struct LinkTable {
    pub functions: Items<Definition>,
}
