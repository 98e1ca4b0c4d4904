//! Types.

use crate::kinds::IntKind;
use ct_base::{Bytes, Items};
use sqlite_items::Boxed;

/// A type (C11 6.2.5). An enumeration is `Int(IntKind::Int)`, and a typedef name is the type that
/// it stands for.
#[cycle(types)]
#[derive(Debug, Drop)]
pub enum CType {
    Void,
    Int(IntKind),
    /// The pointee, and whether it is `const`.
    Pointer(Boxed<CType>, bool),
    /// The element, and how many there are, where the type says so.
    Array(Boxed<CType>, Option<u32>),
    /// A struct, by its number.
    Struct(u32),
    Function(Boxed<FunctionType>),
}

/// The type of a function. `variadic` is set where `...` ends the parameters.
#[cycle(types)]
#[derive(Debug, Drop)]
pub struct FunctionType {
    pub result: CType,
    pub parameters: Items<CType>,
    pub variadic: bool,
}

/// A member of a struct. `constant` says whether it is `const`. `offset` counts bytes from the
/// begin of the struct, once the struct is laid out.
#[derive(Debug, Drop)]
pub struct Member {
    pub name: Bytes,
    pub kind: CType,
    pub constant: bool,
    pub offset: u64,
}

/// How many bytes an object of a type takes, and of what number of bytes its place is a multiple
/// (C11 6.2.8). A size past 1,048,576 is given as 1,048,577.
#[derive(Clone, Copy, Debug, PartialEq, Eq)]
pub struct Extent {
    pub size: u64,
    pub alignment: u64,
}

/// A complete struct: its members in order with their offsets, and its extent.
#[derive(Debug, Drop)]
pub struct StructLayout {
    pub members: Items<Member>,
    pub extent: Extent,
}
