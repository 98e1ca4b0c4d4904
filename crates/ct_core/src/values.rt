//! Values and the cells of objects.

use ct_base::Items;

/// Which units an object belongs to. Objects of test files and sources lie in `Project`, those of
/// generated mocks and runners in `Tool`.
#[derive(Clone, Copy, Debug, PartialEq, Eq)]
pub enum Space {
    Project,
    Tool,
}

/// A place in an object: the space of the object, its number there, and bytes from its begin.
#[derive(Clone, Copy, Debug, PartialEq, Eq)]
pub struct Pointer {
    pub space: Space,
    pub number: u64,
    pub offset: u32,
}

/// What a pointer that is not null points to: a place in an object, or a function by its number.
#[derive(Clone, Copy, Debug, PartialEq, Eq)]
pub enum Address {
    Object(Pointer),
    Function(u32),
}

/// What one byte of an object holds.
#[derive(Clone, Copy, Debug, PartialEq, Eq)]
pub enum Cell {
    Byte(u8),
    /// Nothing was stored yet.
    Nothing,
    /// A part of a pointer, by its place from 0.
    Part(Address, u8),
}

/// What an expression gives.
#[derive(Debug, Drop)]
pub enum Value {
    /// No value: what a function without one gives.
    Void,
    Int(i128),
    /// The null pointer.
    Null,
    Object(Pointer),
    Function(u32),
    /// The cells of a struct.
    Struct(Items<Cell>),
}
