//! Core trees: typed C with names resolved, in which each conversion is a node.

use crate::objects::Scalar;
use ct_base::{BinaryOp, Bytes, Items, Span};
use ct_ctype::{FunctionType, IntKind};
use sqlite_items::Boxed;

/// An expression (C11 6.5). An lvalue is an expression whose value is the address of its object
/// (C11 6.3.2.1p1), and `Load` is its conversion to the value that the object holds.
#[derive(Debug, Drop)]
pub enum CoreExpression {
    /// A number of a kind (C11 6.4.4.1).
    Constant(IntKind, i128),
    /// The object of a variable, by its place among the function's variables.
    Variable(u32),
    /// The first byte of a string literal, by its place among the unit's texts (C11 6.4.5p6).
    Text(u32),
    /// A function, by its name (C11 6.3.2.1p4).
    Function(Bytes),
    /// What an object holds (C11 6.3.2.1p2).
    Load(Scalar, Boxed<CoreExpression>),
    /// Stores a value in an object, and has that value (C11 6.5.16.1).
    Assign(Scalar, Boxed<CoreExpression>, Boxed<CoreExpression>),
    /// A number converted to another kind (C11 6.3.1.3).
    Convert(IntKind, Boxed<CoreExpression>),
    /// An operator of two numbers of a kind. The count of a shift is of any kind.
    Binary(BinaryOp, IntKind, Boxed<CoreExpression>, Boxed<CoreExpression>),
    /// A call (C11 6.5.2.2): the type by which it is made, what is called, and the arguments.
    Call(FunctionType, Boxed<CoreExpression>, Items<CoreExpression>),
}

/// Where a statement begins, and its number in the order of the unit's text, from 0.
#[derive(Clone, Copy, Debug, PartialEq, Eq)]
pub struct Mark {
    pub span: Span,
    pub serial: u32,
}

/// A statement (C11 6.8), or a declaration in a block. Each begins with its place.
#[derive(Debug, Drop)]
pub enum CoreStatement {
    /// An expression whose value is dropped (C11 6.8.3).
    Run(Mark, CoreExpression),
    /// The variables that a block declares itself, by their places among the function's
    /// variables, and what it holds (C11 6.8.2).
    Block(Mark, Items<u32>, Items<CoreStatement>),
    /// A declaration of a variable, by its place, with its initialiser where it has one
    /// (C11 6.7.9).
    Declare(Mark, u32, Scalar, Option<CoreExpression>),
    If(Mark, CoreExpression, Boxed<CoreStatement>, Option<Boxed<CoreStatement>>),
    While(Mark, CoreExpression, Boxed<CoreStatement>),
    Return(Mark, Option<CoreExpression>),
}
