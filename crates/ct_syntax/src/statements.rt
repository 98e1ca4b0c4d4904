//! Statements and whole units. The first field of a variant, and the field `span`, is the place of the
//! first token.

use crate::declarations::Declaration;
use crate::expressions::{Declarator, Expr, Spec};
use ct_base::Span;

/// A unit, as its external declarations in order (C11 6.9).
#[derive(Drop)]
pub struct Tree {
    pub items: Vec<Item>,
}

/// An external declaration.
#[derive(Drop)]
pub enum Item {
    /// A definition of a function: its specifiers, its declarator and its body.
    Function(Span, Vec<Spec>, Declarator, Block),
    Declaration(Declaration),
    /// A lone `;`.
    Empty(Span),
}

/// A statement (C11 6.8).
#[cycle(statements)]
#[derive(Drop)]
pub enum Statement {
    Block(Block),
    /// An expression or nothing, and `;`.
    Run(Span, Option<Expr>),
    /// The branches of an `if` and its `else if`, and what stands behind a last `else`.
    If(Span, Vec<Branch>, Option<Box<Statement>>),
    While(Span, Expr, Box<Statement>),
    /// The body, and the test.
    Do(Span, Box<Statement>, Expr),
    /// What stands before the first `;`, the test, what is done after each turn, and the body.
    For(Span, ForStart, Option<Expr>, Option<Expr>, Box<Statement>),
    /// A `switch`. Labels stand only in its own braces.
    Switch(Span, Expr, Block),
    Break(Span),
    Continue(Span),
    Return(Span, Option<Expr>),
}

/// A test of an `if`, and what is done where it holds.
#[cycle(statements)]
#[derive(Drop)]
pub struct Branch {
    pub span: Span,
    pub test: Expr,
    pub body: Statement,
}

/// What stands in braces.
#[cycle(statements)]
#[derive(Drop)]
pub struct Block {
    pub span: Span,
    pub items: Vec<BlockItem>,
}

/// A part of a block, or of the braces of a `switch`, which alone have labels.
#[cycle(statements)]
#[derive(Drop)]
pub enum BlockItem {
    /// `case`, an expression and `:`.
    Case(Span, Expr),
    /// `default` and `:`.
    Default(Span),
    Declaration(Declaration),
    Statement(Statement),
}

/// What stands before the first `;` of a `for`.
#[derive(Drop)]
pub enum ForStart {
    /// A declaration, with that `;`.
    Declaration(Declaration),
    Value(Option<Expr>),
}
