//! Declarations. The first field of a variant, and the field `span`, is the place of the first token.

use crate::expressions::{Declarator, Expr, Spec};
use ct_base::{Bytes, Span};

/// A declaration (C11 6.7).
#[derive(Drop)]
pub enum Declaration {
    /// The specifiers, and what they declare.
    Declare(Span, Vec<Spec>, Vec<InitDeclarator>),
    /// `_Static_assert`, its condition, and its string literal.
    Assert(Span, Expr, Bytes),
}

/// A declarator, and the initialiser behind it.
#[derive(Drop)]
pub struct InitDeclarator {
    pub span: Span,
    pub declarator: Declarator,
    pub start: Option<Initialiser>,
}

/// An initialiser (C11 6.7.9).
#[cycle(initialisers)]
#[derive(Drop)]
pub enum Initialiser {
    Value(Span, Expr),
    /// Items in braces; whether a comma stands behind the last.
    List(Span, Vec<InitialiserItem>, bool),
}

/// An item of an initialiser in braces.
#[cycle(initialisers)]
#[derive(Drop)]
pub struct InitialiserItem {
    pub span: Span,
    pub designator: Designator,
    pub value: Initialiser,
}

/// What part an initialiser is for.
#[derive(Drop)]
pub enum Designator {
    /// The next one: nothing stands before the initialiser.
    Next,
    /// `.`, a name and `=`.
    Member(Span, Bytes),
    /// An index in brackets, and `=`.
    Index(Span, Expr),
}
