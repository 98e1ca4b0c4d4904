//! Parts of syntax trees: what is built of them, if they pass no limit of depth, and what the grammar has to know of
//! them either way.

use crate::reach::Reach;
use ct_base::{Bytes, Items, Span};
use ct_syntax::{Declarator, Enumerator, Expr, Member, Parameter, Spec, SpecWord};

/// What is built of a part, if it passes no limit of depth, and what is reached in it.
#[derive(Drop)]
pub struct Built<T> {
    pub tree: Option<T>,
    pub reach: Reach,
}

/// A name that is declared, and whether it is a typedef name.
#[derive(Drop)]
pub struct Declared {
    pub name: Bytes,
    pub is_type: bool,
}

/// An expression, and the level of its production.
#[derive(Drop)]
pub struct ExprPart {
    pub built: Built<Box<Expr>>,
    pub level: u8,
    pub span: Span,
}

/// Specifiers: the words of their type, how many whole types stand beside them, whether `typedef` does, and the
/// names that they declare.
#[derive(Drop)]
pub struct SpecsPart {
    pub built: Built<Vec<Spec>>,
    pub words: Items<SpecWord>,
    pub wholes: u64,
    pub typedef: bool,
    pub names: Items<Declared>,
    pub span: Span,
}

/// Members, and the names that they declare.
#[derive(Drop)]
pub struct MembersPart {
    pub built: Built<Vec<Member>>,
    pub names: Items<Declared>,
}

/// Enumerators, and the names that they declare.
#[derive(Drop)]
pub struct EnumeratorsPart {
    pub built: Built<Vec<Enumerator>>,
    pub names: Items<Declared>,
}

/// A declarator: whether nothing stands there, the name, whether it is the name alone, in parentheses or not, and the
/// names of the parameters of the function that it names.
#[derive(Drop)]
pub struct DeclaratorPart {
    pub built: Built<Box<Declarator>>,
    pub nameless: bool,
    pub name: Option<Bytes>,
    pub plain: bool,
    pub own: Items<Declared>,
    pub span: Span,
}

/// Parameters: whether there is none, whether there is the one word `void`, and the names that they declare.
#[derive(Drop)]
pub struct ParametersPart {
    pub built: Built<Vec<Parameter>>,
    pub empty: bool,
    pub only_void: bool,
    pub names: Items<Declared>,
}

/// What an item of an initialiser in braces is for.
#[derive(Drop)]
pub enum Aimed {
    Next,
    /// The name of a member, and the place of the dot.
    Member(Span, Bytes),
    /// An index, and the place of its bracket.
    Index(Span, ExprPart),
}
