//! Expressions, specifiers and declarators. The first field of a variant, and the field `span`, is
//! the place of the first token.

use crate::words::{AssignOp, InfixOp, MemberOp, PrefixOp, Qualifier, SpecWord, StepOp};
use ct_base::{Bytes, Items, Span};

/// An expression (C11 6.5).
#[cycle(expressions)]
#[derive(Drop)]
pub enum Expr {
    /// A name that is no typedef name.
    Name(Span, Bytes),
    Number(Span, Bytes),
    /// A character constant, with its quotes.
    Character(Span, Bytes),
    /// String literals that stand one behind the other, each with its quotes: the first, and the others.
    Text(Span, Bytes, Items<Bytes>),
    /// An expression in parentheses.
    Paren(Span, Box<Expr>),
    /// An array, and the index in brackets.
    Index(Span, Box<Expr>, Box<Expr>),
    /// A function, and its arguments.
    Call(Span, Box<Expr>, Vec<Expr>),
    /// A struct or a pointer to one, and the name of a member.
    Member(Span, Box<Expr>, MemberOp, Bytes),
    /// `++` or `--` behind its operand.
    Postfix(Span, Box<Expr>, StepOp),
    /// `++` or `--` before its operand.
    Prefix(Span, StepOp, Box<Expr>),
    Unary(Span, PrefixOp, Box<Expr>),
    /// `sizeof` of an expression.
    SizeofValue(Span, Box<Expr>),
    /// `sizeof` of a type name: its specifiers, and its declarator without a name.
    SizeofType(Span, Vec<Spec>, Box<Declarator>),
    /// A type name in parentheses, and the operand.
    Cast(Span, Vec<Spec>, Box<Declarator>, Box<Expr>),
    Infix(Span, InfixOp, Box<Expr>, Box<Expr>),
    /// `test ? yes : no`
    Conditional(Span, Box<Expr>, Box<Expr>, Box<Expr>),
    Assign(Span, AssignOp, Box<Expr>, Box<Expr>),
    Comma(Span, Box<Expr>, Box<Expr>),
}

/// A declaration specifier (C11 6.7).
#[cycle(expressions)]
#[derive(Drop)]
pub enum Spec {
    Word(Span, SpecWord),
    TypedefName(Span, Bytes),
    /// `struct` and a tag.
    StructTag(Span, Bytes),
    /// `struct`, maybe a tag, and the members in braces.
    StructList(Span, Option<Bytes>, Vec<Member>),
    /// `enum` and a tag.
    EnumTag(Span, Bytes),
    /// `enum`, maybe a tag, and the enumerators in braces; whether a comma stands behind the last.
    EnumList(Span, Option<Bytes>, Vec<Enumerator>, bool),
}

/// A declaration of members of a struct (C11 6.7.2.1).
#[cycle(expressions)]
#[derive(Drop)]
pub struct Member {
    pub span: Span,
    pub specs: Vec<Spec>,
    pub declarators: Vec<Declarator>,
}

/// An enumeration constant, and the expression that gives its value (C11 6.7.2.2).
#[cycle(expressions)]
#[derive(Drop)]
pub struct Enumerator {
    pub span: Span,
    pub name: Bytes,
    pub value: Option<Box<Expr>>,
}

/// A declarator (C11 6.7.6), or an abstract one (6.7.7).
#[cycle(expressions)]
#[derive(Drop)]
pub enum Declarator {
    /// In an abstract declarator, what stands in the place of the name.
    Nameless,
    Name(Span, Bytes),
    /// A declarator in parentheses.
    Group(Span, Box<Declarator>),
    /// `*`, its qualifiers, and what they stand before.
    Pointer(Span, Items<Qualifier>, Box<Declarator>),
    /// What the brackets stand behind, and the size in them.
    Array(Span, Box<Declarator>, Option<Box<Expr>>),
    /// What the parameter list stands behind, and the list.
    Function(Span, Box<Declarator>, ParameterForm, Vec<Parameter>),
}

/// How a parameter list is written.
#[derive(Clone, Copy, Debug, PartialEq, Eq)]
pub enum ParameterForm {
    /// `()`
    Empty,
    /// `(void)`
    Void,
    /// One or more parameters.
    Fixed,
    /// One or more parameters, a comma and `...`.
    Variadic,
}

/// A parameter: its specifiers, and its declarator, with a name or without.
#[cycle(expressions)]
#[derive(Drop)]
pub struct Parameter {
    pub span: Span,
    pub specs: Vec<Spec>,
    pub declarator: Declarator,
}
