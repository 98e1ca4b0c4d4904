//! Tokens and their places.

use crate::texts::Bytes;

/// A place in the text: a file of its unit, by its number from 0, and a line, from 1, or 0 in a
/// built-in header.
#[derive(Clone, Copy, Debug, PartialEq, Eq)]
pub struct Span {
    pub file: u32,
    pub line: u32,
}

/// What a preprocessing token is (C11 6.4).
#[derive(Clone, Copy, Debug, PartialEq, Eq)]
pub enum TokenKind {
    /// An identifier or keyword.
    Name,
    /// A preprocessing number (C11 6.4.8).
    Number,
    /// A character constant.
    Char,
    /// A string literal.
    Text,
    /// A punctuator.
    Punct,
    /// A byte that begins no other token.
    Other,
    /// The end of a line.
    Line,
}

/// A preprocessing token: its bytes, the place of its first byte, and whether white space
/// other than a new-line, or a comment, stands right before it (C11 6.4p3).
#[derive(Debug, Drop)]
pub struct Token {
    pub kind: TokenKind,
    pub text: Bytes,
    pub span: Span,
    pub spaced: bool,
}
