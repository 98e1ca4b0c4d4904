//! What a token is in the expression of a condition (C11 6.10.1).

ghost use Rattle.std.specs.Prelude.{◌≡◌, IfOk};
ghost use Rattle.ct_ppexpr.specs.Trees as trees;
ghost use Rattle.ct_ppexpr.specs.Words as spec;

use crate::values::{Value, character_value, literal_value, signed};
use ct_base::{BinaryOp, Mem, Token, TokenKind};
use ct_token::{Literal, characters, integer};
use std::alloc::Global;

/// An operator between two operands.
#[derive(Clone, Copy, Debug, PartialEq, Eq)]
pub(crate) enum Infix {
    Compute(BinaryOp),
    /// `&&`
    Both,
    /// `||`
    Either,
    /// `,`
    Comma,
}

/// A mark of an expression.
#[derive(Clone, Copy, Debug, PartialEq, Eq)]
pub(crate) enum Mark {
    Open,
    Close,
    Question,
    Colon,
    Tilde,
    Bang,
    Infix(Infix),
}

/// A token as a part of an expression.
#[derive(Clone, Copy, Debug, PartialEq, Eq)]
pub(crate) enum Word {
    /// A constant, or a name, which counts as 0.
    Constant(Value),
    Mark(Mark),
    /// What is in no expression.
    Stray,
}

/// How tightly an operator binds its operands.
pub(crate) fn infix_level(op: Infix) -> u8
    ensures { result ≡ trees.infix_level op }
{
    match op {
        Infix::Comma => 1,
        Infix::Either => 3,
        Infix::Both => 4,
        Infix::Compute(op) => binary_level(op),
    }
}

fn binary_level(op: BinaryOp) -> u8
    ensures { result ≡ trees.binary_level op }
{
    match op {
        BinaryOp::Or => 5,
        BinaryOp::Xor => 6,
        BinaryOp::And => 7,
        BinaryOp::Equal | BinaryOp::NotEqual => 8,
        BinaryOp::Less | BinaryOp::Greater | BinaryOp::LessEqual | BinaryOp::GreaterEqual => 9,
        BinaryOp::ShiftLeft | BinaryOp::ShiftRight => 10,
        BinaryOp::Add | BinaryOp::Subtract => 11,
        BinaryOp::Multiply | BinaryOp::Divide | BinaryOp::Remainder => 12,
    }
}

fn computing(op: BinaryOp) -> Word
    ensures { result ≡ spec.computing op }
{
    Word::Mark(Mark::Infix(Infix::Compute(op)))
}

fn single_mark(byte: u8) -> Word
    ensures { result ≡ spec.single_mark byte }
{
    match byte {
        b'(' => Word::Mark(Mark::Open),
        b')' => Word::Mark(Mark::Close),
        b'?' => Word::Mark(Mark::Question),
        b':' => Word::Mark(Mark::Colon),
        b'~' => Word::Mark(Mark::Tilde),
        b'!' => Word::Mark(Mark::Bang),
        b'*' => computing(BinaryOp::Multiply),
        b'/' => computing(BinaryOp::Divide),
        b'%' => computing(BinaryOp::Remainder),
        b'+' => computing(BinaryOp::Add),
        b'-' => computing(BinaryOp::Subtract),
        b'<' => computing(BinaryOp::Less),
        b'>' => computing(BinaryOp::Greater),
        b'&' => computing(BinaryOp::And),
        b'^' => computing(BinaryOp::Xor),
        b'|' => computing(BinaryOp::Or),
        b',' => Word::Mark(Mark::Infix(Infix::Comma)),
        _ => Word::Stray,
    }
}

/// The mark that a byte is twice.
fn double_mark(byte: u8) -> Word
    ensures { result ≡ spec.double_mark byte }
{
    match byte {
        b'<' => computing(BinaryOp::ShiftLeft),
        b'>' => computing(BinaryOp::ShiftRight),
        b'=' => computing(BinaryOp::Equal),
        b'&' => Word::Mark(Mark::Infix(Infix::Both)),
        b'|' => Word::Mark(Mark::Infix(Infix::Either)),
        _ => Word::Stray,
    }
}

/// The mark that a byte is before `=`.
fn mark_before_equal(byte: u8) -> Word
    ensures { result ≡ spec.mark_before_equal byte }
{
    match byte {
        b'<' => computing(BinaryOp::LessEqual),
        b'>' => computing(BinaryOp::GreaterEqual),
        b'!' => computing(BinaryOp::NotEqual),
        _ => Word::Stray,
    }
}

fn mark_of(text: &[u8]) -> Word
    ensures { result ≡ spec.mark_of text.now }
{
    match text {
        [byte] => single_mark(*byte),
        [first, second] => {
            if first == second {
                double_mark(*first)
            } else if *second == b'=' {
                mark_before_equal(*first)
            } else {
                Word::Stray
            }
        }
        _ => Word::Stray,
    }
}

fn number_word(literal: Option<Literal>) -> Word
    ensures { result ≡ spec.number_word literal }
{
    match literal {
        Some(literal) => Word::Constant(literal_value(literal)),
        None => Word::Stray,
    }
}

/// The word of a character constant with these bytes.
fn bytes_word(bytes: &[u8]) -> Word
    ensures { result ≡ spec.bytes_word bytes.now }
{
    match bytes {
        [byte] => Word::Constant(character_value(*byte)),
        _ => Word::Stray,
    }
}

fn character_word(alloc: Global, text: &[u8]) -> Mem<Word>
    ensures { IfOk result (spec.IsCharacter text.now) }
{
    match characters(alloc, text)? {
        Some(bytes) => Ok(bytes_word(bytes.as_slice())),
        None => Ok(Word::Stray),
    }
}

fn word_of(alloc: Global, kind: TokenKind, text: &[u8]) -> Mem<Word>
    ensures { IfOk result (spec.IsWordOf kind text.now) }
{
    match kind {
        TokenKind::Name => Ok(Word::Constant(signed(0))),
        TokenKind::Number => Ok(number_word(integer(text))),
        TokenKind::Char => character_word(alloc, text),
        TokenKind::Punct => Ok(mark_of(text)),
        TokenKind::Text | TokenKind::Other | TokenKind::Line => Ok(Word::Stray),
    }
}

/// The words of tokens.
pub(crate) fn read_words(alloc: Global, tokens: &[Token]) -> Mem<Vec<Word>>
    ensures { IfOk result (λ words. spec.AreWords tokens.now words.items) }
{
    let mut words = Vec::new(alloc);
    for token in tokens {
        words.push(word_of(alloc, token.kind, token.text.as_slice())?)?;
    }
    Ok(words)
}
