//! Words, names and numbers at the front of the tokens.

ghost use Rattle.std.specs.Prelude.{◌≡◌, ℕ, List, IfNone, IfOk, IfSome, OnErr};
ghost use Rattle.std.specs.List.{list_any};
ghost use Rattle.std.specs.Option.{option_map};
ghost use Rattle.std.specs.Str.{bytes_eq};
ghost use Rattle.ct_base.specs.declared.lexical.Token.{Token as token};
ghost use Rattle.ct_form.specs.Words.{Absent, Nothing, IsNumber, Stands, StandsName, StandsNumber, begins_with_letter as letter_first, c_words, first_word, is_free_name as free_name, is_identifier as identifier, is_other_byte as other_byte};

use ct_base::{Mem, Token, TokenKind, is_letter, is_name_byte};
use std::alloc::{AllocError, AllocFailed, Global};

/// The words of C that begin with no underscore (C11 6.4.1), and `asm`.
const C_WORDS: [&[u8]; 35] = [
    b"asm",
    b"auto",
    b"break",
    b"case",
    b"char",
    b"const",
    b"continue",
    b"default",
    b"do",
    b"double",
    b"else",
    b"enum",
    b"extern",
    b"float",
    b"for",
    b"goto",
    b"if",
    b"inline",
    b"int",
    b"long",
    b"register",
    b"restrict",
    b"return",
    b"short",
    b"signed",
    b"sizeof",
    b"static",
    b"struct",
    b"switch",
    b"typedef",
    b"union",
    b"unsigned",
    b"void",
    b"volatile",
    b"while",
];

/// The greatest value of an `int`.
const INT_MAX: u32 = 2147483647;

/// Why a part of the form was not read.
#[derive(Clone, Copy, Debug, PartialEq, Eq)]
pub enum NoMatch {
    /// No such part stands there.
    Elsewhere,
    OutOfMemory,
}

impl From<AllocError> for NoMatch {
    ghost use Rattle.std.specs.Prelude.{◌≡◌};
    ghost use Rattle.ct_form.specs.declared.words.NoMatch.TheVariants.{OutOfMemory};

    ghost from_gives = { λ _ miss. miss ≡ OutOfMemory };

    fn from(_error: AllocError) -> NoMatch {
        NoMatch::OutOfMemory
    }
}

impl<T: Drop> From<AllocFailed<T>> for NoMatch {
    ghost use Rattle.std.specs.Prelude.{◌≡◌};
    ghost use Rattle.ct_form.specs.declared.words.NoMatch.TheVariants.{OutOfMemory};

    ghost from_gives = { λ _ miss. miss ≡ OutOfMemory };

    fn from(_error: AllocFailed<T>) -> NoMatch {
        NoMatch::OutOfMemory
    }
}

impl From<ct_base::OutOfMemory> for NoMatch {
    ghost use Rattle.std.specs.Prelude.{◌≡◌};
    ghost use Rattle.ct_form.specs.declared.words.NoMatch.TheVariants.{OutOfMemory};

    ghost from_gives = { λ _ miss. miss ≡ OutOfMemory };

    fn from(_error: ct_base::OutOfMemory) -> NoMatch {
        NoMatch::OutOfMemory
    }
}

/// The first token that is no end of a line, and what follows it.
pub fn next(tokens: &[Token]) -> Option<(&Token, &[Token])>
    ensures { option_map (λ found. (found.0.now, found.1.now)) result ≡ first_word tokens.now }
{
    let mut rest = tokens;
    while let Some((token, after)) = rest.split_first() {
        if !matches!(token.kind, TokenKind::Line) {
            return Some((token, after));
        }
        rest = after;
    }
    None
}

/// What follows a word of this text, where one stands at the front.
pub fn word<'a>(tokens: &'a [Token], text: &[u8]) -> Result<&'a [Token], NoMatch>
    ensures found { IfOk result (λ rest. Stands text.now tokens.now rest.now) }
    ensures absent { OnErr result (Absent text.now tokens.now) }
{
    match next(tokens) {
        Some((token, rest)) if token.text.as_slice() == text => Ok(rest),
        _ => Err(NoMatch::Elsewhere),
    }
}

fn is_among(text: &[u8], words: &[&[u8]]) -> bool
    ensures { result ≡ list_any (λ word. bytes_eq text.now word.now) words.now }
{
    words.iter().any(|word| text == *word)
}

fn is_c_word(text: &[u8]) -> bool
    ensures { result ≡ list_any (bytes_eq text.now) c_words }
{
    is_among(text, &C_WORDS)
}

fn begins_with_letter(text: &[u8]) -> bool
    ensures { result ≡ letter_first text.now }
{
    match text.first() {
        Some(byte) => is_letter(*byte),
        None => false,
    }
}

/// Whether a text has a byte that stands in no identifier.
fn has_other_byte(text: &[u8]) -> bool
    ensures { result ≡ list_any other_byte text.now }
{
    text.iter().any(|byte| !is_name_byte(*byte))
}

/// Whether a text is an identifier that begins with a letter.
fn is_identifier(text: &[u8]) -> bool
    ensures { result ≡ identifier text.now }
{
    begins_with_letter(text) && !has_other_byte(text)
}

/// Whether a test file may declare this name.
fn is_free_name(text: &[u8]) -> bool
    ensures { result ≡ free_name text.now }
{
    is_identifier(text)
        && !is_c_word(text)
        && !text.starts_with(b"TEST_")
        && !text.starts_with(b"ceedling_")
        && text != b"main".as_slice()
}

/// A name that stands at the front, and what follows it.
pub fn name(tokens: &[Token]) -> Result<(&Token, &[Token]), NoMatch>
    ensures found { IfOk result (λ found. StandsName tokens.now found.0.now found.1.now) }
    ensures absent { OnErr result (Nothing (StandsName tokens.now)) }
{
    match next(tokens) {
        Some((token, rest))
            if matches!(token.kind, TokenKind::Name) && is_free_name(token.text.as_slice()) => {
            Ok((token, rest))
        }
        _ => Err(NoMatch::Elsewhere),
    }
}

/// The number whose decimal digits these are, without a leading zero, where it is a value of `int`.
fn number_of(alloc: Global, text: &[u8]) -> Mem<Option<u32>>
    ensures found { IfOk result (λ found. IfSome found (IsNumber text.now)) }
    ensures none { IfOk result (λ found. IfNone found ((value : ℕ) → IsNumber text.now value → ⊥)) }
{
    let Ok(text) = std::str::from_utf8(text) else {
        return Ok(None);
    };
    let Ok(number) = text.parse::<u32>() else {
        return Ok(None);
    };
    if number > INT_MAX {
        return Ok(None);
    }
    let digits = format!(in alloc; "{number}")?;
    if digits.as_str() == text {
        Ok(Some(number))
    } else {
        Ok(None)
    }
}

/// The value of a number that stands at the front, and what follows it.
pub fn number(alloc: Global, tokens: &[Token]) -> Mem<Option<(u32, &[Token])>>
    ensures found { IfOk result (λ found. IfSome found (λ found. StandsNumber tokens.now found.0 found.1.now)) }
    ensures none { IfOk result (λ found. IfNone found (Nothing (StandsNumber tokens.now))) }
{
    let Some((token, rest)) = next(tokens) else {
        return Ok(None);
    };
    if !matches!(token.kind, TokenKind::Number) {
        return Ok(None);
    }
    match number_of(alloc, token.text.as_slice())? {
        Some(value) => Ok(Some((value, rest))),
        None => Ok(None),
    }
}
