//! What integer constants, character constants and string literals stand for (C11 6.4.4.1, 6.4.4.4,
//! 6.4.5).

ghost use Rattle.std.specs.Prelude.{◌≡◌, ◌<◌, ◌≤◌, ◌^◌, ◌∷◌, ◌++◌, [], ℕ, List, IsTrue, IfOk, IfSome, MatchOption, if◌then◌else◌, nat_lt, length};
ghost use Rattle.std.specs.List.{prefix_len};
ghost use Rattle.ct_token.specs.Bytes.{is_quote};
ghost use Rattle.ct_token.specs.Constants.{radix, is_digit_in, digit_value, number_in, base_of, unprefixed, is_u, is_l, longs_of, suffix_of, literal_of, integer_of, is_plain, simple_escape, numeric_escape, escape_of, element_of, SpellsBytes, Decodes};

use crate::classes::{is_hexadecimal_digit, is_octal_digit, is_quote};
use ct_base::{Mem, is_digit};
use std::alloc::Global;

/// The base of an integer constant, or of the digits of an escape.
#[derive(Clone, Copy, Debug, PartialEq, Eq)]
pub(crate) enum Base {
    Octal,
    Decimal,
    Hexadecimal,
}

/// An integer constant: its value, whether it is a decimal one, and its suffix, which has a `u` or
/// not and so many `l` (C11 6.4.4.1).
#[derive(Clone, Copy, Debug, PartialEq, Eq)]
pub struct Literal {
    pub value: u64,
    pub decimal: bool,
    pub unsigned: bool,
    pub longs: u32,
}

/// A suffix of an integer constant: whether it has a `u`, and how many `l`.
#[derive(Clone, Copy, Debug, PartialEq, Eq)]
pub(crate) struct Suffix {
    unsigned: bool,
    longs: u32,
}

/// A byte of a character constant or a string literal, and how many bytes spell it.
#[derive(Clone, Copy, Debug, PartialEq, Eq)]
pub(crate) struct Element {
    byte: u8,
    count: usize,
}

/// The base of an integer constant, by what it begins with.
fn base_of(text: &[u8]) -> Base
    ensures { result ≡ base_of text.now }
{
    match text {
        [b'0', b'x' | b'X', ..] => Base::Hexadecimal,
        [b'0', ..] => Base::Octal,
        _ => Base::Decimal,
    }
}

/// Whether a byte is a digit of a base.
fn is_digit_in(base: Base, byte: u8) -> bool
    ensures { result ≡ is_digit_in base byte }
{
    match base {
        Base::Octal => is_octal_digit(byte),
        Base::Decimal => is_digit(byte),
        Base::Hexadecimal => is_hexadecimal_digit(byte),
    }
}

/// How many digits of a base a text begins with.
fn digit_len(base: Base, text: &[u8]) -> usize
    ensures { result ≡ prefix_len (is_digit_in base) text.now }
{
    text.iter()
        .take_while(|byte| is_digit_in(base, **byte))
        .count()
}

fn radix(base: Base) -> u64
    ensures { result ≡ radix base }
{
    match base {
        Base::Octal => 8,
        Base::Decimal => 10,
        Base::Hexadecimal => 16,
    }
}

/// What a digit stands for.
fn digit_value(digit: u8) -> u8
    ensures { result ≡ digit_value digit }
{
    match digit {
        b'0'..=b'9' => digit - b'0',
        b'a'..=b'f' => digit - b'a' + 10,
        _ => digit.saturating_sub(b'A' - 10),
    }
}

/// What digits stand for together, where it has 64 bits.
fn number_in(base: Base, digits: &[u8]) -> Option<u64>
    ensures { result ≡ (if nat_lt (number_in base digits.now) (2 ^ 64) then Some (number_in base digits.now) else None) }
{
    let mut value: u64 = 0;
    for digit in digits {
        value = value
            .checked_mul(radix(base))?
            .checked_add(u64::from(digit_value(*digit)))?;
    }
    Some(value)
}

/// The text behind the prefix of its base.
fn unprefixed(base: Base, text: &[u8]) -> &[u8]
    requires { base_of text.now ≡ base }
    ensures { result.now ≡ unprefixed base text.now }
{
    match base {
        Base::Hexadecimal => &text[2..],
        Base::Octal | Base::Decimal => text,
    }
}

/// `u` or `U`.
fn is_u(byte: u8) -> bool
    ensures { result ≡ is_u byte }
{
    matches!(byte, b'u' | b'U')
}

/// `l` or `L`.
fn is_l(byte: u8) -> bool
    ensures { result ≡ is_l byte }
{
    matches!(byte, b'l' | b'L')
}

/// How many `long` a text of `l` alone stands for: none, one, or two of the same case.
fn longs_of(text: &[u8]) -> Option<u32>
    ensures { result ≡ longs_of text.now }
{
    match text {
        [] => Some(0),
        [letter] => is_l(*letter).then_some(1),
        [first, second] => (is_l(*first) && first == second).then_some(2),
        _ => None,
    }
}

/// The suffix of an integer constant (C11 6.4.4.1).
fn suffix_of(text: &[u8]) -> Option<Suffix>
    ensures { result ≡ suffix_of text.now }
{
    let (unsigned, letters) = match (text.split_first(), text.split_last()) {
        (Some((first, letters)), _) if is_u(*first) => (true, letters),
        (_, Some((last, letters))) if is_u(*last) => (true, letters),
        _ => (false, text),
    };
    let longs = longs_of(letters)?;
    Some(Suffix { unsigned, longs })
}

/// The constant of these digits and this suffix, where there are digits and they fit.
fn literal_of(base: Base, digits: &[u8], suffix: Suffix) -> Option<Literal>
    ensures { result ≡ literal_of base digits.now (Some suffix) }
{
    let value = number_in(base, digits)?;
    let decimal = base == Base::Decimal;
    let too_large = decimal && !suffix.unsigned && value > i64::MAX as u64;
    if digits.is_empty() || too_large {
        return None;
    }
    Some(Literal {
        value,
        decimal,
        unsigned: suffix.unsigned,
        longs: suffix.longs,
    })
}

/// The integer constant that a text is, where it is one of 64 bits (C11 6.4.4.1). A decimal constant
/// without `u` is at most 2^63 - 1.
pub fn integer(text: &[u8]) -> Option<Literal>
    ensures { result ≡ integer_of text.now }
{
    let base = base_of(text);
    let rest = unprefixed(base, text);
    let (digits, letters) = rest.split_at(digit_len(base, rest));
    let suffix = suffix_of(letters)?;
    literal_of(base, digits, suffix)
}

/// What a byte behind a backslash stands for, where it is one of `' " ? \ a b f n r t v` (C11
/// 6.4.4.4).
fn simple_escape(byte: u8) -> Option<u8>
    ensures { result ≡ simple_escape byte }
{
    match byte {
        b'\'' | b'"' | b'?' | b'\\' => Some(byte),
        b'a' => Some(7),
        b'b' => Some(8),
        b'f' => Some(12),
        b'n' => Some(10),
        b'r' => Some(13),
        b't' => Some(9),
        b'v' => Some(11),
        _ => None,
    }
}

/// The byte that digits behind so many bytes stand for, where there are digits and it is at most 255.
fn numeric_escape(base: Base, digits: &[u8], before: usize) -> Option<Element>
    requires { before ≤ 2 }
    ensures { result ≡ numeric_escape base digits.now before }
{
    if digits.is_empty() {
        return None;
    }
    let byte = u8::try_from(number_in(base, digits)?).ok()?;
    Some(Element {
        byte,
        count: before + digits.len(),
    })
}

/// The byte that the front of a text behind a backslash stands for, the backslash counted (C11
/// 6.4.4.4).
fn escape_of(text: &[u8]) -> Option<Element>
    ensures { result ≡ escape_of text.now }
{
    let (first, rest) = text.split_first()?;
    if is_octal_digit(*first) {
        let count = digit_len(Base::Octal, text).min(3);
        return numeric_escape(Base::Octal, &text[..count], 1);
    }
    if *first == b'x' {
        let count = digit_len(Base::Hexadecimal, rest);
        return numeric_escape(Base::Hexadecimal, &rest[..count], 2);
    }
    let byte = simple_escape(*first)?;
    Some(Element { byte, count: 2 })
}

/// Whether a byte stands for itself between these quotes.
fn is_plain(quote: u8, byte: u8) -> bool
    ensures { result ≡ is_plain quote byte }
{
    !(byte == quote || byte == b'\\' || byte == b'\n')
}

/// The byte that the front of a text between these quotes stands for.
fn element_of(quote: u8, text: &[u8]) -> Option<Element>
    ensures element { result ≡ element_of quote text.now }
    ensures within { IfSome result (λ element. (0 < element.count) × (element.count ≤ length text.now)) }
{
    let (first, rest) = text.split_first()?;
    if *first == b'\\' {
        return escape_of(rest);
    }
    if !is_plain(quote, *first) {
        return None;
    }
    Some(Element {
        byte: *first,
        count: 1,
    })
}

/// The bytes that a text between these quotes spells, where it spells any.
fn decoded(alloc: Global, quote: u8, inside: &[u8]) -> Mem<Option<Vec<u8>>>
    ensures { IfOk result (λ decoded. MatchOption decoded
        ((bytes : List ℕ) → SpellsBytes quote inside.now bytes → ⊥)
        (λ bytes. SpellsBytes quote inside.now bytes.items)) }
{
    let mut bytes = Vec::new(alloc);
    let mut rest = inside;
    while !rest.is_empty() {
        let Some(element) = element_of(quote, rest) else {
            return Ok(None);
        };
        bytes.push(element.byte)?;
        rest = &rest[element.count..];
    }
    Ok(Some(bytes))
}

/// How many bytes a text between these quotes spells, where it spells any.
fn decoded_count(quote: u8, inside: &[u8]) -> Option<usize>
    ensures { MatchOption result
        ((bytes : List ℕ) → SpellsBytes quote inside.now bytes → ⊥)
        (λ count. (bytes : List ℕ) × SpellsBytes quote inside.now bytes × (length bytes ≡ count)) }
{
    let mut count = 0;
    let mut rest = inside;
    while !rest.is_empty() {
        let element = element_of(quote, rest)?;
        count += 1;
        rest = &rest[element.count..];
    }
    Some(count)
}

/// What stands between the quotes of a text, with its quote.
fn between_quotes(text: &[u8]) -> Option<(u8, &[u8])>
    ensures { MatchOption result
        ((quote : ℕ) (inside : List ℕ) → IsTrue (is_quote quote) → text.now ≡ quote ∷ inside ++ quote ∷ [] → ⊥)
        (λ found. IsTrue (is_quote found.0) × (text.now ≡ found.0 ∷ found.1.now ++ found.0 ∷ [])) }
{
    let (first, rest) = text.split_first()?;
    let (last, inside) = rest.split_last()?;
    if !is_quote(*first) || first != last {
        return None;
    }
    Some((*first, inside))
}

/// The bytes of a character constant or a string literal (C11 6.4.4.4, 6.4.5). None where the text is
/// neither, has an encoding prefix, or has an escape other than a simple one, an octal one or `\x`, or
/// one that stands for more than 255.
pub fn characters(alloc: Global, text: &[u8]) -> Mem<Option<Vec<u8>>>
    ensures { IfOk result (λ decoded. MatchOption decoded
        ((bytes : List ℕ) → Decodes text.now bytes → ⊥)
        (λ bytes. Decodes text.now bytes.items)) }
{
    let Some((quote, inside)) = between_quotes(text) else {
        return Ok(None);
    };
    let Some(bytes) = decoded(alloc, quote, inside)? else {
        return Ok(None);
    };
    if quote == b'\'' && bytes.is_empty() {
        return Ok(None);
    }
    Ok(Some(bytes))
}

/// How many bytes a character constant or a string literal stands for, where `characters` has bytes of
/// it (C11 6.4.4.4, 6.4.5). It takes no memory.
pub fn character_count(text: &[u8]) -> Option<usize>
    ensures { MatchOption result
        ((bytes : List ℕ) → Decodes text.now bytes → ⊥)
        (λ count. (bytes : List ℕ) × Decodes text.now bytes × (length bytes ≡ count)) }
{
    let (quote, inside) = between_quotes(text)?;
    let count = decoded_count(quote, inside)?;
    if quote == b'\'' && count == 0 {
        return None;
    }
    Some(count)
}
