//! How far white space and tokens reach.

ghost use Rattle.std.specs.Prelude.{◌≡◌, ◌<◌, ◌≤◌, ◌==◌, ◌&&◌, ◌||◌, not, true, false, IsTrue, List, [], ℕ, ◌∷◌, ◌++◌, All, IfNone, IfSome, MatchOption, length, slice_index, take, drop};
ghost use Rattle.std.specs.List.{prefix_len};
ghost use Rattle.ct_base.specs.Bytes.{is_digit, is_nondigit, is_name_byte};
ghost use Rattle.ct_token.specs.Bytes.{is_blank, is_newline, is_quote};
ghost use Rattle.ct_token.specs.Lexing.{is_punctuator, all_continue, is_inside, is_prefix, IsToken, IsLongest, HasNoClose, begins_comment};
ghost use Rattle.ct_token.specs.Fronts.{IsFront};
ghost use Rattle.ct_base.specs.declared.lexical.TokenKind.TheVariants.{Char, Text};

use crate::classes::{continues_number, is_blank, is_punctuator};
use ct_base::{TokenKind, is_digit, is_name_byte, is_nondigit};

/// How many bytes a text begins with that go on with a name.
fn name_len(text: &[u8]) -> usize
    ensures { result ≡ prefix_len is_name_byte text.now }
{
    text.iter().take_while(|byte| is_name_byte(**byte)).count()
}

/// How many bytes a text begins with that go on with a number, after the byte before the text.
fn number_len(first: u8, text: &[u8]) -> usize
    ensures within { result ≤ length text.now }
    ensures continues { IsTrue (all_continue first (take result text.now)) }
    ensures longest { (more after : List ℕ) → drop result text.now ≡ more ++ after
        → IsTrue (all_continue first (take result text.now ++ more)) → more ≡ [] }
{
    let mut before = first;
    for (index, byte) in text.iter().enumerate() {
        if !continues_number(before, *byte) {
            return index;
        }
        before = *byte;
    }
    text.len()
}

/// How many bytes stand before the quote that closes a text behind such a quote, where one does. A
/// backslash takes the byte behind it (C11 6.4.4.4, 6.4.5).
fn quoted_len(quote: u8, text: &[u8]) -> Option<usize>
    requires { is_quote quote ≡ true }
    ensures { MatchOption result
        ((inside after : List ℕ) → text.now ≡ inside ++ quote ∷ after → IsTrue (is_inside quote inside) → ⊥)
        (λ count. (count < length text.now) × (slice_index text.now count ≡ quote)
        × IsTrue (is_inside quote (take count text.now))) }
{
    let mut escaped = false;
    for (index, byte) in text.iter().enumerate() {
        if *byte == quote && !escaped {
            return Some(index);
        }
        if *byte == b'\n' {
            return None;
        }
        escaped = *byte == b'\\' && !escaped;
    }
    None
}

/// Whether a byte, and the bytes behind it, begin a preprocessing number (C11 6.4.8).
fn begins_number(first: u8, rest: &[u8]) -> bool
    ensures { result ≡ (is_digit first || ((first == 46) && is_digit (slice_index rest.now 0))) }
{
    match rest.first() {
        Some(second) => is_digit(first) || (first == b'.' && is_digit(*second)),
        None => is_digit(first),
    }
}

/// The character constant or string literal that a quote and the bytes behind it begin, where an
/// encoding prefix may stand before the quote: its kind, and how many bytes it has behind the quote.
fn quoted_at(quote: u8, rest: &[u8]) -> Option<(TokenKind, usize)>
    requires { is_name_byte quote ≡ false }
    ensures within { IfSome result (λ found. found.1 ≤ length rest.now) }
    ensures found { IfSome result (λ found. (prefix : List ℕ) → IsTrue (is_prefix quote prefix)
        → IsLongest found.0 (prefix ++ (quote ∷ take found.1 rest.now)) (drop found.1 rest.now)) }
    ensures none { IfNone result ((prefix more after : List ℕ) → IsTrue (is_prefix quote prefix) → rest.now ≡ more ++ after
        → (IsToken Char (prefix ++ (quote ∷ more)) → ⊥) × (IsToken Text (prefix ++ (quote ∷ more)) → ⊥)) }
{
    match quote {
        b'"' => {
            let count = quoted_len(quote, rest)?;
            Some((TokenKind::Text, count + 1))
        }
        b'\'' => match quoted_len(quote, rest)? {
            0 => None,
            count => Some((TokenKind::Char, count + 1)),
        },
        _ => None,
    }
}

/// Whether a name, of this byte and those behind it, is an encoding prefix before this quote (C11
/// 6.4.4.4, 6.4.5).
fn is_prefix(quote: u8, first: u8, more: &[u8]) -> bool
    ensures { result ≡ is_prefix quote (first ∷ more.now) }
{
    match more {
        [] => matches!(first, b'L' | b'u' | b'U'),
        [digit] => quote == b'"' && first == b'u' && *digit == b'8',
        _ => false,
    }
}

/// The character constant or string literal with an encoding prefix that a letter or `_` and the
/// bytes behind it begin: its kind, and how many bytes it has behind its first.
fn prefixed_at(first: u8, rest: &[u8]) -> Option<(TokenKind, usize)>
    requires { is_nondigit first ≡ true }
    ensures within { IfSome result (λ found. found.1 ≤ length rest.now) }
    ensures found { IfSome result (λ found.
        IsLongest found.0 (first ∷ take found.1 rest.now) (drop found.1 rest.now)) }
    ensures none { IfNone result ((more after : List ℕ) → rest.now ≡ more ++ after
        → (IsToken Char (first ∷ more) → ⊥) × (IsToken Text (first ∷ more) → ⊥)) }
{
    let (name, behind) = rest.split_at(name_len(rest));
    let (quote, inside) = behind.split_first()?;
    if !is_prefix(*quote, first, name) {
        return None;
    }
    let (kind, count) = quoted_at(*quote, inside)?;
    Some((kind, name.len() + 1 + count))
}

/// The longest token that a letter or `_` and the bytes behind it begin: its kind, and how many
/// bytes it has behind its first.
fn named_at(first: u8, rest: &[u8]) -> (TokenKind, usize)
    requires { is_nondigit first ≡ true }
    ensures within { result.1 ≤ length rest.now }
    ensures longest { IsLongest result.0 (first ∷ take result.1 rest.now) (drop result.1 rest.now) }
{
    match prefixed_at(first, rest) {
        Some(found) => found,
        None => (TokenKind::Name, name_len(rest)),
    }
}

/// How many bytes behind its first the longest punctuator has that a byte and those behind it
/// begin.
fn punctuator_len(first: u8, rest: &[u8]) -> Option<usize>
    ensures found { IfSome result (λ count. (count ≤ length rest.now) × IsTrue (is_punctuator (first ∷ take count rest.now))
        × ((more after : List ℕ) → drop count rest.now ≡ more ++ after
        → IsTrue (is_punctuator (first ∷ (take count rest.now ++ more))) → more ≡ [])) }
    ensures none { IfNone result ((more after : List ℕ) → rest.now ≡ more ++ after
        → is_punctuator (first ∷ more) ≡ false) }
{
    let mut longest = None;
    for count in 0..rest.len().min(3) + 1 {
        if is_punctuator(first, &rest[..count]) {
            longest = Some(count);
        }
    }
    longest
}

/// The longest token that a byte other than white space and the bytes behind it begin: its kind,
/// and how many bytes it has behind its first.
fn token_at(first: u8, rest: &[u8]) -> (TokenKind, usize)
    requires { is_blank first ≡ false }
    ensures within { result.1 ≤ length rest.now }
    ensures longest { IsLongest result.0 (first ∷ take result.1 rest.now) (drop result.1 rest.now) }
{
    if is_nondigit(first) {
        named_at(first, rest)
    } else if begins_number(first, rest) {
        (TokenKind::Number, number_len(first, rest))
    } else if let Some(found) = quoted_at(first, rest) {
        found
    } else if first == b'\n' {
        (TokenKind::Line, 0)
    } else if let Some(count) = punctuator_len(first, rest) {
        (TokenKind::Punct, count)
    } else {
        (TokenKind::Other, 0)
    }
}

/// How many bytes a text has up to the first `*/` and with it, where there is one.
fn closed_len(text: &[u8]) -> Option<usize>
    ensures { MatchOption result (HasNoClose text.now) (λ count. (count ≤ length text.now)
        × ((inside : List ℕ) × (take count text.now ≡ inside ++ 42 ∷ 47 ∷ []) × HasNoClose (inside ++ 42 ∷ []))) }
{
    let mut before = 0;
    for (index, byte) in text.iter().enumerate() {
        if before == b'*' && *byte == b'/' {
            return Some(index + 1);
        }
        before = *byte;
    }
    None
}

/// How many bytes stand before the end of a line.
fn line_len(text: &[u8]) -> usize
    ensures { result ≡ prefix_len (λ byte. not (is_newline byte)) text.now }
{
    text.iter().take_while(|byte| **byte != b'\n').count()
}

/// What a text begins with.
pub enum Front {
    /// White space or a comment, with so many bytes behind its first.
    Space(usize),
    /// A comment that is not closed.
    Open,
    /// A token, with so many bytes behind its first.
    Token(TokenKind, usize),
}

/// The comment that a byte and those behind it begin (C11 6.4.9).
fn comment_at(first: u8, rest: &[u8]) -> Option<Front>
    ensures found { IfSome result (IsFront first rest.now) }
    ensures none { IfNone result (begins_comment (first ∷ rest.now) ≡ false) }
{
    if first != b'/' {
        return None;
    }
    let (second, inside) = rest.split_first()?;
    match *second {
        b'*' => match closed_len(inside) {
            Some(count) => Some(Front::Space(count + 1)),
            None => Some(Front::Open),
        },
        b'/' => Some(Front::Space(line_len(inside) + 1)),
        _ => None,
    }
}

/// What a byte and those behind it begin with.
pub fn front_of(first: u8, rest: &[u8]) -> Front
    ensures { IsFront first rest.now result }
{
    if is_blank(first) {
        return Front::Space(0);
    }
    if let Some(comment) = comment_at(first, rest) {
        return comment;
    }
    let (kind, count) = token_at(first, rest);
    Front::Token(kind, count)
}
