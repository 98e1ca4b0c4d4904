//! The forms of directives (C11 6.10).

ghost use Rattle.std.specs.Prelude.{◌≡◌, IfOk};
ghost use Rattle.std.specs.Option.{option_copied};
ghost use Rattle.ct_directive.specs.Forms as spec;

use ct_base::{Bytes, Items, Mem, Token, TokenKind};
use ct_macro_call::copy_token;
use std::alloc::Global;

/// A header name, and whether it stands in quotes (C11 6.10.2).
#[derive(Debug, Drop)]
pub struct Header {
    pub name: Bytes,
    pub quoted: bool,
}

/// Whether a token is a name.
pub fn is_name(token: &Token) -> bool
    ensures { result ≡ spec.is_name token.now }
{
    token.kind == TokenKind::Name
}

/// Whether a token is spelled so.
pub fn is(text: &[u8], token: &Token) -> bool
    ensures { result ≡ spec.is text.now token.now }
{
    token.text.as_slice() == text
}

/// Whether no directive may define or take away a name (C11 6.10.8p2).
pub fn is_protected(name: &[u8]) -> bool
    ensures { result ≡ spec.is_protected name.now }
{
    name == b"defined".as_slice()
        || name == b"__LINE__".as_slice()
        || name == b"__FILE__".as_slice()
        || name == b"__STDC__".as_slice()
        || name == b"__STDC_VERSION__".as_slice()
}

/// The one name that `#ifdef` and `#ifndef` ask for (C11 6.10.1).
pub fn one_name(tokens: &[Token]) -> Option<&[u8]>
    ensures { option_copied result ≡ spec.one_name tokens.now }
{
    match tokens {
        [token] if is_name(token) => Some(token.text.as_slice()),
        _ => None,
    }
}

/// The name that `#undef` takes away (C11 6.10.3.5).
pub fn undefined_name(tokens: &[Token]) -> Option<&[u8]>
    ensures { option_copied result ≡ spec.undefined_name tokens.now }
{
    match tokens {
        [token] if is_name(token) && !is_protected(token.text.as_slice()) => {
            Some(token.text.as_slice())
        }
        _ => None,
    }
}

/// The first token that is no preprocessing token.
pub fn first_other(tokens: &[Token]) -> Option<&Token>
    ensures { option_copied result ≡ spec.first_other tokens.now }
{
    let mut rest = tokens;
    while let Some((token, more)) = rest.split_first() {
        if token.kind == TokenKind::Other {
            return Some(token);
        }
        rest = more;
    }
    None
}

/// Copies of tokens.
pub fn copies(alloc: Global, tokens: &[Token]) -> Mem<Items<Token>>
    ensures { IfOk result (λ copies. copies ≡ tokens.now) }
{
    let mut copies = Items::new(alloc);
    let mut rest = tokens;
    while let Some((token, more)) = rest.split_first() {
        copies.push(copy_token(alloc, token)?)?;
        rest = more;
    }
    Ok(copies)
}

/// The bytes of tokens, with a space where white space stands between two.
fn spelling(alloc: Global, tokens: &[Token]) -> Mem<Bytes>
    ensures { IfOk result (λ text. text ≡ spec.spelling tokens.now) }
{
    let mut text = Vec::new(alloc);
    if let Some((first, more)) = tokens.split_first() {
        text.extend_from_slice(first.text.as_slice())?;
        let mut rest = more;
        while let Some((token, behind)) = rest.split_first() {
            if token.spaced {
                text.push(b' ')?;
            }
            text.extend_from_slice(token.text.as_slice())?;
            rest = behind;
        }
    }
    Ok(Bytes::from_vec(text))
}

/// The name between two bytes, of which the second does not stand in it.
#[tactic(auto, using(crate::proofs::Names::name_rules))]
fn name_between(first: u8, last: u8, text: &[u8]) -> Option<&[u8]>
    ensures { option_copied result ≡ spec.name_between first last text.now }
{
    let (begin, rest) = text.split_first()?;
    let (end, name) = rest.split_last()?;
    if *begin != first {
        return None;
    }
    if *end != last {
        return None;
    }
    if name.is_empty() {
        return None;
    }
    if name.contains(&last) {
        return None;
    }
    Some(name)
}

/// The header name that one token in quotes is.
pub fn quoted_header(alloc: Global, tokens: &[Token]) -> Mem<Option<Header>>
    ensures { IfOk result (λ header. header ≡ spec.quoted_header tokens.now) }
{
    let [token] = tokens else {
        return Ok(None);
    };
    if token.kind != TokenKind::Text {
        return Ok(None);
    }
    match name_between(b'"', b'"', token.text.as_slice()) {
        Some(name) => Ok(Some(Header {
            name: Bytes::from_slice(alloc, name)?,
            quoted: true,
        })),
        None => Ok(None),
    }
}

/// The header name that tokens in angle brackets are.
fn bracketed_header(alloc: Global, tokens: &[Token]) -> Mem<Option<Header>>
    ensures { IfOk result (λ header. header ≡ spec.bracketed_header tokens.now) }
{
    let text = spelling(alloc, tokens)?;
    match name_between(b'<', b'>', text.as_slice()) {
        Some(name) => Ok(Some(Header {
            name: Bytes::from_slice(alloc, name)?,
            quoted: false,
        })),
        None => Ok(None),
    }
}

/// The header name that tokens are, as they stand.
pub fn header_in(alloc: Global, tokens: &[Token]) -> Mem<Option<Header>>
    ensures { IfOk result (λ header. header ≡ spec.header_in tokens.now) }
{
    match quoted_header(alloc, tokens)? {
        Some(header) => Ok(Some(header)),
        None => bracketed_header(alloc, tokens),
    }
}
