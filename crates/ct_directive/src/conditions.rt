//! The operator `defined` (C11 6.10.1).

ghost use Rattle.std.specs.Prelude.{◌≡◌, IfOk};
ghost use Rattle.ct_directive.specs.Forms as spec;

use crate::forms::{is, is_name};
use ct_base::{Bytes, Items, Mem, Token, TokenKind};
use ct_macro::Macros;
use ct_macro_call::copy_token;
use std::alloc::Global;

/// Whether a name is defined; `__LINE__` always is.
pub fn is_defined(macros: &Macros, name: &[u8]) -> bool
    ensures { result ≡ spec.is_defined macros.now name.now }
{
    name == b"__LINE__".as_slice() || macros.get(name).is_some()
}

fn is_operator(token: &Token) -> bool
    ensures { result ≡ spec.is_operator token.now }
{
    is_name(token) && is(b"defined".as_slice(), token)
}

/// The number that `defined` and its name stand for.
fn defined_number(alloc: Global, macros: &Macros, word: &Token, name: &[u8]) -> Mem<Token>
    ensures { IfOk result (λ number. number ≡ spec.defined_number macros.now word.now name.now) }
{
    let text = if is_defined(macros, name) { b"1" } else { b"0" };
    Ok(Token {
        kind: TokenKind::Number,
        text: Bytes::from_slice(alloc, text.as_slice())?,
        span: word.span,
        spaced: word.spaced,
    })
}

/// Tokens with each `defined NAME` and `defined ( NAME )` as a number.
pub fn without_defined(alloc: Global, macros: &Macros, tokens: &[Token]) -> Mem<Items<Token>>
    ensures { IfOk result (λ words. words ≡ spec.without_defined macros.now tokens.now) }
{
    let mut words = Items::new(alloc);
    let mut rest = tokens;
    loop {
        match rest {
            [] => return Ok(words),
            [word, name, more @ ..] if is_operator(word) && is_name(name) => {
                words.push(defined_number(alloc, macros, word, name.text.as_slice())?)?;
                rest = more;
            }
            [word, open, name, close, more @ ..]
                if is_operator(word)
                    && is(b"(".as_slice(), open)
                    && is_name(name)
                    && is(b")".as_slice(), close) => {
                words.push(defined_number(alloc, macros, word, name.text.as_slice())?)?;
                rest = more;
            }
            [word, more @ ..] => {
                words.push(copy_token(alloc, word)?)?;
                rest = more;
            }
        }
    }
}

/// Whether `defined` stands among tokens.
pub fn has_operator(tokens: &[Token]) -> bool
    ensures { result ≡ spec.has_operator tokens.now }
{
    tokens.iter().any(|token| is_operator(token))
}
