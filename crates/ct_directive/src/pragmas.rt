//! The operator `_Pragma` (C11 6.10.9).

ghost use Rattle.std.specs.Prelude.{◌≡◌, IfOk, codes};
ghost use Rattle.std.specs.List.{list_any};
ghost use Rattle.ct_directive.specs.Forms as spec;

use crate::forms::is;
use ct_base::{Items, Mem, Token, TokenKind};
use ct_macro_call::copy_token;
use std::alloc::Global;

/// Whether these tokens are the operator with its operand.
fn is_pragma(word: &Token, before: &Token, text: &Token, behind: &Token) -> bool
    ensures { result ≡ spec.is_pragma word.now before.now text.now behind.now }
{
    is(b"_Pragma".as_slice(), word)
        && is(b"(".as_slice(), before)
        && text.kind == TokenKind::Text
        && is(b")".as_slice(), behind)
}

/// Copies of tokens without each operator and its operand.
fn left_out(alloc: Global, tokens: &[Token]) -> Mem<Items<Token>>
    ensures { IfOk result (λ words. words ≡ spec.without_pragmas tokens.now) }
{
    let mut words = Items::new(alloc);
    let mut rest = tokens;
    loop {
        match rest {
            [] => return Ok(words),
            [word, before, text, behind, more @ ..] if is_pragma(word, before, text, behind) => {
                rest = more;
            }
            [word, more @ ..] => {
                words.push(copy_token(alloc, word)?)?;
                rest = more;
            }
        }
    }
}

/// Whether the word of the operator stands among tokens.
fn has_word(tokens: &[Token]) -> bool
    ensures { result ≡ list_any (spec.is (codes "_Pragma")) tokens.now }
{
    tokens.iter().any(|token| is(b"_Pragma".as_slice(), token))
}

/// Tokens without each operator and its operand.
pub fn without_pragmas(alloc: Global, tokens: Items<Token>) -> Mem<Items<Token>>
    ensures { IfOk result (λ words. words ≡ spec.without_pragmas tokens) }
{
    if has_word(tokens.as_slice()) {
        left_out(alloc, tokens.as_slice())
    } else {
        Ok(tokens)
    }
}
