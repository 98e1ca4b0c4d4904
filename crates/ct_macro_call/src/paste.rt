//! What `##` makes of two tokens.

ghost use Rattle.std.specs.Prelude.{◌≡◌, ◌∷◌, [], IfOk, MatchOption};
ghost use Rattle.ct_base.specs.declared.lexical.Token.{Token};
ghost use Rattle.ct_base.specs.declared.lexical.TokenKind.{TokenKind};
ghost use Rattle.ct_macro_call.specs.declared.marked.Marked.{Marked};
ghost use Rattle.ct_macro_call.specs.Spelled as spec;

use crate::marked::Marked;
use ct_base::{Bytes, Fail, Mem, OutOfMemory, Token, TokenKind};
use ct_token::{one_open_comment, one_tokenization, tokens};
use std::alloc::Global;

/// The kind of the only token of a list, where its bytes are this text.
fn only_kind(found: &[Token], text: &[u8]) -> Option<TokenKind>
    ensures { MatchOption result ((token : Token) → found.now ≡ token ∷ [] → token.text ≡ text.now → ⊥)
        (λ kind. (token : Token) × (found.now ≡ token ∷ []) × (token.text ≡ text.now) × (token.kind ≡ kind)) }
{
    let (only, more) = found.split_first()?;
    if more.is_empty() && only.text.as_slice() == text {
        Some(only.kind)
    } else {
        None
    }
}

/// The kind of the one token that a text is, where it is one.
fn one_kind(alloc: Global, text: &[u8]) -> Mem<Option<TokenKind>>
    ensures { IfOk result (λ found. MatchOption found ((kind : TokenKind) → spec.IsOneToken text.now kind → ⊥)
        (λ kind. spec.IsOneToken text.now kind)) }
{
    if text.len() >= 0xffff_ffff {
        return Err(OutOfMemory);
    }
    one_tokenization();
    one_open_comment();
    match tokens(alloc, 0, text) {
        Ok(found) => Ok(only_kind(found.as_slice(), text)),
        Err(Fail::OutOfMemory) => Err(OutOfMemory),
        Err(Fail::Fault(_)) => Ok(None),
    }
}

/// A token with white space before it or not.
pub fn respaced(spaced: bool, marked: Marked) -> Marked
    ensures { result ≡ spec.respaced spaced marked }
{
    let mut marked = marked;
    marked.token.spaced = spaced;
    marked
}

/// The token that two make, where they make one.
pub fn paste(alloc: Global, left: Marked, right: Marked) -> Mem<Option<Marked>>
    ensures { IfOk result (λ found. MatchOption found ((pasted : Marked) → spec.Pastes left right pasted → ⊥)
        (λ pasted. spec.Pastes left right pasted)) }
{
    if left.token.text.is_empty() {
        return Ok(Some(respaced(left.token.spaced, right)));
    }
    if right.token.text.is_empty() {
        return Ok(Some(left));
    }
    let mut text = Vec::from_slice(alloc, left.token.text.as_slice())?;
    text.extend_from_slice(right.token.text.as_slice())?;
    let Some(kind) = one_kind(alloc, text.as_slice())? else {
        return Ok(None);
    };
    let hidden = left.hidden.common(alloc, &right.hidden)?;
    Ok(Some(Marked {
        token: Token {
            kind,
            text: Bytes::from_vec(text),
            span: left.token.span,
            spaced: left.token.spaced,
        },
        hidden,
    }))
}
