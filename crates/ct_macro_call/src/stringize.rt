//! What `#` makes of an argument.

ghost use Rattle.std.specs.Prelude.{◌≡◌, ◌++◌, IfOk, OnOk};
ghost use Rattle.std.specs.List.{flat_map};
ghost use Rattle.ct_macro_call.specs.Spelled as spec;

use crate::marked::{HideSet, Marked};
use ct_base::{Bytes, Mem, Token, TokenKind};
use std::alloc::Global;

/// Appends bytes as they stand in a string, a quote or a backslash behind a backslash.
fn push_escaped(into: &mut Vec<u8>, bytes: &[u8]) -> Mem<()>
    ensures { OnOk result (into.new.items ≡ into.old.items ++ flat_map spec.escaped_byte bytes.now) }
{
    let mut rest = bytes;
    while let Some((byte, more)) = rest.split_first() {
        if *byte == b'"' || *byte == b'\\' {
            into.push(b'\\')?;
        }
        into.push(*byte)?;
        rest = more;
    }
    Ok(())
}

/// Appends a token as it stands in a string.
fn push_token(into: &mut Vec<u8>, token: &Token) -> Mem<()>
    ensures { OnOk result (into.new.items ≡ into.old.items ++ spec.escaped token.now) }
{
    match token.kind {
        TokenKind::Char | TokenKind::Text => push_escaped(into, token.text.as_slice()),
        _ => {
            into.extend_from_slice(token.text.as_slice())?;
            Ok(())
        }
    }
}

/// Appends tokens, with one space where white space stands before one.
fn push_behind(into: &mut Vec<u8>, tokens: &[Marked]) -> Mem<()>
    ensures { OnOk result (into.new.items ≡ into.old.items ++ spec.spelled_behind tokens.now) }
{
    let mut rest = tokens;
    while let Some((marked, more)) = rest.split_first() {
        if marked.token.spaced {
            into.push(b' ')?;
        }
        push_token(into, &marked.token)?;
        rest = more;
    }
    Ok(())
}

/// Appends the spelling of an argument.
fn push_spelled(into: &mut Vec<u8>, argument: &[Marked]) -> Mem<()>
    ensures { OnOk result (into.new.items ≡ into.old.items ++ spec.spelled argument.now) }
{
    if let Some((first, rest)) = argument.split_first() {
        push_token(into, &first.token)?;
        push_behind(into, rest)?;
    }
    Ok(())
}

/// The string literal in the place of `#` and its parameter (C11 6.10.3.2p2).
pub fn string_of(alloc: Global, hash: &Token, argument: &[Marked]) -> Mem<Marked>
    ensures { IfOk result (λ marked. marked ≡ spec.string_of hash.now argument.now) }
{
    let mut text = Vec::new(alloc);
    text.push(b'"')?;
    push_spelled(&mut text, argument)?;
    text.push(b'"')?;
    Ok(Marked {
        token: Token {
            kind: TokenKind::Text,
            text: Bytes::from_vec(text),
            span: hash.span,
            spaced: hash.spaced,
        },
        hidden: HideSet::new(alloc),
    })
}
