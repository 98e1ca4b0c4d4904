//! The expansion of a list of tokens.

ghost use Rattle.std.specs.Prelude.{◌≡◌, false, IfOk, map};
ghost use Rattle.ct_base.specs.Answers.{IfFault};
ghost use Rattle.ct_macro.specs.Expansion as spec;

use crate::expander::Expander;
use crate::faults::MacroFault;
use crate::table::Macros;
use ct_base::{Items, Mem, Out, Token, TokenKind};
use ct_macro_call::{Marked, Source, copy_token};
use std::alloc::Global;

/// What a list of tokens becomes, and how many tokens were put by replacements, intermediate ones
/// included.
#[derive(Debug, Drop)]
pub struct Expansion {
    pub tokens: Items<Token>,
    pub counted: u64,
}

/// The tokens of a list, each new-line as white space before the next token.
fn unbroken(alloc: Global, tokens: &[Token]) -> Mem<Items<Marked>>
    ensures { IfOk result (λ list. list ≡ spec.unbroken false tokens.now) }
{
    let mut list = Items::new(alloc);
    let mut broken = false;
    let mut rest = tokens;
    while let Some((token, more)) = rest.split_first() {
        if token.kind == TokenKind::Line {
            broken = true;
        } else {
            let mut copy = copy_token(alloc, token)?;
            if broken {
                copy.spaced = true;
            }
            list.push(Marked::unmarked(alloc, copy))?;
            broken = false;
        }
        rest = more;
    }
    Ok(list)
}

/// The tokens alone.
fn stripped(alloc: Global, list: Items<Marked>) -> Mem<Items<Token>>
    ensures { IfOk result (λ tokens. tokens ≡ map (λ marked. marked.token) list) }
{
    let mut source = Source::new(alloc);
    source.put_front(list)?;
    let mut tokens = Items::new(alloc);
    while let Some(marked) = source.next() {
        let Marked { token, hidden: _ } = marked;
        tokens.push(token)?;
    }
    Ok(tokens)
}

/// Expands a list of tokens (C11 6.10.3), where replacements may put so many tokens. New-lines in the
/// list are white space. Tokens of a replacement have the place of the replaced name, and `__LINE__`
/// is the line of its own place. In a condition, what a `defined` modifies stays (C11 6.10.1p4). The
/// first refusal is answered: `Arguments`, `OpenCall`, `BadPaste`, or `TooLong` where more tokens are
/// put.
pub fn expand(
    alloc: Global,
    macros: &Macros,
    tokens: &[Token],
    room: u64,
    condition: bool,
) -> Out<Expansion, MacroFault>
    ensures expansion { IfOk result (λ expansion. spec.IsExpansion condition macros.now tokens.now room expansion.tokens expansion.counted) }
    ensures refusal { IfFault result (λ fault. spec.IsRefusal condition macros.now tokens.now room fault) }
{
    let list = unbroken(alloc, tokens)?;
    let mut expander = Expander::new(alloc, list, condition)?;
    expander.run(alloc, macros, room)?;
    let Expander {
        counted,
        calls: _,
        done,
        rest: _,
        condition: _,
    } = expander;
    let tokens = stripped(alloc, done)?;
    Ok(Expansion { tokens, counted })
}
