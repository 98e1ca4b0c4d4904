//! The tokens of texts.

use crate::kinds::name_of_kind;
use ct_base::{Fail, Mem, Out, OutOfMemory, Token, TokenKind};
use ct_show_rows::{Row, push_escaped};
use ct_token::{LexFault, tokens};
use std::alloc::Global;

/// The most bytes of a text: it has fewer lines than tokens can say.
const MOST_BYTES: usize = 1_000_000_000;

/// The number of the file of which a text is.
const FILE: u32 = 7;

/// The tokens of a text, whose file has the number 7; a longer text has none.
pub fn tokens_of(alloc: Global, text: &[u8]) -> Out<Vec<Token>, LexFault> {
    if text.len() >= MOST_BYTES {
        return Ok(Vec::new(alloc));
    }
    tokens(alloc, FILE, text)
}

/// The tokens of a text that are no new-lines, where no comment stays open.
pub fn words_of(alloc: Global, text: &[u8]) -> Mem<Option<Vec<Token>>> {
    let all = match tokens_of(alloc, text) {
        Ok(all) => all,
        Err(Fail::Fault(_)) => return Ok(None),
        Err(Fail::OutOfMemory) => return Err(OutOfMemory),
    };
    let mut words = Vec::new(alloc);
    for token in all {
        if token.kind != TokenKind::Line {
            words.push(token)?;
        }
    }
    Ok(Some(words))
}

/// Appends the file, the line, the kind and the text of a token, and `space` where white space stands
/// right before it.
fn push_token(alloc: Global, token: &Token, out: &mut String) -> Mem<()> {
    let place = format!(in alloc; "{}:{} ", token.span.file, token.span.line)?;
    out.push_str(place.as_str())?;
    if token.spaced {
        out.push_str("space ")?;
    }
    out.push_str(name_of_kind(token.kind))?;
    out.push(' ')?;
    push_escaped(token.text.as_slice(), out)?;
    out.push('\n')?;
    Ok(())
}

/// Appends the tokens of a text, one on a line, or the line of a comment that stays open.
pub fn token_outcome(alloc: Global, row: &Row, out: &mut String) -> Mem<()> {
    let text = row.input(alloc)?;
    match tokens_of(alloc, text.as_slice()) {
        Ok(found) => {
            for token in &found {
                push_token(alloc, token, out)?;
            }
            Ok(())
        }
        Err(Fail::Fault(fault)) => {
            let line = format!(in alloc; "a comment of line {} is open", fault.line)?;
            Ok(out.push_str(line.as_str())?)
        }
        Err(Fail::OutOfMemory) => Err(OutOfMemory),
    }
}
