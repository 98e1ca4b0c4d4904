//! The lines of a file, and which of them are directives (C11 6.10p2).

ghost use Rattle.std.specs.Prelude.{◌≡◌, IfOk, MatchOption, None, Some};
ghost use Rattle.ct_directive.specs.Lines as spec;

use ct_base::{Items, Mem, Token, TokenKind};
use std::alloc::Global;
use std::mem;

/// Whether a token is a new-line.
fn is_line_end(token: &Token) -> bool
    ensures { result ≡ spec.is_line_end token.now }
{
    token.kind == TokenKind::Line
}

/// `#`, also as a digraph (C11 6.4.6p3).
fn is_hash(token: &Token) -> bool
    ensures { result ≡ spec.is_hash token.now }
{
    token.text.as_slice() == b"#".as_slice() || token.text.as_slice() == b"%:".as_slice()
}

/// The lines that tokens are, each with the new-line that ends it.
#[tactic(auto, using(crate::proofs::Cutting::cutting_rules))]
pub fn lines_of(alloc: Global, tokens: Vec<Token>) -> Mem<Vec<Items<Token>>>
    ensures { IfOk result (λ lines. lines.items ≡ spec.lines_of tokens.items) }
{
    let mut lines = Vec::new(alloc);
    let mut line = Items::new(alloc);
    for token in tokens {
        let ends = is_line_end(&token);
        line.push(token)?;
        if !ends {
            continue;
        }
        lines.push(mem::replace(&mut line, Items::new(alloc)))?;
    }
    if line.is_empty() {
        return Ok(lines);
    }
    lines.push(line)?;
    Ok(lines)
}

/// The tokens of a list that are no new-lines.
pub fn words_of(alloc: Global, tokens: Vec<Token>) -> Mem<Items<Token>>
    ensures { IfOk result (λ words. words ≡ spec.words_of tokens.items) }
{
    let mut words = Items::new(alloc);
    for token in tokens {
        if !is_line_end(&token) {
            words.push(token)?;
        }
    }
    Ok(words)
}

/// The tokens of a line without the new-line that ends it.
#[tactic(auto, using(crate::proofs::Endings::unended_rules))]
fn unended(tokens: &[Token]) -> &[Token]
    ensures { result.now ≡ spec.unended tokens.now }
{
    match tokens.split_last() {
        Some((last, words)) if is_line_end(last) => words,
        _ => tokens,
    }
}

/// The `#` that a directive begins with and the tokens behind it, where a line is a directive.
pub fn directive_in(line: &[Token]) -> Option<(&Token, &[Token])>
    ensures { MatchOption result (spec.directive_in line.now ≡ None) (λ found. spec.directive_in line.now ≡ Some (found.0.now, found.1.now)) }
{
    match line {
        [first, rest @ ..] if is_hash(first) => Some((first, unended(rest))),
        _ => None,
    }
}
