//! Preprocessing tokens of a text.
#![tactic(auto)]

mod classes;
mod constants;
mod laws;
mod lines;
mod scan;

ghost use Rattle.std.specs.Prelude.{◌≡◌, ℕ, ◌-◌, ◌^◌, ◌<◌, IfOk, length};
ghost use Rattle.ct_token.specs.Lexing.{AreTokens, IsOpenAt, IsTokenization, LeavesOpen};
ghost use Rattle.ct_token.specs.Lines.{newlines};
ghost use Rattle.ct_base.specs.Answers.{IfFault};

pub use crate::constants::{Literal, character_count, characters, integer};
pub use crate::laws::{each_decoding, each_text, one_decoding, one_open_comment, one_tokenization};
use crate::lines::{join_lines, source_characters};
use crate::scan::{Front, front_of};
use ct_base::{Bytes, Fail, Out, Span, Token};
use std::alloc::Global;
use thiserror::Error;

/// A comment that is not closed, by the physical line on which it opens, counted from 1 (C11 6.4.9).
#[derive(Clone, Copy, Debug, PartialEq, Eq, Error)]
#[error("a comment is not closed")]
pub struct LexFault {
    pub line: u32,
}

/// The preprocessing tokens of a text, each new-line outside comments as one of its own (C11
/// 5.1.1.2, 6.4). The text is that of the file with the number `file`. A carriage return right before a
/// new-line belongs to the end of the line. Lines that end in a backslash are joined, and a comment is white space. The line of a span is the physical line of the token's
/// first byte, counted from 1. `LexFault` says that a comment is not closed.
pub fn tokens(alloc: Global, file: u32, bytes: &[u8]) -> Out<Vec<Token>, LexFault>
    requires { newlines bytes.now < 2 ^ 32 - 1 }
    ensures tokens { IfOk result (λ tokens. IsTokenization file bytes.now tokens.items) }
    ensures open { IfFault result (λ fault. LeavesOpen bytes.now fault.line) }
    // So the fault comes exactly where a comment is not closed.
    ensures closed { IfOk result (λ tokens. (line : ℕ) → LeavesOpen bytes.now line → ⊥) }
{
    let characters = source_characters(alloc, bytes)?;
    let joined = join_lines(alloc, characters.as_slice())?;
    cut(
        alloc,
        file,
        joined.bytes.as_slice(),
        joined.lines.as_slice(),
    )
}

/// The preprocessing tokens of a text with joined lines, of whose bytes these are the lines.
fn cut(alloc: Global, file: u32, bytes: &[u8], lines: &[u32]) -> Out<Vec<Token>, LexFault>
    requires { length bytes.now ≡ length lines.now }
    ensures tokens { IfOk result (λ tokens. AreTokens file bytes.now lines.now tokens.items) }
    ensures open { IfFault result (λ fault. IsOpenAt bytes.now lines.now fault.line) }
{
    let mut found = Vec::new(alloc);
    let mut spaced = false;
    let mut rest = bytes;
    loop {
        let Some((first, more)) = rest.split_first() else {
            return Ok(found);
        };
        let line = lines[bytes.len() - rest.len()];
        match front_of(*first, more) {
            Front::Space(count) => {
                spaced = true;
                rest = &more[count..];
            }
            Front::Open => return Err(Fail::Fault(LexFault { line })),
            Front::Token(kind, count) => {
                let (text, after) = rest.split_at(count + 1);
                let text = Bytes::from_slice(alloc, text)?;
                let span = Span { file, line };
                found.push(Token {
                    kind,
                    text,
                    span,
                    spaced,
                })?;
                spaced = false;
                rest = after;
            }
        }
    }
}
