//! The characters of a text, and the text with joined lines (C11 5.1.1.2, the first two phases of translation).

ghost use Rattle.std.specs.Prelude.{◌≡◌, ◌-◌, ◌^◌, ◌<◌, ◌&&◌, ◌==◌, ◌∷◌, [], IfOk, slice_index};
ghost use Rattle.ct_token.specs.Bytes.{is_newline};
ghost use Rattle.ct_token.specs.Lines.{newlines, source_characters, joined_bytes, joined_lines};

use ct_base::Mem;
use std::alloc::Global;

/// A text with joined lines: its bytes, and the physical line of each, counted from 1.
#[derive(Drop)]
pub struct Joined {
    pub bytes: Vec<u8>,
    pub lines: Vec<u32>,
}

/// Whether a byte is a carriage return right before a new-line.
fn is_return(byte: u8, after: &[u8]) -> bool
    ensures { result ≡ ((byte == 13) && is_newline (slice_index after.now 0)) }
{
    byte == b'\r' && matches!(after, [b'\n', ..])
}

/// The text without each carriage return that stands right before a new-line.
pub fn source_characters(alloc: Global, text: &[u8]) -> Mem<Vec<u8>>
    ensures { IfOk result (λ characters. characters.items ≡ source_characters text.now) }
{
    let mut characters = Vec::new(alloc);
    let mut rest = text;
    while let Some((byte, after)) = rest.split_first() {
        rest = after;
        if is_return(*byte, after) {
            continue;
        }
        characters.push(*byte)?;
    }
    Ok(characters)
}

/// Whether a byte is a backslash right before a new-line.
fn is_joint(byte: u8, after: &[u8]) -> bool
    ensures { result ≡ ((byte == 92) && is_newline (slice_index after.now 0)) }
{
    byte == b'\\' && matches!(after, [b'\n', ..])
}

/// How many lines end in a byte: one where it is a new-line.
fn newlines_in(byte: u8) -> u32
    ensures { result ≡ newlines (byte ∷ []) }
{
    if byte == b'\n' { 1 } else { 0 }
}

/// The text without each backslash that stands right before a new-line, and without that new-line.
pub fn join_lines(alloc: Global, text: &[u8]) -> Mem<Joined>
    requires { newlines text.now < 2 ^ 32 - 1 }
    ensures bytes { IfOk result (λ joined. joined.bytes.items ≡ joined_bytes text.now) }
    ensures lines { IfOk result (λ joined. joined.lines.items ≡ joined_lines text.now) }
{
    let mut bytes = Vec::new(alloc);
    let mut lines = Vec::new(alloc);
    let mut line = 1;
    let mut rest = text;
    loop {
        let Some((byte, after)) = rest.split_first() else {
            return Ok(Joined { bytes, lines });
        };
        if is_joint(*byte, after) {
            line += 1;
            rest = &after[1..];
        } else {
            bytes.push(*byte)?;
            lines.push(line)?;
            line += newlines_in(*byte);
            rest = after;
        }
    }
}
