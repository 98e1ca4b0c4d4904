//! Scalars, read from the front of bytes.

ghost use Rattle.std.specs.Prelude.{◌≡◌, ◌≤◌, length, false};
ghost use Rattle.ct_yaml.specs.Gives.{Gives};
ghost use Rattle.ct_yaml.specs.Line as line;
ghost use Rattle.ct_yaml.specs.Reading as reading;

use crate::chars::{Unspelled, is_blank, is_flow_plain, is_flow_stop, is_plain, is_stop};
use ct_base::{Bytes, Fail, Out, first_of};
use std::alloc::Global;

/// The text behind an opening single quote, and the bytes behind its closing one.
#[tactic(auto, using(crate::proofs::Onto::onto_rules))]
fn single(alloc: Global, bytes: &[u8]) -> Out<(Bytes, &[u8]), Unspelled>
    ensures { Gives (λ found. (found.0, found.1.now)) result (reading.single_at bytes.now) }
{
    let mut text = Bytes::new(alloc);
    let mut rest = bytes;
    while let Some((byte, more)) = first_of(rest) {
        if byte != b'\'' {
            text.push(byte)?;
            rest = more;
            continue;
        }
        let Some((second, after)) = first_of(more) else {
            return Ok((text, more));
        };
        if second != b'\'' {
            return Ok((text, more));
        }
        text.push(second)?;
        rest = after;
    }
    Err(Fail::Fault(Unspelled))
}

/// What a byte behind a backslash stands for.
fn meaning_of(byte: u8) -> Option<u8>
    ensures { result ≡ reading.meaning_of byte }
{
    match byte {
        b'\\' | b'"' => Some(byte),
        b'n' => Some(b'\n'),
        b't' => Some(b'\t'),
        _ => None,
    }
}

/// The text behind an opening double quote, and the bytes behind its closing one.
#[tactic(auto, using(crate::proofs::Onto::onto_rules))]
fn double(alloc: Global, bytes: &[u8]) -> Out<(Bytes, &[u8]), Unspelled>
    ensures { Gives (λ found. (found.0, found.1.now)) result (reading.double_at bytes.now) }
{
    let mut text = Bytes::new(alloc);
    let mut rest = bytes;
    while let Some((byte, more)) = first_of(rest) {
        if byte == b'"' {
            return Ok((text, more));
        }
        if byte != b'\\' {
            text.push(byte)?;
            rest = more;
            continue;
        }
        let Some((letter, after)) = first_of(more) else {
            return Err(Fail::Fault(Unspelled));
        };
        let Some(meaning) = meaning_of(letter) else {
            return Err(Fail::Fault(Unspelled));
        };
        text.push(meaning)?;
        rest = after;
    }
    Err(Fail::Fault(Unspelled))
}

/// How many bytes a plain scalar has. Blanks in a row are looked at once: where they do not end it at
/// the first of them, they do not end it at the others.
fn plain_len(bytes: &[u8]) -> usize
    ensures value { result ≡ reading.plain_len false bytes.now }
    ensures within { result ≤ length bytes.now }
{
    let mut len = 0;
    let mut spaced = false;
    let mut goes_on = false;
    let mut rest = bytes;
    while let Some((byte, more)) = first_of(rest) {
        if is_stop(goes_on, spaced, rest) {
            return len;
        }
        goes_on = is_blank(byte);
        spaced = byte == b' ';
        rest = more;
        len += 1;
    }
    len
}

fn plain(alloc: Global, bytes: &[u8]) -> Out<(Bytes, &[u8]), Unspelled>
    ensures { Gives (λ found. (found.0, found.1.now)) result
        (reading.cut line.is_plain (reading.plain_len false bytes.now) bytes.now) }
{
    let (text, rest) = bytes.split_at(plain_len(bytes));
    if !is_plain(text) {
        return Err(Fail::Fault(Unspelled));
    }
    Ok((Bytes::from_slice(alloc, text)?, rest))
}

/// The scalar at the front, and the bytes behind it.
#[tactic(auto, unfolding(crate::specs::Reading::scalar_at))]
pub fn scalar(alloc: Global, bytes: &[u8]) -> Out<(Bytes, &[u8]), Unspelled>
    ensures { Gives (λ found. (found.0, found.1.now)) result (reading.scalar_at bytes.now) }
{
    let Some((byte, more)) = first_of(bytes) else {
        return Err(Fail::Fault(Unspelled));
    };
    match byte {
        b'\'' => single(alloc, more),
        b'"' => double(alloc, more),
        _ => plain(alloc, bytes),
    }
}

/// How many bytes a plain scalar of a flow list has. Spaces in a row are looked at once.
fn flow_len(bytes: &[u8]) -> usize
    ensures value { result ≡ reading.flow_len bytes.now }
    ensures within { result ≤ length bytes.now }
{
    let mut len = 0;
    let mut goes_on = false;
    let mut rest = bytes;
    while let Some((byte, more)) = first_of(rest) {
        if !goes_on && is_flow_stop(rest) {
            return len;
        }
        goes_on = byte == b' ';
        rest = more;
        len += 1;
    }
    len
}

fn flow_plain(alloc: Global, bytes: &[u8]) -> Out<(Bytes, &[u8]), Unspelled>
    ensures { Gives (λ found. (found.0, found.1.now)) result
        (reading.cut line.is_flow_plain (reading.flow_len bytes.now) bytes.now) }
{
    let (text, rest) = bytes.split_at(flow_len(bytes));
    if !is_flow_plain(text) {
        return Err(Fail::Fault(Unspelled));
    }
    Ok((Bytes::from_slice(alloc, text)?, rest))
}

/// The scalar of a flow list at the front, and the bytes behind it.
#[tactic(auto, unfolding(crate::specs::Reading::flow_scalar_at))]
pub fn flow_scalar(alloc: Global, bytes: &[u8]) -> Out<(Bytes, &[u8]), Unspelled>
    ensures { Gives (λ found. (found.0, found.1.now)) result (reading.flow_scalar_at bytes.now) }
{
    let Some((byte, more)) = first_of(bytes) else {
        return Err(Fail::Fault(Unspelled));
    };
    match byte {
        b'\'' => single(alloc, more),
        b'"' => double(alloc, more),
        _ => flow_plain(alloc, bytes),
    }
}
