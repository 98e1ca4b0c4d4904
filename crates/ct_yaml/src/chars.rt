//! Bytes of a line.

ghost use Rattle.std.specs.Prelude.{◌≡◌, true, false};
ghost use Rattle.std.specs.List.{list_any};
ghost use Rattle.ct_yaml.specs.Line as line;
ghost use Rattle.ct_yaml.specs.Reading as reading;
ghost use Rattle.ct_yaml.specs.Run as run;

use ct_base::{first_of, has_pair};

/// No value, entry or item is spelled so.
#[derive(Clone, Copy, Debug, PartialEq, Eq)]
pub struct Unspelled;

/// Whether a byte is a space or a tab.
pub fn is_blank(byte: u8) -> bool
    ensures { result ≡ line.is_blank byte }
{
    byte == b' ' || byte == b'\t'
}

/// Whether nothing counts on the rest of a line, where it is said whether a space stands before it.
pub fn is_rest(after_space: bool, bytes: &[u8]) -> bool
    ensures { result ≡ line.is_rest after_space bytes.now }
{
    let mut spaced = after_space;
    let mut rest = bytes;
    while let Some((byte, more)) = first_of(rest) {
        if spaced && byte == b'#' {
            return true;
        }
        if !is_blank(byte) {
            return false;
        }
        spaced = byte == b' ';
        rest = more;
    }
    true
}

/// Whether the bytes may follow a value.
pub fn is_end(bytes: &[u8]) -> bool
    ensures { result ≡ line.is_end bytes.now }
{
    is_rest(false, bytes)
}

/// Whether the bytes may follow a key's colon or an item's `-`.
pub fn is_gap(bytes: &[u8]) -> bool
    ensures { result ≡ line.is_gap bytes.now }
{
    match first_of(bytes) {
        None => true,
        Some((byte, _)) => byte == b' ' || is_end(bytes),
    }
}

/// The bytes behind leading spaces.
pub fn skip(bytes: &[u8]) -> &[u8]
    ensures { result.now ≡ reading.skip bytes.now }
{
    let mut rest = bytes;
    while let Some((byte, more)) = first_of(rest) {
        if byte != b' ' {
            return rest;
        }
        rest = more;
    }
    rest
}

/// Whether a tab stands in a line's indentation.
pub fn has_tab_indent(bytes: &[u8]) -> bool
    ensures { result ≡ line.has_tab_indent bytes.now }
{
    let mut rest = bytes;
    while let Some((byte, more)) = first_of(rest) {
        if byte != b' ' {
            return byte == b'\t';
        }
        rest = more;
    }
    false
}

/// Whether a byte begins no plain scalar.
fn is_indicator(byte: u8) -> bool
    ensures { result ≡ line.is_indicator byte }
{
    b"&*!|>%@`'\"[]{}#,".contains(&byte) || byte == b' '
}

/// Whether a byte begins a plain scalar only where it goes on with no space.
fn is_dash_or_question(byte: u8) -> bool
    ensures { result ≡ line.is_dash_or_question byte }
{
    byte == b'-' || byte == b'?'
}

fn begins_plain(text: &[u8]) -> bool
    ensures { result ≡ line.begins_plain text.now }
{
    let Some((byte, more)) = first_of(text) else {
        return false;
    };
    if is_indicator(byte) {
        return false;
    }
    match first_of(more) {
        None => !is_dash_or_question(byte),
        Some((next, _)) => !(is_dash_or_question(byte) && next == b' '),
    }
}

fn ends_plain(text: &[u8]) -> bool
    ensures { result ≡ line.ends_plain text.now }
{
    let mut rest = text;
    while let Some((byte, more)) = first_of(rest) {
        if first_of(more).is_none() {
            return !(byte == b':' || is_blank(byte));
        }
        rest = more;
    }
    false
}

/// Whether a text is a plain scalar.
pub fn is_plain(text: &[u8]) -> bool
    ensures { result ≡ line.is_plain text.now }
{
    begins_plain(text)
        && !has_pair(b':', b' ', text)
        && !has_pair(b' ', b'#', text)
        && ends_plain(text)
}

/// Whether a byte is a comma or a bracket.
pub fn is_flow_mark(byte: u8) -> bool
    ensures { result ≡ line.is_flow_mark byte }
{
    byte == b',' || byte == b'[' || byte == b']'
}

fn has_flow_mark(text: &[u8]) -> bool
    ensures { result ≡ list_any line.is_flow_mark text.now }
{
    let mut rest = text;
    while let Some((byte, more)) = first_of(rest) {
        if is_flow_mark(byte) {
            return true;
        }
        rest = more;
    }
    false
}

/// Whether a text is a plain scalar of a flow list.
pub fn is_flow_plain(text: &[u8]) -> bool
    ensures { result ≡ line.is_flow_plain text.now }
{
    is_plain(text) && !has_flow_mark(text)
}

/// Whether spaces and a comma or a bracket, or nothing, follow.
pub fn is_flow_stop(bytes: &[u8]) -> bool
    ensures { result ≡ reading.is_flow_stop bytes.now }
{
    let mut rest = bytes;
    while let Some((byte, more)) = first_of(rest) {
        if byte != b' ' {
            return is_flow_mark(byte);
        }
        rest = more;
    }
    true
}

/// Whether a plain scalar ends before the bytes, where it is said whether a space stands there, and
/// whether it is known that something that counts follows.
pub fn is_stop(goes_on: bool, after_space: bool, bytes: &[u8]) -> bool
    requires { goes_on ≡ true → line.is_rest after_space bytes.now ≡ false }
    ensures { result ≡ reading.is_stop after_space bytes.now }
{
    match first_of(bytes) {
        None => true,
        Some((byte, more)) => {
            (!goes_on && is_rest(after_space, bytes)) || (byte == b':' && is_gap(more))
        }
    }
}

/// Whether a line counts for nothing.
pub fn is_blank_line(bytes: &[u8]) -> bool
    ensures { result ≡ line.is_blank_line bytes.now }
{
    is_rest(true, bytes)
}

/// Whether a line is three times the byte, and nothing else that counts.
pub fn is_marker(byte: u8, bytes: &[u8]) -> bool
    ensures { result ≡ run.is_marker byte bytes.now }
{
    let Some((first, behind_first)) = first_of(bytes) else {
        return false;
    };
    let Some((second, behind_second)) = first_of(behind_first) else {
        return false;
    };
    let Some((third, rest)) = first_of(behind_second) else {
        return false;
    };
    first == byte && second == byte && third == byte && is_end(rest)
}
