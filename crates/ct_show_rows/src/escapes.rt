//! Escapes in the input lines of tables.

use ct_base::Mem;

/// What is read of a line with escapes: the state behind a backslash.
#[derive(Clone, Copy, Debug, PartialEq, Eq)]
enum State {
    /// Outside an escape.
    Plain,
    /// Behind a backslash.
    Backslash,
    /// Behind `\x`.
    Hex,
    /// Behind `\x` and a digit of this value.
    HexDigit(u8),
}

/// The value of a hexadecimal digit; 0 for any other byte.
fn digit_of(byte: u8) -> u8 {
    match byte {
        b'0'..=b'9' => byte - b'0',
        b'a'..=b'f' => byte - b'a' + 10,
        b'A'..=b'F' => byte - b'A' + 10,
        _ => 0,
    }
}

/// The byte of a simple escape: `n`, `r`, `t`, and any other byte itself.
fn simple(byte: u8) -> u8 {
    match byte {
        b'n' => b'\n',
        b'r' => b'\r',
        b't' => b'\t',
        _ => byte,
    }
}

/// Takes a byte, and gives the next state.
fn step(state: State, byte: u8, out: &mut Vec<u8>) -> Mem<State> {
    match state {
        State::Plain => {
            if byte == b'\\' {
                return Ok(State::Backslash);
            }
            out.push(byte)?;
            Ok(State::Plain)
        }
        State::Backslash => {
            if byte == b'x' {
                return Ok(State::Hex);
            }
            out.push(simple(byte))?;
            Ok(State::Plain)
        }
        State::Hex => Ok(State::HexDigit(digit_of(byte))),
        State::HexDigit(first) => {
            out.push(first.wrapping_mul(16).wrapping_add(digit_of(byte)))?;
            Ok(State::Plain)
        }
    }
}

/// Appends a line whose escapes `\n`, `\r`, `\t`, `\\` and `\xHH` are replaced.
pub fn push_unescaped(line: &[u8], out: &mut Vec<u8>) -> Mem<()> {
    let mut state = State::Plain;
    for byte in line {
        state = step(state, *byte, out)?;
    }
    Ok(())
}

/// Appends a hexadecimal digit of this value.
fn push_digit(value: u8, out: &mut String) -> Mem<()> {
    match char::from_digit(u32::from(value), 16) {
        Some(digit) => Ok(out.push(digit)?),
        None => Ok(()),
    }
}

/// Appends a byte, by an escape where it is a backslash or no printable character of ASCII.
fn push_byte(byte: u8, out: &mut String) -> Mem<()> {
    match byte {
        b'\n' => out.push_str("\\n")?,
        b'\r' => out.push_str("\\r")?,
        b'\t' => out.push_str("\\t")?,
        b'\\' => out.push_str("\\\\")?,
        b' '..=b'~' => out.push(char::from(byte))?,
        _ => {
            out.push_str("\\x")?;
            push_digit(byte / 16, out)?;
            push_digit(byte % 16, out)?;
        }
    }
    Ok(())
}

/// Appends bytes, with escapes for backslashes and for what is no printable character of ASCII.
pub fn push_escaped(bytes: &[u8], out: &mut String) -> Mem<()> {
    for byte in bytes {
        push_byte(*byte, out)?;
    }
    Ok(())
}
