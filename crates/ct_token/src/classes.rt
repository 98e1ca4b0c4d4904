//! The classes of bytes of which tokens are made (C11 6.4).

ghost use Rattle.std.specs.Prelude.{◌≡◌, ◌∷◌, []};
ghost use Rattle.ct_token.specs.Bytes.{is_octal_digit, is_hexadecimal_digit, is_quote, is_blank};
ghost use Rattle.ct_token.specs.Lexing.{is_punctuator, continues_number};

use ct_base::is_name_byte;

/// An octal digit.
pub fn is_octal_digit(byte: u8) -> bool
    ensures { result ≡ is_octal_digit byte }
{
    matches!(byte, b'0'..=b'7')
}

/// A hexadecimal digit.
pub fn is_hexadecimal_digit(byte: u8) -> bool
    ensures { result ≡ is_hexadecimal_digit byte }
{
    matches!(byte, b'0'..=b'9' | b'A'..=b'F' | b'a'..=b'f')
}

/// The quote of a string literal or of a character constant.
pub fn is_quote(byte: u8) -> bool
    ensures { result ≡ is_quote byte }
{
    matches!(byte, b'"' | b'\'')
}

/// White space other than a new-line.
pub fn is_blank(byte: u8) -> bool
    ensures { result ≡ is_blank byte }
{
    matches!(byte, b' ' | b'\t' | 0x0b | 0x0c)
}

/// Whether a byte and the byte behind it are a punctuator of two bytes (C11 6.4.6).
fn is_pair(first: u8, second: u8) -> bool
    ensures { result ≡ is_punctuator (first ∷ second ∷ []) }
{
    (b"<>=!*/%+-&^|".contains(&first) && second == b'=')
        || (b"+-<>&|#".contains(&first) && second == first)
        || (first == b'-' && second == b'>')
        || (first == b'<' && b":%".contains(&second))
        || (first == b'%' && b">:".contains(&second))
        || (first == b':' && second == b'>')
}

/// Whether a byte and the bytes behind it are a punctuator (C11 6.4.6).
pub fn is_punctuator(first: u8, more: &[u8]) -> bool
    ensures { result ≡ is_punctuator (first ∷ more.now) }
{
    match more {
        [] => b"[](){}.&*+-~!/%<>^|?:;=,#".contains(&first),
        [second] => is_pair(first, *second),
        [b'.', b'.'] => first == b'.',
        [second, b'='] => b"<>".contains(&first) && *second == first,
        [b':', b'%', b':'] => first == b'%',
        _ => false,
    }
}

/// Whether a byte goes on with a preprocessing number after the byte before it (C11 6.4.8).
pub fn continues_number(before: u8, byte: u8) -> bool
    ensures { result ≡ continues_number before byte }
{
    let signed = matches!(before, b'e' | b'E' | b'p' | b'P') && matches!(byte, b'+' | b'-');
    is_name_byte(byte) || byte == b'.' || signed
}
