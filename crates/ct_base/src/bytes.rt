//! Classes of bytes, and bytes that stand side by side.

ghost use Rattle.std.specs.Prelude.{◌≡◌, [], ◌∷◌, MatchOption};
ghost use Rattle.ct_base.specs.Bytes as spec;

/// The first byte, and those behind it.
pub fn first_of(bytes: &[u8]) -> Option<(u8, &[u8])>
    ensures { MatchOption result (bytes.now ≡ []) (λ found. bytes.now ≡ found.0 ∷ found.1.now) }
{
    let (first, rest) = bytes.split_first()?;
    Some((*first, rest))
}

/// Whether the second byte stands right behind the first somewhere.
pub fn has_pair(first: u8, second: u8, text: &[u8]) -> bool
    ensures { result ≡ spec.has_pair first second text.now }
{
    let mut rest = text;
    while let Some((byte, more)) = first_of(rest) {
        let Some((next, _)) = first_of(more) else {
            return false;
        };
        if byte == first && next == second {
            return true;
        }
        rest = more;
    }
    false
}

/// A letter of ASCII.
pub fn is_letter(byte: u8) -> bool
    ensures { result ≡ spec.is_letter byte }
{
    byte.is_ascii_alphabetic()
}

/// A decimal digit.
pub fn is_digit(byte: u8) -> bool
    ensures { result ≡ spec.is_digit byte }
{
    byte.is_ascii_digit()
}

/// A letter or `_` (C11 6.4.2.1).
pub fn is_nondigit(byte: u8) -> bool
    ensures { result ≡ spec.is_nondigit byte }
{
    is_letter(byte) || byte == b'_'
}

/// A byte of an identifier: a letter, `_` or a digit (C11 6.4.2.1).
pub fn is_name_byte(byte: u8) -> bool
    ensures { result ≡ spec.is_name_byte byte }
{
    is_nondigit(byte) || is_digit(byte)
}
