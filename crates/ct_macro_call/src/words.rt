//! The tokens and names that macros know.

ghost use Rattle.std.specs.Prelude.{◌≡◌};
ghost use Rattle.std.specs.Str.{bytes_eq};
ghost use Rattle.ct_macro_call.specs.Words as spec;

use ct_base::{Token, TokenKind};

/// `#`, also as a digraph (C11 6.4.6p3).
pub fn is_hash(token: &Token) -> bool
    ensures { result ≡ spec.is_hash token.now }
{
    token.text.as_slice() == b"#".as_slice() || token.text.as_slice() == b"%:".as_slice()
}

/// `##`, also as a digraph.
pub fn is_paste(token: &Token) -> bool
    ensures { result ≡ spec.is_paste token.now }
{
    token.text.as_slice() == b"##".as_slice() || token.text.as_slice() == b"%:%:".as_slice()
}

/// `(`
pub fn is_open(token: &Token) -> bool
    ensures { result ≡ spec.is_open token.now }
{
    token.text.as_slice() == b"(".as_slice()
}

/// `)`
pub fn is_close(token: &Token) -> bool
    ensures { result ≡ spec.is_close token.now }
{
    token.text.as_slice() == b")".as_slice()
}

/// `,`
pub fn is_comma(token: &Token) -> bool
    ensures { result ≡ spec.is_comma token.now }
{
    token.text.as_slice() == b",".as_slice()
}

/// Whether a token is a name.
pub fn is_name(token: &Token) -> bool
    ensures { result ≡ spec.is_name token.now }
{
    token.kind == TokenKind::Name
}

/// Whether a token is `defined`, which is an operator in a condition (C11 6.10.1p1).
pub fn is_operator(token: &Token) -> bool
    ensures { result ≡ spec.is_operator token.now }
{
    is_name(token) && token.text.as_slice() == b"defined".as_slice()
}

/// Whether a name is `__VA_ARGS__`.
pub fn is_variable(text: &[u8]) -> bool
    ensures { result ≡ bytes_eq text.now spec.variable_arguments }
{
    text == b"__VA_ARGS__".as_slice()
}

/// Whether a name is `__LINE__`.
pub fn is_line(text: &[u8]) -> bool
    ensures { result ≡ bytes_eq text.now spec.line_name }
{
    text == b"__LINE__".as_slice()
}
