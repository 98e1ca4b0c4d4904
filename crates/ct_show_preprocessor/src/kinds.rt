//! The kinds and the texts of tokens.

use ct_base::{Mem, TokenKind};
use ct_show_rows::push_escaped;

/// The name of a kind.
pub fn name_of_kind(kind: TokenKind) -> &'static str {
    match kind {
        TokenKind::Name => "name",
        TokenKind::Number => "number",
        TokenKind::Char => "character",
        TokenKind::Text => "text",
        TokenKind::Punct => "punctuator",
        TokenKind::Line => "line",
        TokenKind::Other => "other",
    }
}

/// Appends the text of a token, with escapes where it is no UTF-8.
pub fn push_text(bytes: &[u8], out: &mut String) -> Mem<()> {
    match str::from_utf8(bytes) {
        Ok(text) => Ok(out.push_str(text)?),
        Err(_) => push_escaped(bytes, out),
    }
}
