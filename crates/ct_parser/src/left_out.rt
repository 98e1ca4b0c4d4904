//! What is left out of the language: keywords, constants and string literals that no unit may have.

ghost use Rattle.std.specs.Prelude.{MatchOption, All};
ghost use Rattle.std.specs.Bool.{MatchBool};
ghost use Rattle.ct_base.specs.declared.lexical.TokenKind.TheVariants as kind;
ghost use Rattle.ct_parser.specs.Unsupported.{IsUnsupported, IsUnsupportedText, IsFirst};

use ct_base::{Token, TokenKind};
use ct_syntax::is_left_out_word;
use ct_token::{character_count, integer};

/// Whether a text spells no bytes, or other than one.
fn spells_no_character(text: &[u8]) -> bool
    ensures { MatchBool result (IsUnsupportedText kind.Char text.now) (IsUnsupportedText kind.Char text.now → ⊥) }
{
    character_count(text) != Some(1)
}

/// Whether a text spells no bytes.
fn spells_nothing(text: &[u8]) -> bool
    ensures { MatchBool result (IsUnsupportedText kind.Text text.now) (IsUnsupportedText kind.Text text.now → ⊥) }
{
    character_count(text).is_none()
}

/// Whether a token is left out.
fn is_unsupported(token: &Token) -> bool
    ensures { MatchBool result (IsUnsupported token.now) (IsUnsupported token.now → ⊥) }
{
    let text = token.text.as_slice();
    match token.kind {
        TokenKind::Name => is_left_out_word(text),
        TokenKind::Number => integer(text).is_none(),
        TokenKind::Char => spells_no_character(text),
        TokenKind::Text => spells_nothing(text),
        TokenKind::Punct | TokenKind::Other | TokenKind::Line => false,
    }
}

/// The place of the first of these tokens that is left out of the language, counted from 0: a keyword, a
/// number that is no integer constant of 64 bits, a character constant or string literal for which
/// `characters` has no bytes, or a character constant of several bytes. None where there is none. It takes
/// no memory.
pub fn unsupported(tokens: &[Token]) -> Option<usize>
    ensures { MatchOption result (All (λ t. IsUnsupported t → ⊥) tokens.now) (IsFirst tokens.now) }
{
    tokens.iter().position(is_unsupported)
}
