//! Which terminal it is.

ghost use Rattle.std.specs.Prelude.{◌≡◌};
ghost use Rattle.ct_grammar_machine.specs.Steps.{is_label as spec_label};
ghost use Rattle.ct_parser_state.specs.Terminals.{word_of};
ghost use Rattle.ct_parser_statements.specs.Tests.{is_if as spec_if, is_assertion as spec_assertion, is_semicolon as spec_semicolon, is_close_brace as spec_close_brace, is_open_bracket as spec_open_bracket, is_dot as spec_dot};
ghost use Rattle.ct_syntax.specs.Words.{Text};

use ct_parser_state::Terminal;
use ct_syntax::{Keyword, Mark, MemberOp};

/// Whether it is `if`.
pub fn is_if(terminal: Terminal) -> bool
    ensures { (text : Text) → result ≡ spec_if (word_of terminal text) }
{
    matches!(terminal, Terminal::Keyword(Keyword::If))
}

/// Whether it begins an assertion.
pub fn is_assertion(terminal: Terminal) -> bool
    ensures { (text : Text) → result ≡ spec_assertion (word_of terminal text) }
{
    matches!(terminal, Terminal::Keyword(Keyword::StaticAssert))
}

/// Whether it begins a label.
pub fn is_label(terminal: Terminal) -> bool
    ensures { (text : Text) → result ≡ spec_label (word_of terminal text) }
{
    matches!(
        terminal,
        Terminal::Keyword(Keyword::Case) | Terminal::Keyword(Keyword::Default)
    )
}

/// Whether it is `;`.
pub fn is_semicolon(terminal: Terminal) -> bool
    ensures { (text : Text) → result ≡ spec_semicolon (word_of terminal text) }
{
    matches!(terminal, Terminal::Mark(Mark::Semicolon))
}

/// Whether it is `}`.
pub fn is_close_brace(terminal: Terminal) -> bool
    ensures { (text : Text) → result ≡ spec_close_brace (word_of terminal text) }
{
    matches!(terminal, Terminal::Mark(Mark::CloseBrace))
}

/// Whether it is `[`.
pub fn is_open_bracket(terminal: Terminal) -> bool
    ensures { (text : Text) → result ≡ spec_open_bracket (word_of terminal text) }
{
    matches!(terminal, Terminal::Mark(Mark::OpenBracket))
}

/// Whether it is `.`.
pub fn is_dot(terminal: Terminal) -> bool
    ensures { (text : Text) → result ≡ spec_dot (word_of terminal text) }
{
    matches!(terminal, Terminal::Mark(Mark::Member(MemberOp::Dot)))
}
