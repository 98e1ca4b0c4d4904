//! Assertions, token by token, behind their comma (C11 6.7.10).

ghost use Rattle.std.specs.Prelude.{◌≡◌, IfOk};
ghost use Rattle.ct_parser_state.specs.Code.{Stepped, stack, scope, assert_mode};
ghost use Rattle.ct_grammar_machine.specs.Steps as m;
ghost use Rattle.ct_parser_state.specs.Terminals.{word_of};
ghost use Rattle.ct_parser_parts.specs.Parts.{parts_built};
ghost use Rattle.ct_parser_parts.specs.Views.{expr_of};
ghost use Rattle.ct_syntax.specs.Words.{Text};

use ct_base::{Bytes, Mem, Span, Token};
use ct_parser_declarators::declaration_done;
use ct_parser_parts::{ExprPart, static_assert};
use ct_parser_state::{AssertMode, Mode, ParserState, Terminal};
use ct_syntax::Mark;
use std::alloc::Global;

/// The text of an assertion.
fn assert_text(
    alloc: Global,
    state: &mut ParserState,
    at: Span,
    condition: ExprPart,
    terminal: Terminal,
    token: &Token,
) -> Mem<Option<Mode>>
    ensures { IfOk result (λ r. Stepped state.new r (m.assert_text parts_built (scope state.old) (stack state.old) (expr_of condition) (word_of terminal token.now.text))) }
{
    if !matches!(terminal, Terminal::Text) {
        return Ok(None);
    }
    let text = Bytes::from_slice(alloc, token.text.as_slice())?;
    Ok(Some(Mode::Assert(AssertMode::Close(at, condition, text))))
}

/// The closing parenthesis of an assertion.
fn assert_close(
    state: &mut ParserState,
    at: Span,
    condition: ExprPart,
    words: Bytes,
    terminal: Terminal,
) -> Mem<Option<Mode>>
    ensures { IfOk result (λ r. (text : Text) → Stepped state.new r (m.assert_close parts_built (scope state.old) (stack state.old) (expr_of condition) words (word_of terminal text))) }
{
    if !matches!(terminal, Terminal::Mark(Mark::Close)) {
        return Ok(None);
    }
    Ok(Some(Mode::Assert(AssertMode::End(at, condition, words))))
}

/// The semicolon of an assertion.
fn assert_end(
    state: &mut ParserState,
    at: Span,
    condition: ExprPart,
    words: Bytes,
    terminal: Terminal,
) -> Mem<Option<Mode>>
    ensures { IfOk result (λ r. (text : Text) → Stepped state.new r (m.assert_end parts_built (scope state.old) (stack state.old) (expr_of condition) words (word_of terminal text))) }
{
    if !matches!(terminal, Terminal::Mark(Mark::Semicolon)) {
        return Ok(None);
    }
    declaration_done(state, static_assert(at, condition, words)?)
}

/// A token in an assertion.
pub fn assert_step(
    alloc: Global,
    state: &mut ParserState,
    mode: AssertMode,
    terminal: Terminal,
    token: &Token,
) -> Mem<Option<Mode>>
    ensures { IfOk result (λ r. Stepped state.new r (m.step parts_built (scope state.old) (stack state.old) (assert_mode mode) (word_of terminal token.now.text))) }
{
    match mode {
        AssertMode::Text(at, condition) => assert_text(
            alloc, state, at, condition, terminal, token,
        ),
        AssertMode::Close(at, condition, text) => assert_close(
            state, at, condition, text, terminal,
        ),
        AssertMode::End(at, condition, text) => assert_end(state, at, condition, text, terminal),
    }
}
