//! A token, by what comes next.

ghost use Rattle.std.specs.Prelude.{◌≡◌, IfOk};
ghost use Rattle.ct_parser_state.specs.Code.{Stepped, stack, scope, value_mode, declarator_mode};
ghost use Rattle.ct_grammar_machine.specs.Steps as m;
ghost use Rattle.ct_parser_state.specs.Terminals.{word_of};
ghost use Rattle.ct_parser_parts.specs.Parts.{parts_built};

use crate::sizes::sizing;
use crate::values::{after, begin, dotted, first, texts};
use ct_base::{Mem, Token};
use ct_parser_declarators::{
    after_ellipsis, have_declarator, listing, next_parameter, opened, qualify, want_declarator,
};
use ct_parser_state::{DeclaratorMode, Mode, ParserState, Terminal, ValueMode};
use std::alloc::Global;

/// A token in an expression.
pub fn value_step(
    alloc: Global,
    state: &mut ParserState,
    mode: ValueMode,
    terminal: Terminal,
    token: &Token,
) -> Mem<Option<Mode>>
    ensures { IfOk result (λ r. Stepped state.new r (m.step parts_built (scope state.old) (stack state.old) (value_mode mode) (word_of terminal token.now.text))) }
{
    match mode {
        ValueMode::Want => begin(alloc, state, terminal, token),
        ValueMode::Have(x) => after(alloc, state, x, terminal),
        ValueMode::Texts(at, text, more) => texts(alloc, state, at, text, more, terminal, token),
        ValueMode::First(function) => first(alloc, state, function, terminal, token),
        ValueMode::Dotted(whole, op) => dotted(alloc, state, whole, op, terminal, token),
    }
}

/// A token in a declarator.
pub fn declarator_step(
    alloc: Global,
    state: &mut ParserState,
    mode: DeclaratorMode,
    terminal: Terminal,
    token: &Token,
) -> Mem<Option<Mode>>
    ensures { IfOk result (λ r. Stepped state.new r (m.step parts_built (scope state.old) (stack state.old) (declarator_mode mode) (word_of terminal token.now.text))) }
{
    match mode {
        DeclaratorMode::Want(purpose) => want_declarator(alloc, state, purpose, terminal, token),
        DeclaratorMode::Qualifying(at, purpose, before) => qualify(
            alloc, state, at, purpose, before, terminal, token,
        ),
        DeclaratorMode::Opened(at, purpose) => opened(alloc, state, at, purpose, terminal, token),
        DeclaratorMode::Have(purpose, inner) => have_declarator(
            alloc, state, purpose, inner, terminal, token.span,
        ),
        DeclaratorMode::Sizing(purpose, inner) => sizing(
            alloc, state, purpose, inner, terminal, token,
        ),
        DeclaratorMode::Listing(purpose, inner) => listing(
            alloc, state, purpose, inner, terminal, token,
        ),
        DeclaratorMode::NextParameter => next_parameter(alloc, state, terminal, token),
        DeclaratorMode::AfterEllipsis => after_ellipsis(alloc, state, terminal),
    }
}
