//! The size of an array in a declarator, token by token (C11 6.7.6.2).

ghost use Rattle.std.specs.Prelude.{◌≡◌, ◌∷◌, IfOk};
ghost use Rattle.ct_parser_state.specs.Code.{Stepped, stack, scope, kind_of};
ghost use Rattle.ct_grammar_machine.specs.Frames.{InArray};
ghost use Rattle.ct_grammar_machine.specs.Steps as m;
ghost use Rattle.ct_parser_state.specs.Terminals.{word_of};
ghost use Rattle.ct_parser_parts.specs.Parts.{parts_built};
ghost use Rattle.ct_parser_parts.specs.Views.{declarator_part};

use crate::values::begin;
use ct_base::{Mem, Token};
use ct_parser_declarators::is_close_bracket;
use ct_parser_parts as parts;
use ct_parser_parts::DeclaratorPart;
use ct_parser_state::{DeclaratorMode, Frame, Mode, ParserState, Purpose, Terminal, ValueFrame};
use std::alloc::Global;

/// The size of an array, from its first token on.
fn size_begins(
    alloc: Global,
    state: &mut ParserState,
    purpose: Purpose,
    inner: DeclaratorPart,
    terminal: Terminal,
    token: &Token,
) -> Mem<Option<Mode>>
    ensures { IfOk result (λ r. Stepped state.new r (m.begin parts_built (scope state.old) (InArray (kind_of purpose) (declarator_part inner) ∷ stack state.old) (word_of terminal token.now.text))) }
{
    state.push(Frame::Value(ValueFrame::Array(purpose, inner)))?;
    begin(alloc, state, terminal, token)
}

/// A token behind the open bracket of a declarator.
pub fn sizing(
    alloc: Global,
    state: &mut ParserState,
    purpose: Purpose,
    inner: DeclaratorPart,
    terminal: Terminal,
    token: &Token,
) -> Mem<Option<Mode>>
    ensures { IfOk result (λ r. Stepped state.new r (m.sizing parts_built (scope state.old) (stack state.old) (kind_of purpose) (declarator_part inner) (word_of terminal token.now.text))) }
{
    if is_close_bracket(terminal) {
        let array = parts::array_open(alloc, inner)?;
        return Ok(Some(Mode::Declarator(DeclaratorMode::Have(purpose, array))));
    }
    size_begins(alloc, state, purpose, inner, terminal, token)
}
