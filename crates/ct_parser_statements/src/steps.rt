//! One token more.

ghost use Rattle.std.specs.Prelude.{◌≡◌, IfOk};
ghost use Rattle.ct_parser_state.specs.Code.{Stepped, stack, scope, mode_of};
ghost use Rattle.ct_grammar_machine.specs.Steps as m;
ghost use Rattle.ct_parser_parts.specs.Parts.{parts_built};
ghost use Rattle.ct_syntax.specs.Words.{word};

use crate::assertions::assert_step;
use crate::endings::statement_step;
use crate::initialisers::init_step;
use ct_base::{Mem, Token};
use ct_parser_declarators::specs_mode_step;
use ct_parser_expressions::{declarator_step, value_step};
use ct_parser_state::{Mode, ParserState, terminal_of};
use std::alloc::Global;

/// A token more, by what comes next: what comes then, or that no tree has the token there.
pub fn step(alloc: Global, state: &mut ParserState, mode: Mode, token: &Token) -> Mem<Option<Mode>>
    ensures { IfOk result (λ r. Stepped state.new r (m.step parts_built (scope state.old) (stack state.old) (mode_of mode) (word token.now))) }
{
    let terminal = terminal_of(token);
    match mode {
        Mode::Value(mode) => value_step(alloc, state, mode, terminal, token),
        Mode::Specs(mode) => specs_mode_step(alloc, state, mode, terminal, token),
        Mode::Declarator(mode) => declarator_step(alloc, state, mode, terminal, token),
        Mode::Init(mode) => init_step(alloc, state, mode, terminal, token),
        Mode::Assert(mode) => assert_step(alloc, state, mode, terminal, token),
        Mode::Statement(mode) => statement_step(alloc, state, mode, terminal, token),
    }
}
