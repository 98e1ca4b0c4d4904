//! A token in specifiers, by what comes next.

ghost use Rattle.std.specs.Prelude.{◌≡◌, IfOk};
ghost use Rattle.ct_parser_state.specs.Code.{Stepped, stack, scope, specs_mode};
ghost use Rattle.ct_grammar_machine.specs.Steps as m;
ghost use Rattle.ct_parser_state.specs.Terminals.{word_of};
ghost use Rattle.ct_parser_parts.specs.Parts.{parts_built};

use crate::specifiers::{
    enumerated, first_enumerator, next_enumerator, next_member, specs_step, tagged, tagging,
};
use ct_base::{Mem, Token};
use ct_parser_parts::no_specs;
use ct_parser_state::{Mode, ParserState, SpecsMode, Terminal};
use std::alloc::Global;

/// A token in specifiers.
pub fn specs_mode_step(
    alloc: Global,
    state: &mut ParserState,
    mode: SpecsMode,
    terminal: Terminal,
    token: &Token,
) -> Mem<Option<Mode>>
    ensures { IfOk result (λ r. Stepped state.new r (m.step parts_built (scope state.old) (stack state.old) (specs_mode mode) (word_of terminal token.now.text))) }
{
    match mode {
        SpecsMode::Next(specs) => specs_step(alloc, state, specs, terminal, token),
        SpecsMode::Tagging(sort, at, specs) => tagging(
            alloc, state, sort, at, specs, terminal, token,
        ),
        SpecsMode::Tagged(sort, at, specs, tag) => tagged(
            alloc, state, sort, at, specs, tag, terminal, token,
        ),
        SpecsMode::FirstMember => specs_step(
            alloc,
            state,
            no_specs(alloc, token.span),
            terminal,
            token,
        ),
        SpecsMode::NextMember => next_member(alloc, state, terminal, token),
        SpecsMode::FirstEnumerator => first_enumerator(alloc, state, terminal, token),
        SpecsMode::NextEnumerator => next_enumerator(alloc, state, terminal, token),
        SpecsMode::Enumerated(at, name) => enumerated(alloc, state, at, name, terminal),
    }
}
