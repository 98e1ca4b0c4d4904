//! Items, one by one.

ghost use Rattle.std.specs.Prelude.{◌≡◌, ◌<◌, ◌≤◌, [], ◌∷◌, false, length, drop, IfOk, MatchOption, Some, None};
ghost use Rattle.ct_parser_state.specs.Code.{entries, frames, stack, scope, mode_of};
ghost use Rattle.ct_grammar_machine.specs.Frames.{InUnit, Begin};
ghost use Rattle.ct_grammar_machine.specs.Reading.{is_begin as spec_begin, is_between as spec_between, read_item as spec_read};
ghost use Rattle.ct_parser_parts.specs.Parts.{parts_built};
ghost use Rattle.ct_parser_parts.specs.Views.{items_part};
ghost use Rattle.ct_grammar_machine.specs.Steps.{step as spec_step};
ghost use Rattle.ct_syntax.specs.Words.{word, words};
ghost use Rattle.ct_parser.specs.Progress.{Proceeds};

use ct_base::{Mem, Token};
use ct_parser_parts::{Built, no_items};
use ct_parser_state::{BodyFrame, Frame, Mode, ParserState, StatementMode};
use ct_parser_statements::step;
use ct_syntax::Item;
use std::alloc::Global;

/// An item: what is built of it, and the place behind it.
#[derive(Drop)]
pub struct ItemRead {
    pub built: Built<Vec<Item>>,
    pub next: usize,
}

/// Whether a statement, or what else may stand in its place, comes next.
fn is_begin(mode: &Mode) -> bool
    ensures { result ≡ spec_begin parts_built (mode_of mode.now) }
{
    matches!(mode, Mode::Statement(StatementMode::Begin))
}

/// The items that are read, where an item has ended and none has begun, and nothing else is open.
#[tactic(auto, using(crate::proofs::OneMore::begun, crate::proofs::OneMore::not_begun))]
fn items_between(state: &mut ParserState, mode: &Mode) -> Mem<Option<Built<Vec<Item>>>>
    ensures between { IfOk result (λ o. MatchOption o (spec_between parts_built (stack state.old) (mode_of mode.now) ≡ false) (λ all. (stack state.old ≡ InUnit (items_part all) ∷ []) × (mode_of mode.now ≡ Begin))) }
    ensures frames { IfOk result (λ o. MatchOption o (frames state.new ≡ frames state.old) (λ all. frames state.new ≡ [])) }
    ensures names { entries state.new ≡ entries state.old }
{
    if !is_begin(mode) {
        return Ok(None);
    }
    let Some(frame) = state.pop() else {
        return Ok(None);
    };
    let Frame::Body(BodyFrame::Unit(items)) = frame else {
        state.push(frame)?;
        return Ok(None);
    };
    let Some(below) = state.pop() else {
        return Ok(Some(items));
    };
    state.push(below)?;
    state.push(Frame::Body(BodyFrame::Unit(items)))?;
    Ok(None)
}

/// What a token comes to while an item is read.
#[derive(Drop)]
pub enum Progress {
    /// No tree has the token there.
    Refused,
    /// An item ends with the token.
    Ended(Built<Vec<Item>>),
    /// The item goes on.
    Open,
}

/// Reads one token more of an item. Then `mode` is what comes next.
fn read_token(
    alloc: Global,
    state: &mut ParserState,
    mode: &mut Mode,
    token: &Token,
) -> Mem<Progress>
    ensures { IfOk result (λ p. Proceeds state.new mode.new p (spec_step parts_built (scope state.old) (stack state.old) (mode_of mode.old) (word token.now))) }
{
    let here = std::mem::replace(mode, Mode::Statement(StatementMode::Begin));
    let Some(next) = step(alloc, state, here, token)? else {
        return Ok(Progress::Refused);
    };
    *mode = next;
    match items_between(state, mode)? {
        Some(built) => Ok(Progress::Ended(built)),
        None => Ok(Progress::Open),
    }
}

/// Reads the item that begins at a place, if one does.
#[tactic(auto, using(crate::proofs::OneMore::found_at, crate::proofs::OneMore::read_refused, crate::proofs::OneMore::read_ended, crate::proofs::OneMore::read_on, crate::proofs::OneMore::read_all))]
pub fn read_item(
    alloc: Global,
    state: &mut ParserState,
    tokens: &[Token],
    place: usize,
) -> Mem<Option<ItemRead>>
    requires empty { frames state.old ≡ [] }
    requires place { place ≤ length tokens.now }
    ensures read { IfOk result (λ o. MatchOption o
        (spec_read parts_built (words (drop place tokens.now)) (scope state.old) (InUnit parts_built.no_items ∷ []) Begin ≡ None)
        (λ r. spec_read parts_built (words (drop place tokens.now)) (scope state.old) (InUnit parts_built.no_items ∷ []) Begin ≡ Some ((scope state.new, InUnit (items_part r.built) ∷ [], Begin), words (drop r.next tokens.now)))) }
    ensures further { IfOk result (λ o. MatchOption o (Unit {0}) (λ r. (place < r.next) × (r.next ≤ length tokens.now) × (frames state.new ≡ []))) }
{
    let none = no_items(alloc);
    state.push(Frame::Body(BodyFrame::Unit(none)))?;
    let mut mode = Box::new(alloc, Mode::Statement(StatementMode::Begin))?;
    for index in place..tokens.len() {
        match read_token(alloc, state, &mut mode, &tokens[index])? {
            Progress::Refused => return Ok(None),
            Progress::Ended(built) => {
                let next = index + 1;
                return Ok(Some(ItemRead { built, next }));
            }
            Progress::Open => {}
        }
    }
    Ok(None)
}
