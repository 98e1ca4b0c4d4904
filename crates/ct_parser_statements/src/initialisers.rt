//! Initialisers, token by token (C11 6.7.9).

ghost use Rattle.std.specs.Prelude.{◌≡◌, ◌∷◌, IfOk, Some};
ghost use Rattle.ct_parser_state.specs.Code.{Stepped, stack, scope, init_mode};
ghost use Rattle.ct_grammar_machine.specs.Frames.{InBraces, InItem, InPlace, Pointed, Want};
ghost use Rattle.ct_grammar_machine.specs.Steps as m;
ghost use Rattle.ct_parser_state.specs.Terminals.{word_of};
ghost use Rattle.ct_grammar_machine.specs.Algebra.{AtNext};
ghost use Rattle.ct_parser_parts.specs.Parts.{parts_built};
ghost use Rattle.ct_parser_parts.specs.Views.{aimed_part, initialiser_part, initialisers_part};
ghost use Rattle.ct_syntax.specs.Words.{Text};
ghost use Rattle.ct_syntax.specs.declared.words.Mark.TheVariants.{Comma as comma, Semicolon as semicolon, CloseBrace as close_brace};

use crate::which::{is_dot, is_open_bracket};
use ct_base::{Bytes, Mem, Span, Token};
use ct_parser_declarators::{declarator_started, item_ended};
use ct_parser_expressions::begin;
use ct_parser_parts as parts;
use ct_parser_parts::{Aimed, Built};
use ct_parser_state::{
    Frame, InitMode, ListFrame, Mode, ParserState, Terminal, ValueFrame, ValueMode,
};
use ct_syntax::{AssignOp, Initialiser, InitialiserItem, Mark};
use std::alloc::Global;

/// A token where an initialiser is wanted.
fn want_init(
    alloc: Global,
    state: &mut ParserState,
    terminal: Terminal,
    token: &Token,
) -> Mem<Option<Mode>>
    ensures { IfOk result (λ r. Stepped state.new r (m.want_init parts_built (scope state.old) (stack state.old) (word_of terminal token.now.text))) }
{
    if !matches!(terminal, Terminal::Mark(Mark::OpenBrace)) {
        return begin(alloc, state, terminal, token);
    }
    let none = parts::no_initialisers(alloc);
    state.push(Frame::List(ListFrame::Braces(token.span, none)))?;
    Ok(Some(Mode::Init(InitMode::FirstItem)))
}

/// A comma behind an initialiser.
fn init_listed(
    alloc: Global,
    state: &mut ParserState,
    init: Built<Initialiser>,
) -> Mem<Option<Mode>>
    ensures { IfOk result (λ r. Stepped state.new r (m.init_done parts_built (scope state.old) comma (stack state.old) (initialiser_part init))) }
{
    let Some(frame) = state.pop() else {
        return Ok(None);
    };
    match frame {
        Frame::Value(ValueFrame::Init(specs, before, declarator)) => {
            declarator_started(state, Mark::Comma, specs, before, declarator, init)
        }
        Frame::Value(ValueFrame::Item(at, before, place, aim)) => {
            item_ended(alloc, state, Mark::Comma, at, before, place, aim, init)
        }
        other => {
            drop(other);
            Ok(None)
        }
    }
}

/// A semicolon behind an initialiser.
fn init_ended(state: &mut ParserState, init: Built<Initialiser>) -> Mem<Option<Mode>>
    ensures { IfOk result (λ r. Stepped state.new r (m.init_done parts_built (scope state.old) semicolon (stack state.old) (initialiser_part init))) }
{
    let Some(frame) = state.pop() else {
        return Ok(None);
    };
    match frame {
        Frame::Value(ValueFrame::Init(specs, before, declarator)) => {
            declarator_started(state, Mark::Semicolon, specs, before, declarator, init)
        }
        other => {
            drop(other);
            Ok(None)
        }
    }
}

/// A closing brace behind an initialiser.
fn init_closed(
    alloc: Global,
    state: &mut ParserState,
    init: Built<Initialiser>,
) -> Mem<Option<Mode>>
    ensures { IfOk result (λ r. Stepped state.new r (m.init_done parts_built (scope state.old) close_brace (stack state.old) (initialiser_part init))) }
{
    let Some(frame) = state.pop() else {
        return Ok(None);
    };
    match frame {
        Frame::Value(ValueFrame::Item(at, before, place, aim)) => {
            item_ended(alloc, state, Mark::CloseBrace, at, before, place, aim, init)
        }
        other => {
            drop(other);
            Ok(None)
        }
    }
}

/// A token behind an initialiser in braces.
fn have_init(
    alloc: Global,
    state: &mut ParserState,
    init: Built<Initialiser>,
    terminal: Terminal,
) -> Mem<Option<Mode>>
    ensures { IfOk result (λ r. (text : Text) → Stepped state.new r (m.have_init parts_built (scope state.old) (stack state.old) (initialiser_part init) (word_of terminal text))) }
{
    match terminal {
        Terminal::Mark(Mark::Comma) => init_listed(alloc, state, init),
        Terminal::Mark(Mark::Semicolon) => init_ended(state, init),
        Terminal::Mark(Mark::CloseBrace) => init_closed(alloc, state, init),
        _ => Ok(None),
    }
}

/// The first token of an item that is for what comes next.
fn begin_item(
    alloc: Global,
    state: &mut ParserState,
    at: Span,
    items: Built<Vec<InitialiserItem>>,
    terminal: Terminal,
    token: &Token,
) -> Mem<Option<Mode>>
    ensures { IfOk result (λ r. Stepped state.new r (m.want_init parts_built (scope state.old) (InItem (initialisers_part items) AtNext ∷ stack state.old) (word_of terminal token.now.text))) }
{
    state.push(Frame::Value(ValueFrame::Item(at, items, token.span, Aimed::Next)))?;
    want_init(alloc, state, terminal, token)
}

/// The dot of an item.
fn dotted_item(
    state: &mut ParserState,
    at: Span,
    items: Built<Vec<InitialiserItem>>,
    dot: Span,
) -> Mem<Option<Mode>>
    ensures { IfOk result (λ r. Stepped state.new r (Some (scope state.old, InBraces (initialisers_part items) ∷ stack state.old, Pointed))) }
{
    state.push(Frame::List(ListFrame::Braces(at, items)))?;
    Ok(Some(Mode::Init(InitMode::Pointed(dot))))
}

/// The bracket of an item.
fn indexed_item(
    state: &mut ParserState,
    at: Span,
    items: Built<Vec<InitialiserItem>>,
    bracket: Span,
) -> Mem<Option<Mode>>
    ensures { IfOk result (λ r. Stepped state.new r (Some (scope state.old, InPlace (initialisers_part items) ∷ stack state.old, Want))) }
{
    state.push(Frame::Value(ValueFrame::Place(at, items, bracket)))?;
    Ok(Some(Mode::Value(ValueMode::Want)))
}

/// A token where an item begins, with the braces taken off.
fn item_in(
    alloc: Global,
    state: &mut ParserState,
    at: Span,
    items: Built<Vec<InitialiserItem>>,
    terminal: Terminal,
    token: &Token,
) -> Mem<Option<Mode>>
    ensures { IfOk result (λ r. Stepped state.new r (m.item parts_built (scope state.old) (InBraces (initialisers_part items) ∷ stack state.old) (word_of terminal token.now.text))) }
{
    if is_dot(terminal) {
        return dotted_item(state, at, items, token.span);
    }
    if is_open_bracket(terminal) {
        return indexed_item(state, at, items, token.span);
    }
    begin_item(alloc, state, at, items, terminal, token)
}

/// A token where an item in braces begins.
fn item(
    alloc: Global,
    state: &mut ParserState,
    terminal: Terminal,
    token: &Token,
) -> Mem<Option<Mode>>
    ensures { IfOk result (λ r. Stepped state.new r (m.item parts_built (scope state.old) (stack state.old) (word_of terminal token.now.text))) }
{
    let Some(frame) = state.pop() else {
        return Ok(None);
    };
    match frame {
        Frame::List(ListFrame::Braces(at, items)) => {
            item_in(alloc, state, at, items, terminal, token)
        }
        other => {
            drop(other);
            Ok(None)
        }
    }
}

/// The brace that ends a list of items, behind a comma or not.
fn close_items(alloc: Global, state: &mut ParserState, comma: bool) -> Mem<Option<Mode>>
    ensures { IfOk result (λ r. Stepped state.new r (m.close_items parts_built (scope state.old) comma (stack state.old))) }
{
    let Some(frame) = state.pop() else {
        return Ok(None);
    };
    match frame {
        Frame::List(ListFrame::Braces(at, items)) => {
            Ok(Some(Mode::Init(InitMode::Have(parts::braces(alloc, at, items, comma)?))))
        }
        other => {
            drop(other);
            Ok(None)
        }
    }
}

/// A token where an item in braces, or the closing brace, is wanted, with a comma before it or without.
fn item_or_end(
    alloc: Global,
    state: &mut ParserState,
    comma: bool,
    terminal: Terminal,
    token: &Token,
) -> Mem<Option<Mode>>
    ensures { IfOk result (λ r. Stepped state.new r (m.item_or_end parts_built (scope state.old) comma (stack state.old) (word_of terminal token.now.text))) }
{
    if matches!(terminal, Terminal::Mark(Mark::CloseBrace)) {
        return close_items(alloc, state, comma);
    }
    item(alloc, state, terminal, token)
}

/// A token where the name of a member is wanted that an item is for.
fn pointed(
    alloc: Global,
    state: &mut ParserState,
    dot: Span,
    terminal: Terminal,
    token: &Token,
) -> Mem<Option<Mode>>
    ensures { IfOk result (λ r. Stepped state.new r (m.pointed parts_built (scope state.old) (stack state.old) (word_of terminal token.now.text))) }
{
    if !matches!(terminal, Terminal::Name) {
        return Ok(None);
    }
    let name = Bytes::from_slice(alloc, token.text.as_slice())?;
    Ok(Some(Mode::Init(InitMode::Placed(dot, Aimed::Member(dot, name)))))
}

/// A token behind what an item is for.
fn placed(state: &mut ParserState, place: Span, aim: Aimed, terminal: Terminal) -> Mem<Option<Mode>>
    ensures { IfOk result (λ r. (text : Text) → Stepped state.new r (m.placed parts_built (scope state.old) (stack state.old) (aimed_part aim) (word_of terminal text))) }
{
    let Some(frame) = state.pop() else {
        return Ok(None);
    };
    match frame {
        Frame::List(ListFrame::Braces(at, items)) => {
            if !matches!(terminal, Terminal::Mark(Mark::Assign(AssignOp::Plain))) {
                return Ok(None);
            }
            state.push(Frame::Value(ValueFrame::Item(at, items, place, aim)))?;
            Ok(Some(Mode::Init(InitMode::Want)))
        }
        other => {
            drop(other);
            Ok(None)
        }
    }
}

/// A token in an initialiser.
pub fn init_step(
    alloc: Global,
    state: &mut ParserState,
    mode: InitMode,
    terminal: Terminal,
    token: &Token,
) -> Mem<Option<Mode>>
    ensures { IfOk result (λ r. Stepped state.new r (m.step parts_built (scope state.old) (stack state.old) (init_mode mode) (word_of terminal token.now.text))) }
{
    match mode {
        InitMode::Want => want_init(alloc, state, terminal, token),
        InitMode::Have(init) => have_init(alloc, state, init, terminal),
        InitMode::FirstItem => item_or_end(alloc, state, false, terminal, token),
        InitMode::NextItem => item_or_end(alloc, state, true, terminal, token),
        InitMode::Pointed(dot) => pointed(alloc, state, dot, terminal, token),
        InitMode::Placed(place, aim) => placed(state, place, aim, terminal),
    }
}
