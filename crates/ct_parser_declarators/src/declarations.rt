//! Declarations and initialisers, where they end (C11 6.7, 6.7.9).

ghost use Rattle.std.specs.Prelude.{◌≡◌, ◌∷◌, IfOk, Some};
ghost use Rattle.ct_parser_state.specs.Code.{Stepped, stack, scope, under};
ghost use Rattle.ct_grammar_machine.specs.Frames.{Begin, InFunction};
ghost use Rattle.ct_grammar_machine.specs.Steps as m;
ghost use Rattle.ct_parser_state.specs.declared.frames.Frame.TheVariants.{Body as body_of, Clause as clause_of, Value as value};
ghost use Rattle.ct_parser_state.specs.declared.frames.ValueFrame.TheVariants.{Init as init, Item as item_frame};
ghost use Rattle.ct_parser_parts.specs.Parts.{parts_built};
ghost use Rattle.ct_parser_parts.specs.Views.{declaration_part, initialiser_part, specs_part, declarator_part};
ghost use Rattle.ct_syntax.specs.declared.words.Mark.TheVariants.{Comma as comma, Semicolon as semicolon};

use ct_base::{Mem, Span};
use ct_parser_parts as parts;
use ct_parser_parts::{Aimed, Built, DeclaratorPart, SpecsPart};
use ct_parser_state::{
    BodyFrame, ClauseFrame, DeclaratorFrame, DeclaratorMode, Frame, InitMode, ListFrame, Mode,
    ParserState, Purpose, StatementMode,
};
use ct_syntax::{Declaration, InitDeclarator, Initialiser, InitialiserItem, Mark};
use std::alloc::Global;

/// A declaration is read in a body.
fn declared_in(
    state: &mut ParserState,
    body: BodyFrame,
    done: Built<Declaration>,
) -> Mem<Option<Mode>>
    ensures { IfOk result (λ r. Stepped state.new r (m.declaration_done parts_built (scope state.old) (under state.old (body_of body)) (declaration_part done))) }
{
    match body {
        BodyFrame::Unit(items) => {
            let items = parts::push_outside(items, done)?;
            state.push(Frame::Body(BodyFrame::Unit(items)))?;
        }
        BodyFrame::Block(at, items) => {
            let items = parts::push_declared(items, done)?;
            state.push(Frame::Body(BodyFrame::Block(at, items)))?;
        }
        BodyFrame::Switch(at, value, brace, items) => {
            let items = parts::push_declared(items, done)?;
            state.push(Frame::Body(BodyFrame::Switch(at, value, brace, items)))?;
        }
        BodyFrame::Function(specs, declarator, brace, items) => {
            let items = parts::push_declared(items, done)?;
            state.push(Frame::Body(BodyFrame::Function(specs, declarator, brace, items)))?;
        }
    }
    Ok(Some(Mode::Statement(StatementMode::Begin)))
}

/// A declaration is read in the parentheses of a `for`.
fn declared_for(
    state: &mut ParserState,
    frame: ClauseFrame,
    done: Built<Declaration>,
) -> Mem<Option<Mode>>
    ensures { IfOk result (λ r. Stepped state.new r (m.declaration_done parts_built (scope state.old) (under state.old (clause_of frame)) (declaration_part done))) }
{
    match frame {
        ClauseFrame::ForInit(at) => {
            let start = parts::start_declaration(done)?;
            state.push(Frame::Clause(ClauseFrame::ForCondition(at, start)))?;
            Ok(Some(Mode::Statement(StatementMode::ForCondition)))
        }
        other => {
            drop(other);
            Ok(None)
        }
    }
}

/// A declaration is read.
pub fn declaration_done(state: &mut ParserState, done: Built<Declaration>) -> Mem<Option<Mode>>
    ensures { IfOk result (λ r. Stepped state.new r (m.declaration_done parts_built (scope state.old) (stack state.old) (declaration_part done))) }
{
    let Some(frame) = state.pop() else {
        return Ok(None);
    };
    match frame {
        Frame::Clause(frame) => declared_for(state, frame, done),
        Frame::Body(body) => declared_in(state, body, done),
        other => {
            drop(other);
            Ok(None)
        }
    }
}

/// A comma behind the initialiser of a declarator.
fn listed_started(
    state: &mut ParserState,
    specs: SpecsPart,
    before: Built<Vec<InitDeclarator>>,
    declarator: DeclaratorPart,
    start: Built<Initialiser>,
) -> Mem<Option<Mode>>
    ensures { IfOk result (λ r. Stepped state.new r (m.init_done parts_built (scope state.old) comma (under state.old (value (init specs before declarator))) (initialiser_part start))) }
{
    let before = parts::push_started(before, declarator, start)?;
    state.push(Frame::Declarator(DeclaratorFrame::Declaration(false, specs, before)))?;
    Ok(Some(Mode::Declarator(DeclaratorMode::Want(Purpose::Ordinary))))
}

/// A semicolon behind the initialiser of a declarator.
fn last_started(
    state: &mut ParserState,
    specs: SpecsPart,
    before: Built<Vec<InitDeclarator>>,
    declarator: DeclaratorPart,
    start: Built<Initialiser>,
) -> Mem<Option<Mode>>
    ensures { IfOk result (λ r. Stepped state.new r (m.init_done parts_built (scope state.old) semicolon (under state.old (value (init specs before declarator))) (initialiser_part start))) }
{
    let all = parts::push_started(before, declarator, start)?;
    declaration_done(state, parts::declare(specs, all)?)
}

/// A mark behind the initialiser of a declarator.
pub fn declarator_started(
    state: &mut ParserState,
    mark: Mark,
    specs: SpecsPart,
    before: Built<Vec<InitDeclarator>>,
    declarator: DeclaratorPart,
    start: Built<Initialiser>,
) -> Mem<Option<Mode>>
    ensures { IfOk result (λ r. Stepped state.new r (m.init_done parts_built (scope state.old) mark (under state.old (value (init specs before declarator))) (initialiser_part start))) }
{
    match mark {
        Mark::Comma => listed_started(state, specs, before, declarator, start),
        Mark::Semicolon => last_started(state, specs, before, declarator, start),
        _ => {
            drop(specs);
            drop(before);
            drop(declarator);
            drop(start);
            Ok(None)
        }
    }
}

/// A mark behind an item in braces.
pub fn item_ended(
    alloc: Global,
    state: &mut ParserState,
    mark: Mark,
    at: Span,
    before: Built<Vec<InitialiserItem>>,
    place: Span,
    aim: Aimed,
    item: Built<Initialiser>,
) -> Mem<Option<Mode>>
    ensures { IfOk result (λ r. Stepped state.new r (m.init_done parts_built (scope state.old) mark (under state.old (value (item_frame at before place aim))) (initialiser_part item))) }
{
    match mark {
        Mark::Comma => {
            let before = parts::push_init(alloc, before, place, aim, item)?;
            state.push(Frame::List(ListFrame::Braces(at, before)))?;
            Ok(Some(Mode::Init(InitMode::NextItem)))
        }
        Mark::CloseBrace => {
            let all = parts::push_init(alloc, before, place, aim, item)?;
            Ok(Some(Mode::Init(InitMode::Have(parts::braces(alloc, at, all, false)?))))
        }
        _ => {
            drop(before);
            drop(aim);
            drop(item);
            Ok(None)
        }
    }
}

/// The body of a definition, in the scope of its parameters.
fn body_opens(
    alloc: Global,
    state: &mut ParserState,
    specs: SpecsPart,
    declarator: DeclaratorPart,
    brace: Span,
) -> Mem<Option<Mode>>
    ensures { IfOk result (λ r. Stepped state.new r (Some (parts_built.inside (declarator_part declarator) (scope state.old), InFunction (scope state.old) (specs_part specs) (declarator_part declarator) parts_built.no_body ∷ stack state.old, Begin))) }
{
    state.enter()?;
    state.declare_all(alloc, declarator.own.as_slice())?;
    let body = parts::no_body(alloc);
    state.push(Frame::Body(BodyFrame::Function(specs, declarator, brace, body)))?;
    Ok(Some(Mode::Statement(StatementMode::Begin)))
}

/// The brace of a definition in a body.
fn outside_opens(
    alloc: Global,
    state: &mut ParserState,
    frame: BodyFrame,
    first: bool,
    specs: SpecsPart,
    declarator: DeclaratorPart,
    brace: Span,
) -> Mem<Option<Mode>>
    ensures { IfOk result (λ r. Stepped state.new r (m.definition_opens parts_built (scope state.old) (under state.old (body_of frame)) first (specs_part specs) (declarator_part declarator))) }
{
    match frame {
        BodyFrame::Unit(items) => {
            if !first {
                return Ok(None);
            }
            state.push(Frame::Body(BodyFrame::Unit(items)))?;
            body_opens(alloc, state, specs, declarator, brace)
        }
        other => {
            drop(other);
            Ok(None)
        }
    }
}

/// The brace of a definition, which stands at file scope.
pub fn definition_opens(
    alloc: Global,
    state: &mut ParserState,
    first: bool,
    specs: SpecsPart,
    declarator: DeclaratorPart,
    brace: Span,
) -> Mem<Option<Mode>>
    ensures { IfOk result (λ r. Stepped state.new r (m.definition_opens parts_built (scope state.old) (stack state.old) first (specs_part specs) (declarator_part declarator))) }
{
    let Some(frame) = state.pop() else {
        return Ok(None);
    };
    match frame {
        Frame::Body(frame) => outside_opens(alloc, state, frame, first, specs, declarator, brace),
        other => {
            drop(other);
            Ok(None)
        }
    }
}
