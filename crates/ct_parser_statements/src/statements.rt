//! Statements and bodies, where they begin (C11 6.8).

ghost use Rattle.std.specs.Prelude.{◌≡◌, List, [], ◌∷◌, if◌then◌else◌, IfOk};
ghost use Rattle.ct_parser_state.specs.Code.{Stepped, stack, scope, under, aim_of, frame_of, behind};
ghost use Rattle.ct_grammar_machine.specs.Frames.{InFunction, InRun, InUnit, DeclSpecs};
ghost use Rattle.ct_grammar_machine.specs.Steps as m;
ghost use Rattle.ct_parser_state.specs.Terminals.{word_of};
ghost use Rattle.ct_parser_state.specs.declared.entries.Entry.{Entry};
ghost use Rattle.ct_parser_state.specs.declared.frames.BodyFrame.TheVariants.{Switch as switch};
ghost use Rattle.ct_parser_state.specs.declared.frames.Frame.TheVariants.{Body as body_frame, Clause as clause_frame};
ghost use Rattle.ct_parser_parts.specs.Parts.{parts_built};
ghost use Rattle.ct_parser_parts.specs.Views.{items_part, specs_part, declarator_part, body_part};
ghost use Rattle.ct_syntax.specs.Grammar.{begins_specs as spec_begins};
ghost use Rattle.ct_syntax.specs.Words.{Text};

use crate::which::{is_assertion, is_close_brace, is_label};
use ct_base::{Mem, Span, Token};
use ct_parser_declarators::{begins_specs, specs_step};
use ct_parser_expressions::begin;
use ct_parser_parts as parts;
use ct_parser_parts::{Built, DeclaratorPart, ExprPart, SpecsPart};
use ct_parser_state::{
    Aim, BodyFrame, ClauseFrame, Frame, Mode, ParserState, SpecsFrame, StatementFrame,
    StatementMode, Terminal, ValueMode,
};
use ct_syntax::{BlockItem, Item, Keyword, Mark};
use std::alloc::Global;

/// The production that waits for what stands in parentheses.
fn clause_of(aim: Aim) -> ClauseFrame
    ensures frame { (os : List Entry) → frame_of os (clause_frame result) ≡ m.aim_frame parts_built (aim_of aim) }
    ensures outside { (os : List Entry) → behind os (clause_frame result) ≡ os }
{
    match aim {
        Aim::Test(ladder, before, at) => ClauseFrame::Test(ladder, before, at),
        Aim::Loop(at) => ClauseFrame::LoopTest(at),
        Aim::Do(at, body) => ClauseFrame::DoTest(at, body),
        Aim::Switch(at) => ClauseFrame::SwitchTest(at),
        Aim::Assert(at) => ClauseFrame::Assert(at),
    }
}

/// A token where an open parenthesis is wanted.
pub fn opening(state: &mut ParserState, aim: Aim, terminal: Terminal) -> Mem<Option<Mode>>
    ensures { IfOk result (λ r. (text : Text) → Stepped state.new r (m.opening parts_built (scope state.old) (stack state.old) (aim_of aim) (word_of terminal text))) }
{
    if !matches!(terminal, Terminal::Mark(Mark::Open)) {
        return Ok(None);
    }
    state.push(Frame::Clause(clause_of(aim)))?;
    Ok(Some(Mode::Value(ValueMode::Want)))
}

/// The first token of a statement that is an expression.
fn begin_run(
    alloc: Global,
    state: &mut ParserState,
    terminal: Terminal,
    token: &Token,
) -> Mem<Option<Mode>>
    ensures { IfOk result (λ r. Stepped state.new r (m.begin parts_built (scope state.old) (InRun ∷ stack state.old) (word_of terminal token.now.text))) }
{
    state.push(Frame::Clause(ClauseFrame::Run(token.span)))?;
    begin(alloc, state, terminal, token)
}

/// The first token of a declaration.
pub fn begin_declaration(
    alloc: Global,
    state: &mut ParserState,
    terminal: Terminal,
    token: &Token,
) -> Mem<Option<Mode>>
    ensures { IfOk result (λ r. Stepped state.new r (m.specs_step parts_built (scope state.old) (DeclSpecs ∷ stack state.old) parts_built.no_specs (word_of terminal token.now.text))) }
{
    state.push(Frame::Specs(SpecsFrame::Declaration))?;
    let none = parts::no_specs(alloc, token.span);
    specs_step(alloc, state, none, terminal, token)
}

/// A mark where a statement begins.
fn statement_mark(
    alloc: Global,
    state: &mut ParserState,
    mark: Mark,
    token: &Token,
) -> Mem<Option<Mode>>
    ensures { IfOk result (λ r. Stepped state.new r (m.statement_mark parts_built (scope state.old) (stack state.old) mark)) }
{
    match mark {
        Mark::OpenBrace => {
            state.enter()?;
            let none = parts::no_body(alloc);
            state.push(Frame::Body(BodyFrame::Block(token.span, none)))?;
            Ok(Some(Mode::Statement(StatementMode::Begin)))
        }
        Mark::Semicolon => {
            Ok(Some(Mode::Statement(StatementMode::Done(parts::run(alloc, token.span, None)?))))
        }
        _ => begin_run(alloc, state, Terminal::Mark(mark), token),
    }
}

/// A keyword where a statement begins.
fn statement_key(
    alloc: Global,
    state: &mut ParserState,
    keyword: Keyword,
    token: &Token,
) -> Mem<Option<Mode>>
    ensures { IfOk result (λ r. Stepped state.new r (m.statement_key parts_built (scope state.old) (stack state.old) keyword)) }
{
    let at = token.span;
    match keyword {
        Keyword::If => Ok(Some(Mode::Statement(StatementMode::Opening(Aim::Test(
            at,
            parts::no_branches(alloc),
            at,
        ))))),
        Keyword::While => Ok(Some(Mode::Statement(StatementMode::Opening(Aim::Loop(at))))),
        Keyword::Do => {
            state.push(Frame::Statement(StatementFrame::Do(at)))?;
            Ok(Some(Mode::Statement(StatementMode::Begin)))
        }
        Keyword::For => Ok(Some(Mode::Statement(StatementMode::OpenFor(at)))),
        Keyword::Switch => Ok(Some(Mode::Statement(StatementMode::Opening(Aim::Switch(at))))),
        Keyword::Break => {
            Ok(Some(Mode::Statement(StatementMode::Ending(parts::break_statement(alloc, at)?))))
        }
        Keyword::Continue => {
            Ok(Some(Mode::Statement(StatementMode::Ending(parts::continue_statement(alloc, at)?))))
        }
        Keyword::Return => Ok(Some(Mode::Statement(StatementMode::Returning(at)))),
        _ => begin_run(alloc, state, Terminal::Keyword(keyword), token),
    }
}

/// A token where a statement begins.
pub fn statement(
    alloc: Global,
    state: &mut ParserState,
    terminal: Terminal,
    token: &Token,
) -> Mem<Option<Mode>>
    ensures { IfOk result (λ r. Stepped state.new r (m.statement parts_built (scope state.old) (stack state.old) (word_of terminal token.now.text))) }
{
    match terminal {
        Terminal::Mark(mark) => statement_mark(alloc, state, mark, token),
        Terminal::Keyword(keyword) => statement_key(alloc, state, keyword, token),
        _ => begin_run(alloc, state, terminal, token),
    }
}

/// The brace that ends a definition.
fn close_function(
    alloc: Global,
    state: &mut ParserState,
    specs: SpecsPart,
    declarator: DeclaratorPart,
    brace: Span,
    body: Built<Vec<BlockItem>>,
) -> Mem<Option<Mode>>
    ensures { IfOk result (λ r. Stepped state.new r (m.close_body parts_built (InFunction (scope state.old) (specs_part specs) (declarator_part declarator) (body_part body) ∷ stack state.old))) }
{
    let Some(frame) = state.pop() else {
        return Ok(None);
    };
    match frame {
        Frame::Body(BodyFrame::Unit(items)) => {
            let items = parts::push_definition(alloc, items, specs, declarator, brace, body)?;
            state.push(Frame::Body(BodyFrame::Unit(items)))?;
            Ok(Some(Mode::Statement(StatementMode::Begin)))
        }
        other => {
            drop(other);
            Ok(None)
        }
    }
}

/// The brace that ends a block, a `switch` or a definition.
fn close_frame(alloc: Global, state: &mut ParserState, frame: BodyFrame) -> Mem<Option<Mode>>
    ensures { IfOk result (λ r. Stepped state.new r (m.close_body parts_built (under state.old (body_frame frame)))) }
{
    match frame {
        BodyFrame::Block(at, body) => {
            state.leave();
            Ok(Some(Mode::Statement(StatementMode::Done(parts::block(alloc, at, body)?))))
        }
        BodyFrame::Switch(at, value, brace, body) => {
            state.leave();
            let done = parts::switch(alloc, at, value, brace, body)?;
            Ok(Some(Mode::Statement(StatementMode::Done(done))))
        }
        BodyFrame::Function(specs, declarator, brace, body) => {
            state.leave();
            close_function(alloc, state, specs, declarator, brace, body)
        }
        BodyFrame::Unit(_) => Ok(None),
    }
}

/// The brace that ends the innermost braces.
fn close_body(alloc: Global, state: &mut ParserState) -> Mem<Option<Mode>>
    ensures { IfOk result (λ r. Stepped state.new r (m.close_body parts_built (stack state.old))) }
{
    let Some(frame) = state.pop() else {
        return Ok(None);
    };
    match frame {
        Frame::Body(frame) => close_frame(alloc, state, frame),
        other => {
            drop(other);
            Ok(None)
        }
    }
}

/// The first token of a declaration or a statement in braces.
fn begin_inside(
    alloc: Global,
    state: &mut ParserState,
    terminal: Terminal,
    token: &Token,
) -> Mem<Option<Mode>>
    ensures { IfOk result (λ r. Stepped state.new r (if spec_begins (scope state.old) (word_of terminal token.now.text ∷ []) then m.specs_step parts_built (scope state.old) (DeclSpecs ∷ stack state.old) parts_built.no_specs (word_of terminal token.now.text) else m.statement parts_built (scope state.old) (stack state.old) (word_of terminal token.now.text))) }
{
    if begins_specs(state, terminal, token) {
        return begin_declaration(alloc, state, terminal, token);
    }
    statement(alloc, state, terminal, token)
}

/// A token where a declaration or a statement in braces, or the closing brace, is wanted.
fn block_part(
    alloc: Global,
    state: &mut ParserState,
    terminal: Terminal,
    token: &Token,
) -> Mem<Option<Mode>>
    ensures { IfOk result (λ r. Stepped state.new r (m.block_part parts_built (scope state.old) (stack state.old) (word_of terminal token.now.text))) }
{
    if is_assertion(terminal) {
        return Ok(Some(Mode::Statement(StatementMode::Opening(Aim::Assert(token.span)))));
    }
    if is_close_brace(terminal) {
        return close_body(alloc, state);
    }
    begin_inside(alloc, state, terminal, token)
}

/// A label.
fn label(state: &mut ParserState, terminal: Terminal, at: Span) -> Mem<Option<Mode>>
    ensures { IfOk result (λ r. (text : Text) → Stepped state.new r (m.label parts_built (scope state.old) (stack state.old) (word_of terminal text))) }
{
    match terminal {
        Terminal::Keyword(Keyword::Case) => {
            state.push(Frame::Clause(ClauseFrame::Case(at)))?;
            Ok(Some(Mode::Value(ValueMode::Want)))
        }
        Terminal::Keyword(Keyword::Default) => {
            Ok(Some(Mode::Statement(StatementMode::DefaultColon(at))))
        }
        _ => Ok(None),
    }
}

/// A label, or a token where a declaration or a statement in braces, or the closing brace, is wanted.
fn labelled_part(
    alloc: Global,
    state: &mut ParserState,
    terminal: Terminal,
    token: &Token,
) -> Mem<Option<Mode>>
    ensures { IfOk result (λ r. Stepped state.new r (if m.is_label (word_of terminal token.now.text) then m.label parts_built (scope state.old) (stack state.old) (word_of terminal token.now.text) else m.block_part parts_built (scope state.old) (stack state.old) (word_of terminal token.now.text))) }
{
    if is_label(terminal) {
        return label(state, terminal, token.span);
    }
    block_part(alloc, state, terminal, token)
}

/// A token in a body, which no label begins.
fn part_in(
    alloc: Global,
    state: &mut ParserState,
    body: BodyFrame,
    terminal: Terminal,
    token: &Token,
) -> Mem<Option<Mode>>
    ensures { IfOk result (λ r. Stepped state.new r (m.block_part parts_built (scope state.old) (under state.old (body_frame body)) (word_of terminal token.now.text))) }
{
    state.push(Frame::Body(body))?;
    block_part(alloc, state, terminal, token)
}

/// A token in the braces of a `switch`.
fn switch_part(
    alloc: Global,
    state: &mut ParserState,
    at: Span,
    value: ExprPart,
    brace: Span,
    body: Built<Vec<BlockItem>>,
    terminal: Terminal,
    token: &Token,
) -> Mem<Option<Mode>>
    ensures { IfOk result (λ r. Stepped state.new r (m.begin_part parts_built (scope state.old) (under state.old (body_frame (switch at value brace body))) (word_of terminal token.now.text))) }
{
    state.push(Frame::Body(BodyFrame::Switch(at, value, brace, body)))?;
    labelled_part(alloc, state, terminal, token)
}

/// The first token of a declaration or a definition at file scope.
fn begin_outside(
    alloc: Global,
    state: &mut ParserState,
    items: Built<Vec<Item>>,
    terminal: Terminal,
    token: &Token,
) -> Mem<Option<Mode>>
    ensures { IfOk result (λ r. Stepped state.new r (m.specs_step parts_built (scope state.old) (DeclSpecs ∷ InUnit (items_part items) ∷ stack state.old) parts_built.no_specs (word_of terminal token.now.text))) }
{
    state.push(Frame::Body(BodyFrame::Unit(items)))?;
    begin_declaration(alloc, state, terminal, token)
}

/// A token at file scope.
fn file_part(
    alloc: Global,
    state: &mut ParserState,
    items: Built<Vec<Item>>,
    terminal: Terminal,
    token: &Token,
) -> Mem<Option<Mode>>
    ensures { IfOk result (λ r. Stepped state.new r (m.file_part parts_built (scope state.old) (items_part items) (stack state.old) (word_of terminal token.now.text))) }
{
    match terminal {
        Terminal::Mark(Mark::Semicolon) => {
            let items = parts::push_lone(items, token.span)?;
            state.push(Frame::Body(BodyFrame::Unit(items)))?;
            Ok(Some(Mode::Statement(StatementMode::Begin)))
        }
        Terminal::Keyword(Keyword::StaticAssert) => {
            state.push(Frame::Body(BodyFrame::Unit(items)))?;
            Ok(Some(Mode::Statement(StatementMode::Opening(Aim::Assert(token.span)))))
        }
        _ => begin_outside(alloc, state, items, terminal, token),
    }
}

/// A token in a body.
fn body_part(
    alloc: Global,
    state: &mut ParserState,
    body: BodyFrame,
    terminal: Terminal,
    token: &Token,
) -> Mem<Option<Mode>>
    ensures { IfOk result (λ r. Stepped state.new r (m.begin_part parts_built (scope state.old) (under state.old (body_frame body)) (word_of terminal token.now.text))) }
{
    match body {
        BodyFrame::Unit(items) => file_part(alloc, state, items, terminal, token),
        BodyFrame::Switch(at, value, brace, body) => switch_part(
            alloc, state, at, value, brace, body, terminal, token,
        ),
        BodyFrame::Block(at, parts) => {
            part_in(alloc, state, BodyFrame::Block(at, parts), terminal, token)
        }
        BodyFrame::Function(specs, declarator, brace, parts) => {
            let body = BodyFrame::Function(specs, declarator, brace, parts);
            part_in(alloc, state, body, terminal, token)
        }
    }
}

/// A token where a statement, or what else may stand in its place, begins.
pub fn begin_part(
    alloc: Global,
    state: &mut ParserState,
    terminal: Terminal,
    token: &Token,
) -> Mem<Option<Mode>>
    ensures { IfOk result (λ r. Stepped state.new r (m.begin_part parts_built (scope state.old) (stack state.old) (word_of terminal token.now.text))) }
{
    let Some(frame) = state.pop() else {
        return statement(alloc, state, terminal, token);
    };
    let Frame::Body(body) = frame else {
        state.push(frame)?;
        return statement(alloc, state, terminal, token);
    };
    body_part(alloc, state, body, terminal, token)
}
