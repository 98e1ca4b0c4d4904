//! Statements, where they end, and the parts of those that begin with a keyword (C11 6.8).

ghost use Rattle.std.specs.Prelude.{◌≡◌, List, [], ◌∷◌, if◌then◌else◌, false, IsTrue, IfOk, MatchOption, None};
ghost use Rattle.ct_parser_state.specs.Code.{Stepped, PartStack, stack, scope, frames, under, behind, body_frame as body_in, statement_mode};
ghost use Rattle.ct_grammar_machine.specs.Frames.{DeclSpecs, InElseBody, InReturn};
ghost use Rattle.ct_grammar_machine.specs.Steps as m;
ghost use Rattle.ct_parser_state.specs.Terminals.{word_of};
ghost use Rattle.ct_parser_state.specs.declared.entries.Entry.{Entry};
ghost use Rattle.ct_parser_state.specs.declared.frames.Frame.TheVariants.{Body as body_frame, Statement as statement_frame};
ghost use Rattle.ct_parser_parts.specs.Parts.{parts_built};
ghost use Rattle.ct_parser_parts.specs.Views.{expr_of, branches_part, statement_part};
ghost use Rattle.ct_parser_statements.specs.Ends.{is_ended as spec_ended, is_closed as spec_closed};
ghost use Rattle.ct_syntax.specs.Grammar.{begins_specs as spec_begins};
ghost use Rattle.ct_syntax.specs.Scopes.{Scope};
ghost use Rattle.ct_syntax.specs.Words.{Text, Word};

use crate::statements::{begin_declaration, begin_part, opening, statement};
use crate::which::{is_assertion, is_if, is_semicolon};
use ct_base::{Mem, Span, Token};
use ct_parser_declarators::begins_specs;
use ct_parser_expressions::begin;
use ct_parser_parts as parts;
use ct_parser_parts::{Built, ExprPart};
use ct_parser_state::{
    Aim, BodyFrame, ClauseFrame, Frame, Mode, ParserState, StatementFrame, StatementMode, Terminal,
};
use ct_syntax::{Branch, Keyword, Mark, Statement};
use std::alloc::Global;

/// Whether the end of its last part ends a production.
fn is_ended(frame: &Frame) -> bool
    ensures { result ≡ spec_ended frame.now }
{
    match frame {
        Frame::Statement(frame) => !matches!(frame, StatementFrame::Do(_)),
        _ => false,
    }
}

/// Whether an `else` behind its last part ends a production too.
fn is_closed(frame: &Frame) -> bool
    ensures { result ≡ spec_closed frame.now }
{
    match frame {
        Frame::Statement(frame) => matches!(
            frame,
            StatementFrame::ElseBody(_, _)
                | StatementFrame::While(_, _)
                | StatementFrame::For(_, _, _, _)
        ),
        _ => false,
    }
}

/// The ladder of an `if` without an `else`.
fn ladder(
    alloc: Global,
    at: Span,
    before: Built<Vec<Branch>>,
    place: Span,
    test: ExprPart,
    done: Built<Box<Statement>>,
) -> Mem<Built<Box<Statement>>>
    ensures { IfOk result (λ p. statement_part p ≡ parts_built.if_else (parts_built.push_branch (branches_part before) (expr_of test) (statement_part done)) None) }
{
    let branches = parts::push_branch(before, place, test, done)?;
    parts::if_branches(alloc, at, branches)
}

/// A statement with its last part.
fn whole(
    alloc: Global,
    state: &mut ParserState,
    frame: StatementFrame,
    done: Built<Box<Statement>>,
) -> Mem<Built<Box<Statement>>>
    requires { IsTrue (spec_ended (statement_frame frame)) }
    ensures ended { IfOk result (λ p. m.ended parts_built (scope state.old) (under state.old (statement_frame frame)) (statement_part done) ≡ m.ended parts_built (scope state.new) (stack state.new) (statement_part p)) }
    ensures closed { IfOk result (λ p. IsTrue (spec_closed (statement_frame frame)) → m.on_else parts_built (scope state.old) (under state.old (statement_frame frame)) (statement_part done) ≡ m.on_else parts_built (scope state.new) (stack state.new) (statement_part p)) }
    ensures frames { frames state.new ≡ frames state.old }
{
    match frame {
        StatementFrame::Branch(at, before, place, test) => ladder(
            alloc, at, before, place, test, done,
        ),
        StatementFrame::ElseBody(ladder, branches) => parts::if_else(alloc, ladder, branches, done),
        StatementFrame::While(at, test) => parts::while_loop(alloc, at, test, done),
        StatementFrame::For(at, start, test, after) => {
            state.leave();
            parts::for_loop(alloc, at, start, test, after, done)
        }
        StatementFrame::Do(_) => Ok(done),
    }
}

/// A statement with its last part, where that ends it.
fn whole_in(
    alloc: Global,
    state: &mut ParserState,
    frame: Frame,
    done: Built<Box<Statement>>,
) -> Mem<Built<Box<Statement>>>
    requires { IsTrue (spec_ended frame) }
    ensures ended { IfOk result (λ p. m.ended parts_built (scope state.old) (under state.old frame) (statement_part done) ≡ m.ended parts_built (scope state.new) (stack state.new) (statement_part p)) }
    ensures closed { IfOk result (λ p. IsTrue (spec_closed frame) → m.on_else parts_built (scope state.old) (under state.old frame) (statement_part done) ≡ m.on_else parts_built (scope state.new) (stack state.new) (statement_part p)) }
    ensures frames { frames state.new ≡ frames state.old }
{
    match frame {
        Frame::Statement(frame) => whole(alloc, state, frame, done),
        other => {
            drop(other);
            Ok(done)
        }
    }
}

/// Ends the statements that no word of their own ends, up to braces or a `do`.
#[tactic(auto, using(crate::proofs::Ends::ended_none, crate::proofs::Ends::ended_stops))]
fn ended(
    alloc: Global,
    state: &mut ParserState,
    done: Built<Box<Statement>>,
) -> Mem<Built<Box<Statement>>>
    ensures { IfOk result (λ p. m.ended parts_built (scope state.old) (stack state.old) (statement_part done) ≡ (scope state.new, stack state.new, statement_part p)) }
{
    let mut done = done;
    while let Some(frame) = state.pop() {
        if !is_ended(&frame) {
            state.push(frame)?;
            return Ok(done);
        }
        done = whole_in(alloc, state, frame, done)?;
    }
    Ok(done)
}

/// An `else` behind the last part of a production that it does not end: that of an open `if`.
#[tactic(auto, using(std::proofs::lemmas::Grind::common_steps))]
fn else_in(state: &ParserState, frame: Frame, done: Built<Box<Statement>>) -> Mem<Option<Mode>>
    requires { spec_closed frame ≡ false }
    ensures { IfOk result (λ r. Stepped state.now r (m.on_else parts_built (scope state.now) (under state.now frame) (statement_part done))) }
{
    match frame {
        Frame::Statement(StatementFrame::Branch(at, before, place, test)) => {
            let branches = parts::push_branch(before, place, test, done)?;
            Ok(Some(Mode::Statement(StatementMode::AfterElse(at, branches))))
        }
        other => {
            drop(other);
            Ok(None)
        }
    }
}

/// Ends the statements up to the nearest open `if`.
fn on_else(alloc: Global, state: &mut ParserState, done: Built<Box<Statement>>) -> Mem<Option<Mode>>
    ensures { IfOk result (λ r. Stepped state.new r (m.on_else parts_built (scope state.old) (stack state.old) (statement_part done))) }
{
    let mut done = done;
    while let Some(frame) = state.pop() {
        if !is_closed(&frame) {
            return else_in(state, frame, done);
        }
        done = whole_in(alloc, state, frame, done)?;
    }
    Ok(None)
}

/// A body with a statement more, unless none stands there.
fn with_stated(body: BodyFrame, done: Built<Box<Statement>>) -> Mem<Option<BodyFrame>>
    ensures next { IfOk result (λ o. MatchOption o
        ((os : List Entry) (sc : Scope) (s : PartStack) (w : Word) → m.next_in parts_built (sc, body_in os body ∷ s, statement_part done) w ≡ None)
        (λ more. (os : List Entry) (sc : Scope) (s : PartStack) (w : Word) → m.next_in parts_built (sc, body_in os body ∷ s, statement_part done) w ≡ m.begin_part parts_built sc (body_in os more ∷ s) w)) }
    ensures outside { IfOk result (λ o. MatchOption o (Unit {0}) (λ more. (os : List Entry) → behind os (body_frame more) ≡ behind os (body_frame body))) }
{
    match body {
        BodyFrame::Block(at, before) => {
            Ok(Some(BodyFrame::Block(at, parts::push_stated(before, done)?)))
        }
        BodyFrame::Switch(at, value, brace, before) => {
            let all = parts::push_stated(before, done)?;
            Ok(Some(BodyFrame::Switch(at, value, brace, all)))
        }
        BodyFrame::Function(specs, declarator, brace, before) => {
            let all = parts::push_stated(before, done)?;
            Ok(Some(BodyFrame::Function(specs, declarator, brace, all)))
        }
        BodyFrame::Unit(_) => Ok(None),
    }
}

/// A token behind the statements of a body.
fn stated_in(
    alloc: Global,
    state: &mut ParserState,
    body: BodyFrame,
    done: Built<Box<Statement>>,
    terminal: Terminal,
    token: &Token,
) -> Mem<Option<Mode>>
    ensures { IfOk result (λ r. Stepped state.new r (m.next_in parts_built (scope state.old, under state.old (body_frame body), statement_part done) (word_of terminal token.now.text))) }
{
    let Some(body) = with_stated(body, done)? else {
        return Ok(None);
    };
    state.push(Frame::Body(body))?;
    begin_part(alloc, state, terminal, token)
}

/// A token behind the statement of a `do`.
fn do_part(
    state: &mut ParserState,
    frame: StatementFrame,
    done: Built<Box<Statement>>,
    terminal: Terminal,
) -> Mem<Option<Mode>>
    ensures { IfOk result (λ r. (text : Text) → Stepped state.new r (m.next_in parts_built (scope state.old, under state.old (statement_frame frame), statement_part done) (word_of terminal text))) }
{
    match frame {
        StatementFrame::Do(at) => {
            if !matches!(terminal, Terminal::Keyword(Keyword::While)) {
                return Ok(None);
            }
            Ok(Some(Mode::Statement(StatementMode::Opening(Aim::Do(at, done)))))
        }
        other => {
            drop(other);
            Ok(None)
        }
    }
}

/// A token behind a statement that ended all but its braces or its `do`.
fn next_in(
    alloc: Global,
    state: &mut ParserState,
    done: Built<Box<Statement>>,
    terminal: Terminal,
    token: &Token,
) -> Mem<Option<Mode>>
    ensures { IfOk result (λ r. Stepped state.new r (m.next_in parts_built (scope state.old, stack state.old, statement_part done) (word_of terminal token.now.text))) }
{
    let Some(frame) = state.pop() else {
        return Ok(None);
    };
    match frame {
        Frame::Body(body) => stated_in(alloc, state, body, done, terminal, token),
        Frame::Statement(frame) => do_part(state, frame, done, terminal),
        other => {
            drop(other);
            Ok(None)
        }
    }
}

/// A token behind a statement.
fn behind_statement(
    alloc: Global,
    state: &mut ParserState,
    done: Built<Box<Statement>>,
    terminal: Terminal,
    token: &Token,
) -> Mem<Option<Mode>>
    ensures { IfOk result (λ r. Stepped state.new r (m.done parts_built (m.is_else (word_of terminal token.now.text)) (scope state.old) (stack state.old) (statement_part done) (word_of terminal token.now.text))) }
{
    if matches!(terminal, Terminal::Keyword(Keyword::Else)) {
        return on_else(alloc, state, done);
    }
    let done = ended(alloc, state, done)?;
    next_in(alloc, state, done, terminal, token)
}

/// A token where the semicolon of a statement is wanted.
fn ending(
    state: &mut ParserState,
    done: Built<Box<Statement>>,
    terminal: Terminal,
) -> Mem<Option<Mode>>
    ensures { IfOk result (λ r. (text : Text) → Stepped state.new r (m.ending parts_built (scope state.old) (stack state.old) (statement_part done) (word_of terminal text))) }
{
    if !matches!(terminal, Terminal::Mark(Mark::Semicolon)) {
        return Ok(None);
    }
    Ok(Some(Mode::Statement(StatementMode::Done(done))))
}

/// The first token of the statement behind an `else`.
fn begin_else(
    alloc: Global,
    state: &mut ParserState,
    ladder: Span,
    branches: Built<Vec<Branch>>,
    terminal: Terminal,
    token: &Token,
) -> Mem<Option<Mode>>
    ensures { IfOk result (λ r. Stepped state.new r (m.statement parts_built (scope state.old) (InElseBody (branches_part branches) ∷ stack state.old) (word_of terminal token.now.text))) }
{
    state.push(Frame::Statement(StatementFrame::ElseBody(ladder, branches)))?;
    statement(alloc, state, terminal, token)
}

/// A token behind an `else`.
fn after_else(
    alloc: Global,
    state: &mut ParserState,
    ladder: Span,
    branches: Built<Vec<Branch>>,
    terminal: Terminal,
    token: &Token,
) -> Mem<Option<Mode>>
    ensures { IfOk result (λ r. Stepped state.new r (m.after_else parts_built (scope state.old) (stack state.old) (branches_part branches) (word_of terminal token.now.text))) }
{
    if is_if(terminal) {
        return Ok(Some(Mode::Statement(StatementMode::Opening(Aim::Test(
            ladder, branches, token.span,
        )))));
    }
    begin_else(alloc, state, ladder, branches, terminal, token)
}

/// The first token of the value that is returned.
fn begin_value(
    alloc: Global,
    state: &mut ParserState,
    at: Span,
    terminal: Terminal,
    token: &Token,
) -> Mem<Option<Mode>>
    ensures { IfOk result (λ r. Stepped state.new r (m.begin parts_built (scope state.old) (InReturn ∷ stack state.old) (word_of terminal token.now.text))) }
{
    state.push(Frame::Clause(ClauseFrame::Return(at)))?;
    begin(alloc, state, terminal, token)
}

/// A token behind `return`.
fn returning(
    alloc: Global,
    state: &mut ParserState,
    at: Span,
    terminal: Terminal,
    token: &Token,
) -> Mem<Option<Mode>>
    ensures { IfOk result (λ r. Stepped state.new r (m.returning parts_built (scope state.old) (stack state.old) (word_of terminal token.now.text))) }
{
    if matches!(terminal, Terminal::Mark(Mark::Semicolon)) {
        let done = parts::return_value(alloc, at, None)?;
        return Ok(Some(Mode::Statement(StatementMode::Done(done))));
    }
    begin_value(alloc, state, at, terminal, token)
}

/// A token where the brace of a `switch` is wanted.
fn switching(
    alloc: Global,
    state: &mut ParserState,
    at: Span,
    value: ExprPart,
    terminal: Terminal,
    brace: Span,
) -> Mem<Option<Mode>>
    ensures { IfOk result (λ r. (text : Text) → Stepped state.new r (m.switching parts_built (scope state.old) (stack state.old) (expr_of value) (word_of terminal text))) }
{
    if !matches!(terminal, Terminal::Mark(Mark::OpenBrace)) {
        return Ok(None);
    }
    state.enter()?;
    let none = parts::no_body(alloc);
    state.push(Frame::Body(BodyFrame::Switch(at, value, brace, none)))?;
    Ok(Some(Mode::Statement(StatementMode::Begin)))
}

/// A token behind `default`, which stands in the braces of a `switch` alone.
fn default_colon(state: &mut ParserState, at: Span, terminal: Terminal) -> Mem<Option<Mode>>
    ensures { IfOk result (λ r. (text : Text) → Stepped state.new r (m.default_colon parts_built (scope state.old) (stack state.old) (word_of terminal text))) }
{
    if !matches!(terminal, Terminal::Mark(Mark::Colon)) {
        return Ok(None);
    }
    let Some(frame) = state.pop() else {
        return Ok(None);
    };
    match frame {
        Frame::Body(BodyFrame::Switch(start, value, brace, body)) => {
            let body = parts::push_default(body, at)?;
            state.push(Frame::Body(BodyFrame::Switch(start, value, brace, body)))?;
            Ok(Some(Mode::Statement(StatementMode::Begin)))
        }
        other => {
            drop(other);
            Ok(None)
        }
    }
}

/// A token behind `for`.
fn open_for(state: &mut ParserState, at: Span, terminal: Terminal) -> Mem<Option<Mode>>
    ensures { IfOk result (λ r. (text : Text) → Stepped state.new r (m.open_for parts_built (scope state.old) (stack state.old) (word_of terminal text))) }
{
    if !matches!(terminal, Terminal::Mark(Mark::Open)) {
        return Ok(None);
    }
    state.enter()?;
    state.push(Frame::Clause(ClauseFrame::ForInit(at)))?;
    Ok(Some(Mode::Statement(StatementMode::ForInit)))
}

/// The first part of a `for` is left out.
fn no_start(alloc: Global, state: &mut ParserState) -> Mem<Option<Mode>>
    ensures { IfOk result (λ r. Stepped state.new r (m.no_start parts_built (scope state.old) (stack state.old))) }
{
    let Some(frame) = state.pop() else {
        return Ok(None);
    };
    match frame {
        Frame::Clause(ClauseFrame::ForInit(at)) => {
            let start = parts::start_value(alloc, None)?;
            state.push(Frame::Clause(ClauseFrame::ForCondition(at, start)))?;
            Ok(Some(Mode::Statement(StatementMode::ForCondition)))
        }
        other => {
            drop(other);
            Ok(None)
        }
    }
}

/// The first token of the first part of a `for`.
fn begin_start(
    alloc: Global,
    state: &mut ParserState,
    terminal: Terminal,
    token: &Token,
) -> Mem<Option<Mode>>
    ensures { IfOk result (λ r. Stepped state.new r (if spec_begins (scope state.old) (word_of terminal token.now.text ∷ []) then m.specs_step parts_built (scope state.old) (DeclSpecs ∷ stack state.old) parts_built.no_specs (word_of terminal token.now.text) else m.begin parts_built (scope state.old) (stack state.old) (word_of terminal token.now.text))) }
{
    if begins_specs(state, terminal, token) {
        return begin_declaration(alloc, state, terminal, token);
    }
    begin(alloc, state, terminal, token)
}

/// A token where the first part of a `for` begins.
fn for_starting(
    alloc: Global,
    state: &mut ParserState,
    terminal: Terminal,
    token: &Token,
) -> Mem<Option<Mode>>
    ensures { IfOk result (λ r. Stepped state.new r (m.for_starting parts_built (scope state.old) (stack state.old) (word_of terminal token.now.text))) }
{
    if is_assertion(terminal) {
        return Ok(Some(Mode::Statement(StatementMode::Opening(Aim::Assert(token.span)))));
    }
    if is_semicolon(terminal) {
        return no_start(alloc, state);
    }
    begin_start(alloc, state, terminal, token)
}

/// A token where the test of a `for` begins.
fn for_testing(
    alloc: Global,
    state: &mut ParserState,
    terminal: Terminal,
    token: &Token,
) -> Mem<Option<Mode>>
    ensures { IfOk result (λ r. Stepped state.new r (m.for_testing parts_built (scope state.old) (stack state.old) (word_of terminal token.now.text))) }
{
    if !matches!(terminal, Terminal::Mark(Mark::Semicolon)) {
        return begin(alloc, state, terminal, token);
    }
    let Some(frame) = state.pop() else {
        return Ok(None);
    };
    match frame {
        Frame::Clause(ClauseFrame::ForCondition(at, start)) => {
            state.push(Frame::Clause(ClauseFrame::ForStep(at, start, None)))?;
            Ok(Some(Mode::Statement(StatementMode::ForStep)))
        }
        other => {
            drop(other);
            Ok(None)
        }
    }
}

/// A token where the last part of a `for` in its parentheses begins.
fn for_aftering(
    alloc: Global,
    state: &mut ParserState,
    terminal: Terminal,
    token: &Token,
) -> Mem<Option<Mode>>
    ensures { IfOk result (λ r. Stepped state.new r (m.for_aftering parts_built (scope state.old) (stack state.old) (word_of terminal token.now.text))) }
{
    if !matches!(terminal, Terminal::Mark(Mark::Close)) {
        return begin(alloc, state, terminal, token);
    }
    let Some(frame) = state.pop() else {
        return Ok(None);
    };
    match frame {
        Frame::Clause(ClauseFrame::ForStep(at, start, test)) => {
            state.push(Frame::Statement(StatementFrame::For(at, start, test, None)))?;
            Ok(Some(Mode::Statement(StatementMode::Begin)))
        }
        other => {
            drop(other);
            Ok(None)
        }
    }
}

/// A token in a statement.
pub fn statement_step(
    alloc: Global,
    state: &mut ParserState,
    mode: StatementMode,
    terminal: Terminal,
    token: &Token,
) -> Mem<Option<Mode>>
    ensures { IfOk result (λ r. Stepped state.new r (m.step parts_built (scope state.old) (stack state.old) (statement_mode mode) (word_of terminal token.now.text))) }
{
    match mode {
        StatementMode::Opening(aim) => opening(state, aim, terminal),
        StatementMode::Begin => begin_part(alloc, state, terminal, token),
        StatementMode::Done(whole) => behind_statement(alloc, state, whole, terminal, token),
        StatementMode::Ending(whole) => ending(state, whole, terminal),
        StatementMode::AfterElse(at, branches) => after_else(
            alloc, state, at, branches, terminal, token,
        ),
        StatementMode::Returning(at) => returning(alloc, state, at, terminal, token),
        StatementMode::Switching(at, value) => switching(
            alloc, state, at, value, terminal, token.span,
        ),
        StatementMode::DefaultColon(at) => default_colon(state, at, terminal),
        StatementMode::OpenFor(at) => open_for(state, at, terminal),
        StatementMode::ForInit => for_starting(alloc, state, terminal, token),
        StatementMode::ForCondition => for_testing(alloc, state, terminal, token),
        StatementMode::ForStep => for_aftering(alloc, state, terminal, token),
    }
}
