//! Expressions, token by token (C11 6.5).

ghost use Rattle.std.specs.Prelude.{◌≡◌, ◌<◌, false, ◌∷◌, OnOk, IfOk, Some, None, if◌then◌else◌, nat_lt};
ghost use Rattle.ct_parser_state.specs.Code.{Stepped, entries, frames, outside, stack, scope, under, clause_frame, operand_frame, value_frame};
ghost use Rattle.ct_grammar_machine.specs.Frames.{CastSpecs, SizeofSpecs, InCall, InParen, Want, mark_pull as spec_pull, needs, stack_needs};
ghost use Rattle.ct_grammar_machine.specs.Steps as m;
ghost use Rattle.ct_parser_state.specs.Terminals.{word_of};
ghost use Rattle.ct_parser_state.specs.declared.frames.Frame.TheVariants.{Clause as clause, Value as value};
ghost use Rattle.ct_parser_parts.specs.Parts.{parts_built};
ghost use Rattle.ct_parser_parts.specs.Views.{expr_of, enumerators_part};
ghost use Rattle.ct_syntax.specs.Scopes.{with_name};
ghost use Rattle.ct_syntax.specs.Words.{Text};

use ct_base::{BinaryOp, Bytes, Items, Mem, Span, Token};
use ct_parser_declarators::{
    declarator_started, is_close, item_ended, sizeof_place, specs_step, wanting,
};
use ct_parser_parts as parts;
use ct_parser_parts::{Aimed, EnumeratorsPart, ExprPart};
use ct_parser_state::{
    AssertMode, BodyFrame, ClauseFrame, DeclaratorMode, Frame, InitMode, ListFrame, Mode,
    OperandFrame, ParserState, SpecsFrame, SpecsMode, StatementFrame, StatementMode, Terminal,
    ValueFrame, ValueMode, operand_holds,
};
use ct_syntax::{AssignOp, InfixOp, Keyword, Mark, MemberOp, PrefixOp};
use std::alloc::Global;

/// How far a mark behind an operand reaches back: it ends the productions that hold at least so tightly.
pub fn mark_pull(mark: Mark) -> u8
    ensures { result ≡ spec_pull mark }
{
    match mark {
        Mark::Open | Mark::OpenBracket | Mark::Member(_) | Mark::Step(_) => 16,
        Mark::Infix(op) => parts::infix_level(op),
        Mark::Assign(_) | Mark::Question => 4,
        Mark::Close | Mark::CloseBracket | Mark::OpenBrace | Mark::CloseBrace | Mark::Comma => 1,
        Mark::Semicolon | Mark::Colon | Mark::Ellipsis | Mark::Complement | Mark::Not => 1,
    }
}

/// The expression of a production, with its last operand.
fn plug(alloc: Global, frame: OperandFrame, x: ExprPart) -> Mem<ExprPart>
    ensures { IfOk result (λ p. expr_of p ≡ m.plug parts_built (operand_frame frame) (expr_of x)) }
{
    match frame {
        OperandFrame::Prefix(at, op) => parts::prefix(alloc, at, op, x),
        OperandFrame::Unary(at, op) => parts::unary(alloc, at, op, x),
        OperandFrame::Sizeof(at) => parts::sizeof_value(alloc, at, x),
        OperandFrame::Cast(at, specs, declarator) => parts::cast(alloc, at, specs, declarator, x),
        OperandFrame::Infix(op, left) => parts::infix(alloc, op, left, x),
        OperandFrame::Else(test, yes) => parts::conditional(alloc, test, yes, x),
        OperandFrame::Assign(op, left) => parts::assign(alloc, op, left, x),
        OperandFrame::Comma(left) => parts::comma(alloc, left, x),
    }
}

/// Ends the productions that hold at least so tightly.
pub fn reduce(alloc: Global, state: &mut ParserState, x: ExprPart, pull: u8) -> Mem<ExprPart>
    requires { 0 < pull }
    ensures stack { IfOk result (λ p. m.reduced parts_built pull (stack state.old) (expr_of x) ≡ (stack state.new, expr_of p)) }
    ensures names { entries state.new ≡ entries state.old }
{
    let mut x = x;
    while let Some(frame) = state.pop() {
        let Frame::Operand(frame) = frame else {
            state.push(frame)?;
            return Ok(x);
        };
        if operand_holds(&frame) < pull {
            state.push(Frame::Operand(frame))?;
            return Ok(x);
        }
        x = plug(alloc, frame, x)?;
    }
    Ok(x)
}

/// The end of the parentheses of a statement.
fn clause_closed(
    alloc: Global,
    state: &mut ParserState,
    frame: ClauseFrame,
    x: ExprPart,
) -> Mem<Option<Mode>>
    ensures { IfOk result (λ r. Stepped state.new r (m.on_close parts_built (scope state.old) (under state.old (clause frame)) (expr_of x))) }
{
    match frame {
        ClauseFrame::Test(ladder, before, at) => {
            state.push(Frame::Statement(StatementFrame::Branch(ladder, before, at, x)))?;
            Ok(Some(Mode::Statement(StatementMode::Begin)))
        }
        ClauseFrame::LoopTest(at) => {
            state.push(Frame::Statement(StatementFrame::While(at, x)))?;
            Ok(Some(Mode::Statement(StatementMode::Begin)))
        }
        ClauseFrame::ForStep(at, start, test) => {
            state.push(Frame::Statement(StatementFrame::For(at, start, test, Some(x))))?;
            Ok(Some(Mode::Statement(StatementMode::Begin)))
        }
        ClauseFrame::DoTest(at, body) => {
            Ok(Some(Mode::Statement(StatementMode::Ending(parts::do_loop(alloc, at, body, x)?))))
        }
        ClauseFrame::SwitchTest(at) => Ok(Some(Mode::Statement(StatementMode::Switching(at, x)))),
        other => {
            drop(other);
            Ok(None)
        }
    }
}

/// A closing parenthesis behind the expression in parentheses or the last argument.
fn value_closed(
    alloc: Global,
    state: &mut ParserState,
    frame: ValueFrame,
    x: ExprPart,
) -> Mem<Option<Mode>>
    ensures { IfOk result (λ r. Stepped state.new r (m.on_close parts_built (scope state.old) (under state.old (value frame)) (expr_of x))) }
{
    match frame {
        ValueFrame::Paren(at) => {
            Ok(Some(Mode::Value(ValueMode::Have(parts::paren(alloc, at, x)?))))
        }
        ValueFrame::Call(function, before) => {
            let all = parts::push_argument(before, x)?;
            Ok(Some(Mode::Value(ValueMode::Have(parts::call(alloc, function, all)?))))
        }
        other => {
            drop(other);
            Ok(None)
        }
    }
}

/// A closing parenthesis behind an expression.
fn on_close(alloc: Global, state: &mut ParserState, x: ExprPart) -> Mem<Option<Mode>>
    ensures { IfOk result (λ r. Stepped state.new r (m.on_close parts_built (scope state.old) (stack state.old) (expr_of x))) }
{
    let Some(frame) = state.pop() else {
        return Ok(None);
    };
    match frame {
        Frame::Clause(frame) => clause_closed(alloc, state, frame, x),
        Frame::Value(frame) => value_closed(alloc, state, frame, x),
        other => {
            drop(other);
            Ok(None)
        }
    }
}

/// A closing bracket behind an expression.
fn on_close_bracket(alloc: Global, state: &mut ParserState, x: ExprPart) -> Mem<Option<Mode>>
    ensures { IfOk result (λ r. Stepped state.new r (m.on_close_bracket parts_built (scope state.old) (stack state.old) (expr_of x))) }
{
    let Some(frame) = state.pop() else {
        return Ok(None);
    };
    match frame {
        Frame::Value(ValueFrame::Index(array)) => Ok(Some(Mode::Value(ValueMode::Have(parts::index(
            alloc, array, x,
        )?)))),
        Frame::Value(ValueFrame::Array(purpose, inner)) => {
            Ok(Some(Mode::Declarator(DeclaratorMode::Have(
                purpose,
                parts::array(alloc, inner, x)?,
            ))))
        }
        Frame::Value(ValueFrame::Place(at, items, bracket)) => {
            state.push(Frame::List(ListFrame::Braces(at, items)))?;
            Ok(Some(Mode::Init(InitMode::Placed(bracket, Aimed::Index(bracket, x)))))
        }
        other => {
            drop(other);
            Ok(None)
        }
    }
}

/// The enumerators up to one with a value, whose name is declared.
fn valued(
    alloc: Global,
    state: &mut ParserState,
    before: EnumeratorsPart,
    place: Span,
    name: Bytes,
    x: ExprPart,
) -> Mem<EnumeratorsPart>
    ensures all { IfOk result (λ p. enumerators_part p ≡ parts_built.push_valued (enumerators_part before) name (expr_of x)) }
    ensures scope { OnOk result (scope state.new ≡ with_name (scope state.old) name false) }
    ensures outside { OnOk result (outside (entries state.new) ≡ outside (entries state.old)) }
    ensures frames { OnOk result (frames state.new ≡ frames state.old) }
{
    state.declare(Bytes::from_slice(alloc, name.as_slice())?, false)?;
    parts::push_valued(alloc, before, place, name, x)
}

/// A comma behind an expression in a list.
fn comma_in_list(
    alloc: Global,
    state: &mut ParserState,
    frame: ValueFrame,
    x: ExprPart,
) -> Mem<Option<Mode>>
    requires { 1 < needs (value_frame frame) }
    ensures { IfOk result (λ r. Stepped state.new r (m.on_comma parts_built (scope state.old) (under state.old (value frame)) (expr_of x))) }
{
    match frame {
        ValueFrame::Call(function, before) => {
            let before = parts::push_argument(before, x)?;
            wanting(state, Frame::Value(ValueFrame::Call(function, before)))
        }
        ValueFrame::Enumerator(at, specs, tag, before, place, name) => {
            let before = valued(alloc, state, before, place, name, x)?;
            state.push(Frame::List(ListFrame::Enumerators(at, specs, tag, before)))?;
            Ok(Some(Mode::Specs(SpecsMode::NextEnumerator)))
        }
        ValueFrame::Init(specs, before, declarator) => {
            let start = parts::value_init(x)?;
            declarator_started(state, Mark::Comma, specs, before, declarator, start)
        }
        ValueFrame::Item(at, before, place, aim) => {
            let start = parts::value_init(x)?;
            item_ended(alloc, state, Mark::Comma, at, before, place, aim, start)
        }
        other => {
            drop(other);
            Ok(None)
        }
    }
}

/// A comma behind the condition of an assertion.
fn clause_listed(state: &mut ParserState, frame: ClauseFrame, x: ExprPart) -> Mem<Option<Mode>>
    requires { 1 < needs (clause_frame (outside (entries state.old)) frame) }
    ensures { IfOk result (λ r. Stepped state.new r (m.on_comma parts_built (scope state.old) (under state.old (clause frame)) (expr_of x))) }
{
    match frame {
        ClauseFrame::Assert(at) => Ok(Some(Mode::Assert(AssertMode::Text(at, x)))),
        other => {
            drop(other);
            Ok(None)
        }
    }
}

/// A comma behind an expression.
fn on_comma(alloc: Global, state: &mut ParserState, x: ExprPart) -> Mem<Option<Mode>>
    ensures { IfOk result (λ r. Stepped state.new r (m.on_comma parts_built (scope state.old) (stack state.old) (expr_of x))) }
{
    if state.needs() <= 1 {
        return wanting(state, Frame::Operand(OperandFrame::Comma(x)));
    }
    let Some(frame) = state.pop() else {
        return Ok(None);
    };
    match frame {
        Frame::Clause(frame) => clause_listed(state, frame, x),
        Frame::Value(frame) => comma_in_list(alloc, state, frame, x),
        other => {
            drop(other);
            Ok(None)
        }
    }
}

/// The colon of a label `case`, which stands in the braces of a `switch` alone.
fn case_done(state: &mut ParserState, at: Span, x: ExprPart) -> Mem<Option<Mode>>
    ensures { IfOk result (λ r. Stepped state.new r (m.case_done parts_built (scope state.old) (stack state.old) (expr_of x))) }
{
    let Some(frame) = state.pop() else {
        return Ok(None);
    };
    match frame {
        Frame::Body(BodyFrame::Switch(start, value, brace, body)) => {
            let body = parts::push_case(body, at, x)?;
            state.push(Frame::Body(BodyFrame::Switch(start, value, brace, body)))?;
            Ok(Some(Mode::Statement(StatementMode::Begin)))
        }
        other => {
            drop(other);
            Ok(None)
        }
    }
}

/// A colon behind the middle part of a conditional expression.
fn value_parted(state: &mut ParserState, frame: ValueFrame, x: ExprPart) -> Mem<Option<Mode>>
    ensures { IfOk result (λ r. Stepped state.new r (m.on_colon parts_built (scope state.old) (under state.old (value frame)) (expr_of x))) }
{
    match frame {
        ValueFrame::Then(test) => wanting(state, Frame::Operand(OperandFrame::Else(test, x))),
        other => {
            drop(other);
            Ok(None)
        }
    }
}

/// A colon behind the value of a label.
fn clause_parted(state: &mut ParserState, frame: ClauseFrame, x: ExprPart) -> Mem<Option<Mode>>
    ensures { IfOk result (λ r. Stepped state.new r (m.on_colon parts_built (scope state.old) (under state.old (clause frame)) (expr_of x))) }
{
    match frame {
        ClauseFrame::Case(at) => case_done(state, at, x),
        other => {
            drop(other);
            Ok(None)
        }
    }
}

/// A colon behind an expression.
fn on_colon(state: &mut ParserState, x: ExprPart) -> Mem<Option<Mode>>
    ensures { IfOk result (λ r. Stepped state.new r (m.on_colon parts_built (scope state.old) (stack state.old) (expr_of x))) }
{
    let Some(frame) = state.pop() else {
        return Ok(None);
    };
    match frame {
        Frame::Value(frame) => value_parted(state, frame, x),
        Frame::Clause(frame) => clause_parted(state, frame, x),
        other => {
            drop(other);
            Ok(None)
        }
    }
}

/// A closing brace behind a value in braces.
fn value_braced(
    alloc: Global,
    state: &mut ParserState,
    frame: ValueFrame,
    x: ExprPart,
) -> Mem<Option<Mode>>
    ensures { IfOk result (λ r. Stepped state.new r (m.on_close_brace parts_built (scope state.old) (under state.old (value frame)) (expr_of x))) }
{
    match frame {
        ValueFrame::Enumerator(at, specs, tag, before, place, name) => {
            let all = valued(alloc, state, before, place, name, x)?;
            Ok(Some(Mode::Specs(SpecsMode::Next(parts::with_enum(specs, at, tag, all, false)?))))
        }
        ValueFrame::Item(at, before, place, aim) => {
            let start = parts::value_init(x)?;
            item_ended(
                alloc,
                state,
                Mark::CloseBrace,
                at,
                before,
                place,
                aim,
                start,
            )
        }
        other => {
            drop(other);
            Ok(None)
        }
    }
}

/// A closing brace behind an expression.
fn on_close_brace(alloc: Global, state: &mut ParserState, x: ExprPart) -> Mem<Option<Mode>>
    ensures { IfOk result (λ r. Stepped state.new r (m.on_close_brace parts_built (scope state.old) (stack state.old) (expr_of x))) }
{
    let Some(frame) = state.pop() else {
        return Ok(None);
    };
    match frame {
        Frame::Value(frame) => value_braced(alloc, state, frame, x),
        other => {
            drop(other);
            Ok(None)
        }
    }
}

/// A semicolon behind an expression of a statement.
fn clause_ended(
    alloc: Global,
    state: &mut ParserState,
    frame: ClauseFrame,
    x: ExprPart,
) -> Mem<Option<Mode>>
    ensures { IfOk result (λ r. Stepped state.new r (m.on_semicolon parts_built (scope state.old) (under state.old (clause frame)) (expr_of x))) }
{
    match frame {
        ClauseFrame::Run(at) => Ok(Some(Mode::Statement(StatementMode::Done(parts::run(
            alloc,
            at,
            Some(x),
        )?)))),
        ClauseFrame::Return(at) => {
            Ok(Some(Mode::Statement(StatementMode::Done(parts::return_value(alloc, at, Some(x))?))))
        }
        ClauseFrame::ForInit(at) => {
            let start = parts::start_value(alloc, Some(x))?;
            state.push(Frame::Clause(ClauseFrame::ForCondition(at, start)))?;
            Ok(Some(Mode::Statement(StatementMode::ForCondition)))
        }
        ClauseFrame::ForCondition(at, start) => {
            state.push(Frame::Clause(ClauseFrame::ForStep(at, start, Some(x))))?;
            Ok(Some(Mode::Statement(StatementMode::ForStep)))
        }
        other => {
            drop(other);
            Ok(None)
        }
    }
}

/// A semicolon behind the initialiser of the last declarator.
fn value_ended(state: &mut ParserState, frame: ValueFrame, x: ExprPart) -> Mem<Option<Mode>>
    ensures { IfOk result (λ r. Stepped state.new r (m.on_semicolon parts_built (scope state.old) (under state.old (value frame)) (expr_of x))) }
{
    match frame {
        ValueFrame::Init(specs, before, declarator) => {
            let start = parts::value_init(x)?;
            declarator_started(state, Mark::Semicolon, specs, before, declarator, start)
        }
        other => {
            drop(other);
            Ok(None)
        }
    }
}

/// A semicolon behind an expression.
fn on_semicolon(alloc: Global, state: &mut ParserState, x: ExprPart) -> Mem<Option<Mode>>
    ensures { IfOk result (λ r. Stepped state.new r (m.on_semicolon parts_built (scope state.old) (stack state.old) (expr_of x))) }
{
    let Some(frame) = state.pop() else {
        return Ok(None);
    };
    match frame {
        Frame::Clause(frame) => clause_ended(alloc, state, frame, x),
        Frame::Value(frame) => value_ended(state, frame, x),
        other => {
            drop(other);
            Ok(None)
        }
    }
}

/// An assignment stands only where one may, and its left side is a unary production (C11 6.5.16).
fn on_assign(state: &mut ParserState, op: AssignOp, x: ExprPart) -> Mem<Option<Mode>>
    ensures { IfOk result (λ r. Stepped state.new r (m.on_assign parts_built (scope state.old) op (stack state.old) (expr_of x))) }
{
    if state.needs() > 2 {
        return Ok(None);
    }
    if x.level < 15 {
        return Ok(None);
    }
    wanting(state, Frame::Operand(OperandFrame::Assign(op, x)))
}

/// A mark behind an operand, once what it ends is ended. Some stand behind a postfix production alone (C11 6.5.2).
fn act(alloc: Global, state: &mut ParserState, mark: Mark, x: ExprPart) -> Mem<Option<Mode>>
    ensures { IfOk result (λ r. Stepped state.new r (m.act parts_built (scope state.old) mark (stack state.old) (expr_of x))) }
{
    match mark {
        Mark::Open => {
            if x.level < 16 {
                return Ok(None);
            }
            Ok(Some(Mode::Value(ValueMode::First(x))))
        }
        Mark::OpenBracket => {
            if x.level < 16 {
                return Ok(None);
            }
            wanting(state, Frame::Value(ValueFrame::Index(x)))
        }
        Mark::Member(op) => {
            if x.level < 16 {
                return Ok(None);
            }
            Ok(Some(Mode::Value(ValueMode::Dotted(x, op))))
        }
        Mark::Step(op) => {
            if x.level < 16 {
                return Ok(None);
            }
            Ok(Some(Mode::Value(ValueMode::Have(parts::postfix(alloc, x, op)?))))
        }
        Mark::Infix(op) => wanting(state, Frame::Operand(OperandFrame::Infix(op, x))),
        Mark::Assign(op) => on_assign(state, op, x),
        Mark::Question => wanting(state, Frame::Value(ValueFrame::Then(x))),
        Mark::Close => on_close(alloc, state, x),
        Mark::CloseBracket => on_close_bracket(alloc, state, x),
        Mark::Comma => on_comma(alloc, state, x),
        Mark::Colon => on_colon(state, x),
        Mark::CloseBrace => on_close_brace(alloc, state, x),
        Mark::Semicolon => on_semicolon(alloc, state, x),
        Mark::OpenBrace | Mark::Ellipsis | Mark::Complement | Mark::Not => Ok(None),
    }
}

/// A token behind an operand.
#[tactic(auto, using(crate::proofs::Pulls::pull_some))]
pub fn after(
    alloc: Global,
    state: &mut ParserState,
    x: ExprPart,
    terminal: Terminal,
) -> Mem<Option<Mode>>
    ensures { IfOk result (λ r. (text : Text) → Stepped state.new r (m.after parts_built (scope state.old) (stack state.old) (expr_of x) (word_of terminal text))) }
{
    let Terminal::Mark(mark) = terminal else {
        return Ok(None);
    };
    let x = reduce(alloc, state, x, mark_pull(mark))?;
    act(alloc, state, mark, x)
}

/// The specifiers of a cast, behind its open parenthesis.
fn begin_cast(
    alloc: Global,
    state: &mut ParserState,
    at: Span,
    terminal: Terminal,
    token: &Token,
) -> Mem<Option<Mode>>
    ensures { IfOk result (λ r. Stepped state.new r (if nat_lt 14 (stack_needs (stack state.old)) then None else m.specs_step parts_built (scope state.old) (CastSpecs (scope state.old) ∷ stack state.old) parts_built.no_specs (word_of terminal token.now.text))) }
{
    if state.needs() > 14 {
        return Ok(None);
    }
    state.enter()?;
    state.push(Frame::Specs(SpecsFrame::Cast(at)))?;
    specs_step(
        alloc,
        state,
        parts::no_specs(alloc, token.span),
        terminal,
        token,
    )
}

/// The specifiers of a type that is the operand of `sizeof`, behind its open parenthesis.
fn begin_sizeof(
    alloc: Global,
    state: &mut ParserState,
    at: Span,
    terminal: Terminal,
    token: &Token,
) -> Mem<Option<Mode>>
    ensures { IfOk result (λ r. Stepped state.new r (m.specs_step parts_built (scope state.old) (SizeofSpecs (scope state.old) ∷ stack state.old) parts_built.no_specs (word_of terminal token.now.text))) }
{
    state.enter()?;
    state.push(Frame::Specs(SpecsFrame::Sizeof(at)))?;
    specs_step(
        alloc,
        state,
        parts::no_specs(alloc, token.span),
        terminal,
        token,
    )
}

/// The specifiers of a cast, with the production that the parenthesis stands in.
fn begin_cast_in(
    alloc: Global,
    state: &mut ParserState,
    at: Span,
    frame: Frame,
    terminal: Terminal,
    token: &Token,
) -> Mem<Option<Mode>>
    ensures { IfOk result (λ r. Stepped state.new r (if nat_lt 14 (stack_needs (under state.old frame)) then None else m.specs_step parts_built (scope state.old) (CastSpecs (scope state.old) ∷ under state.old frame) parts_built.no_specs (word_of terminal token.now.text))) }
{
    state.push(frame)?;
    begin_cast(alloc, state, at, terminal, token)
}

/// A type behind an open parenthesis that was taken off (C11 6.5.3.4, 6.5.4).
fn begin_inside(
    alloc: Global,
    state: &mut ParserState,
    at: Span,
    terminal: Terminal,
    token: &Token,
) -> Mem<Option<Mode>>
    ensures { IfOk result (λ r. Stepped state.new r (m.begin_type parts_built (scope state.old) (InParen ∷ stack state.old) (word_of terminal token.now.text))) }
{
    let Some(frame) = state.pop() else {
        return begin_cast(alloc, state, at, terminal, token);
    };
    match sizeof_place(&frame) {
        Some(place) => {
            drop(frame);
            begin_sizeof(alloc, state, place, terminal, token)
        }
        None => begin_cast_in(alloc, state, at, frame, terminal, token),
    }
}

/// A type right behind an open parenthesis begins a cast, or is the operand of `sizeof`.
fn begin_type(
    alloc: Global,
    state: &mut ParserState,
    terminal: Terminal,
    token: &Token,
) -> Mem<Option<Mode>>
    ensures { IfOk result (λ r. Stepped state.new r (m.begin_type parts_built (scope state.old) (stack state.old) (word_of terminal token.now.text))) }
{
    let Some(Frame::Value(ValueFrame::Paren(at))) = state.pop() else {
        return Ok(None);
    };
    begin_inside(alloc, state, at, terminal, token)
}

/// A name where an operand is wanted.
fn named(alloc: Global, state: &mut ParserState, token: &Token) -> Mem<Option<Mode>>
    ensures { IfOk result (λ r. Stepped state.new r (m.named parts_built (scope state.old token.now.text) (scope state.old) (stack state.old) token.now.text)) }
{
    if state.is_type(token.text.as_slice()) {
        return begin_type(alloc, state, Terminal::Name, token);
    }
    let text = Bytes::from_slice(alloc, token.text.as_slice())?;
    Ok(Some(Mode::Value(ValueMode::Have(parts::name(alloc, token.span, text)?))))
}

/// The operator that a mark is before an operand (C11 6.5.3).
fn prefix_of(mark: Mark) -> Option<PrefixOp>
    ensures { result ≡ m.prefix_of mark }
{
    match mark {
        Mark::Complement => Some(PrefixOp::Complement),
        Mark::Not => Some(PrefixOp::Not),
        Mark::Infix(InfixOp::Number(op)) => match op {
            BinaryOp::And => Some(PrefixOp::Address),
            BinaryOp::Multiply => Some(PrefixOp::Dereference),
            BinaryOp::Add => Some(PrefixOp::Plus),
            BinaryOp::Subtract => Some(PrefixOp::Minus),
            _ => None,
        },
        _ => None,
    }
}

/// A mark where an operand is wanted.
fn begin_mark(state: &mut ParserState, mark: Mark, at: Span) -> Mem<Option<Mode>>
    ensures { IfOk result (λ r. Stepped state.new r (m.begin_mark parts_built (scope state.old) (stack state.old) mark)) }
{
    match mark {
        Mark::Open => wanting(state, Frame::Value(ValueFrame::Paren(at))),
        Mark::Step(op) => wanting(state, Frame::Operand(OperandFrame::Prefix(at, op))),
        _ => {
            let Some(op) = prefix_of(mark) else {
                return Ok(None);
            };
            wanting(state, Frame::Operand(OperandFrame::Unary(at, op)))
        }
    }
}

/// A token where an operand is wanted.
pub fn begin(
    alloc: Global,
    state: &mut ParserState,
    terminal: Terminal,
    token: &Token,
) -> Mem<Option<Mode>>
    ensures { IfOk result (λ r. Stepped state.new r (m.begin parts_built (scope state.old) (stack state.old) (word_of terminal token.now.text))) }
{
    match terminal {
        Terminal::Name => named(alloc, state, token),
        Terminal::Number => {
            let text = Bytes::from_slice(alloc, token.text.as_slice())?;
            Ok(Some(Mode::Value(ValueMode::Have(parts::number(alloc, token.span, text)?))))
        }
        Terminal::Character => {
            let text = Bytes::from_slice(alloc, token.text.as_slice())?;
            Ok(Some(Mode::Value(ValueMode::Have(parts::character(alloc, token.span, text)?))))
        }
        Terminal::Text => {
            let text = Bytes::from_slice(alloc, token.text.as_slice())?;
            Ok(Some(Mode::Value(ValueMode::Texts(token.span, text, Items::new(alloc)))))
        }
        Terminal::Mark(mark) => begin_mark(state, mark, token.span),
        Terminal::Keyword(Keyword::Sizeof) => wanting(
            state,
            Frame::Operand(OperandFrame::Sizeof(token.span)),
        ),
        Terminal::Keyword(_) => begin_type(alloc, state, terminal, token),
        Terminal::Stray => Ok(None),
    }
}

/// A token behind string literals.
pub fn texts(
    alloc: Global,
    state: &mut ParserState,
    at: Span,
    text: Bytes,
    more: Items<Bytes>,
    terminal: Terminal,
    token: &Token,
) -> Mem<Option<Mode>>
    ensures { IfOk result (λ r. Stepped state.new r (m.texts parts_built (scope state.old) (stack state.old) text more (word_of terminal token.now.text))) }
{
    let mut more = more;
    if matches!(terminal, Terminal::Text) {
        more.push(Bytes::from_slice(alloc, token.text.as_slice())?)?;
        return Ok(Some(Mode::Value(ValueMode::Texts(at, text, more))));
    }
    let x = parts::strings(alloc, at, text, more)?;
    after(alloc, state, x, terminal)
}

/// The first argument of a call, from its first token on.
fn argument_begins(
    alloc: Global,
    state: &mut ParserState,
    function: ExprPart,
    terminal: Terminal,
    token: &Token,
) -> Mem<Option<Mode>>
    ensures { IfOk result (λ r. Stepped state.new r (m.begin parts_built (scope state.old) (InCall (expr_of function) parts_built.no_arguments ∷ stack state.old) (word_of terminal token.now.text))) }
{
    let none = parts::no_arguments(alloc);
    state.push(Frame::Value(ValueFrame::Call(function, none)))?;
    begin(alloc, state, terminal, token)
}

/// A token behind the open parenthesis of a call.
pub fn first(
    alloc: Global,
    state: &mut ParserState,
    function: ExprPart,
    terminal: Terminal,
    token: &Token,
) -> Mem<Option<Mode>>
    ensures { IfOk result (λ r. Stepped state.new r (m.first parts_built (scope state.old) (stack state.old) (expr_of function) (word_of terminal token.now.text))) }
{
    if is_close(terminal) {
        let none = parts::no_arguments(alloc);
        let whole = parts::call(alloc, function, none)?;
        return Ok(Some(Mode::Value(ValueMode::Have(whole))));
    }
    argument_begins(alloc, state, function, terminal, token)
}

/// A token where the name of a member is wanted.
pub fn dotted(
    alloc: Global,
    state: &mut ParserState,
    whole: ExprPart,
    op: MemberOp,
    terminal: Terminal,
    token: &Token,
) -> Mem<Option<Mode>>
    ensures { IfOk result (λ r. Stepped state.new r (m.dotted parts_built (scope state.old) (stack state.old) (expr_of whole) op (word_of terminal token.now.text))) }
{
    if !matches!(terminal, Terminal::Name) {
        return Ok(None);
    }
    let text = Bytes::from_slice(alloc, token.text.as_slice())?;
    Ok(Some(Mode::Value(ValueMode::Have(parts::member(alloc, whole, op, text)?))))
}
