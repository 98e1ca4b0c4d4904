//! Declarators, token by token (C11 6.7.6, 6.7.7).

ghost use Rattle.std.specs.Prelude.{◌≡◌, OnOk, IfOk, Some, None, [], if◌then◌else◌};
ghost use Rattle.ct_parser_state.specs.Code.{Stepped, entries, frames, outside, stack, scope, under, kind_of};
ghost use Rattle.ct_grammar_machine.specs.Frames.{Qualifying};
ghost use Rattle.ct_grammar_machine.specs.Steps as m;
ghost use Rattle.ct_parser_state.specs.Terminals.{word_of};
ghost use Rattle.ct_parser_state.specs.declared.frames.Frame.TheVariants.{Declarator as declarator};
ghost use Rattle.ct_parser_state.specs.declared.state.ParserState.{ParserState as Held};
ghost use Rattle.ct_parser_parts.specs.Parts.{parts_built};
ghost use Rattle.ct_parser_parts.specs.Views.{declarator_part, declarators_part, init_declarators_part, members_part, parameters_part, specs_part};
ghost use Rattle.ct_syntax.specs.Scopes.{with_maybe};
ghost use Rattle.ct_syntax.specs.Words.{Text, Sign};
ghost use Rattle.ct_syntax.specs.declared.words.Mark.TheVariants.{Close as close, Comma as comma, Semicolon as semicolon, Assign as assign, OpenBrace as open_brace};
ghost use Rattle.ct_syntax.specs.declared.words.AssignOp.TheVariants.{Plain as plain};

use crate::declarations::{declaration_done, definition_opens};
use crate::frames::wanting;
use crate::signs::opens;
use ct_base::{BinaryOp, Bytes, Items, Mem, Span, Token};
use ct_parser_parts as parts;
use ct_parser_parts::{Built, DeclaratorPart, MembersPart, ParametersPart, SpecsPart};
use ct_parser_state::{
    DeclaratorFrame, DeclaratorMode, Frame, InitMode, Mode, OperandFrame, ParserState, Purpose,
    SpecsFrame, SpecsMode, Terminal, ValueFrame, ValueMode,
};
use ct_syntax::{
    AssignOp, Declarator, InfixOp, InitDeclarator, Keyword, Mark, ParameterForm, Qualifier,
    SpecWord,
};
use std::alloc::Global;

/// Ends the pointers whose last part is read.
fn end_pointers(
    alloc: Global,
    state: &mut ParserState,
    inner: DeclaratorPart,
) -> Mem<DeclaratorPart>
    ensures stack { IfOk result (λ p. m.reduced_pointers parts_built (stack state.old) (declarator_part inner) ≡ (stack state.new, declarator_part p)) }
    ensures names { entries state.new ≡ entries state.old }
{
    let mut inner = inner;
    while let Some(frame) = state.pop() {
        let Frame::Declarator(DeclaratorFrame::Pointer(at, _, qualifiers)) = frame else {
            state.push(frame)?;
            return Ok(inner);
        };
        inner = parts::pointer(alloc, at, qualifiers, inner)?;
    }
    Ok(inner)
}

/// A function with its parameters, which are `(void)` where there is that one word alone.
fn closed(alloc: Global, inner: DeclaratorPart, parameters: ParametersPart) -> Mem<DeclaratorPart>
    ensures { IfOk result (λ p. declarator_part p ≡ m.closed parts_built (declarator_part inner) (parameters_part parameters)) }
{
    if parameters.only_void {
        return parts::function(
            alloc,
            inner,
            ParameterForm::Void,
            parts::no_parameters(alloc),
        );
    }
    parts::function(alloc, inner, ParameterForm::Fixed, parameters)
}

/// Declares the name of a declarator, if it has one.
fn declare_named(
    alloc: Global,
    state: &mut ParserState,
    declarator: &DeclaratorPart,
    is_type: bool,
) -> Mem<()>
    ensures scope { OnOk result (scope state.new ≡ with_maybe (scope state.old) (parts_built.name_in (declarator_part declarator.now)) is_type) }
    ensures outside { OnOk result (outside (entries state.new) ≡ outside (entries state.old)) }
    ensures frames { OnOk result (frames state.new ≡ frames state.old) }
{
    let Some(name) = &declarator.name else {
        return Ok(());
    };
    let name = Bytes::from_slice(alloc, name.as_slice())?;
    state.declare(name, is_type)?;
    Ok(())
}

/// A closing parenthesis behind a whole declarator, by the production that it ends.
fn frame_closed(
    alloc: Global,
    state: &mut ParserState,
    frame: DeclaratorFrame,
    inner: DeclaratorPart,
) -> Mem<Option<Mode>>
    ensures { IfOk result (λ r. Stepped state.new r (m.declarator_done parts_built (scope state.old) close (under state.old (declarator frame), declarator_part inner))) }
{
    match frame {
        DeclaratorFrame::Group(at, purpose) => {
            Ok(Some(Mode::Declarator(DeclaratorMode::Have(
                purpose,
                parts::group(alloc, at, inner)?,
            ))))
        }
        DeclaratorFrame::Cast(at, specs) => {
            state.leave();
            wanting(state, Frame::Operand(OperandFrame::Cast(at, specs, inner)))
        }
        DeclaratorFrame::Sizeof(at, specs) => {
            state.leave();
            Ok(Some(Mode::Value(ValueMode::Have(parts::sizeof_type(alloc, at, specs, inner)?))))
        }
        DeclaratorFrame::Parameter(purpose, outer, before, specs) => {
            state.leave();
            let all = parts::push_parameter(before, specs, inner)?;
            Ok(Some(Mode::Declarator(DeclaratorMode::Have(purpose, closed(alloc, outer, all)?))))
        }
        other => {
            drop(other);
            Ok(None)
        }
    }
}

/// A closing parenthesis behind a whole declarator.
fn declarator_closed(
    alloc: Global,
    state: &mut ParserState,
    inner: DeclaratorPart,
) -> Mem<Option<Mode>>
    ensures { IfOk result (λ r. Stepped state.new r (m.declarator_done parts_built (scope state.old) close (stack state.old, declarator_part inner))) }
{
    let Some(frame) = state.pop() else {
        return Ok(None);
    };
    match frame {
        Frame::Declarator(frame) => frame_closed(alloc, state, frame, inner),
        other => {
            drop(other);
            Ok(None)
        }
    }
}

/// The parameters up to one whose name is declared.
fn parameter_declared(
    alloc: Global,
    state: &mut ParserState,
    before: ParametersPart,
    specs: SpecsPart,
    inner: DeclaratorPart,
) -> Mem<ParametersPart>
    ensures all { IfOk result (λ p. parameters_part p ≡ parts_built.push_parameter (parameters_part before) (specs_part specs) (declarator_part inner)) }
    ensures scope { OnOk result (scope state.new ≡ with_maybe (scope state.old) (parts_built.name_in (declarator_part inner)) (parts_built.declares_types (specs_part specs))) }
    ensures outside { OnOk result (outside (entries state.new) ≡ outside (entries state.old)) }
    ensures frames { OnOk result (frames state.new ≡ frames state.old) }
{
    declare_named(alloc, state, &inner, specs.typedef)?;
    parts::push_parameter(before, specs, inner)
}

/// The declarators of a declaration up to one without an initialiser, whose name is declared.
fn bare_declared(
    alloc: Global,
    state: &mut ParserState,
    is_type: bool,
    before: Built<Vec<InitDeclarator>>,
    inner: DeclaratorPart,
) -> Mem<Built<Vec<InitDeclarator>>>
    ensures all { IfOk result (λ p. init_declarators_part p ≡ parts_built.push_init_declarator (init_declarators_part before) (declarator_part inner) None) }
    ensures scope { OnOk result (scope state.new ≡ with_maybe (scope state.old) (parts_built.name_in (declarator_part inner)) is_type) }
    ensures outside { OnOk result (outside (entries state.new) ≡ outside (entries state.old)) }
    ensures frames { OnOk result (frames state.new ≡ frames state.old) }
{
    declare_named(alloc, state, &inner, is_type)?;
    parts::push_bare(alloc, before, inner)
}

/// A comma behind a whole declarator, by the production that it stands in.
fn frame_listed(
    alloc: Global,
    state: &mut ParserState,
    frame: DeclaratorFrame,
    inner: DeclaratorPart,
) -> Mem<Option<Mode>>
    ensures { IfOk result (λ r. Stepped state.new r (m.declarator_done parts_built (scope state.old) comma (under state.old (declarator frame), declarator_part inner))) }
{
    match frame {
        DeclaratorFrame::Parameter(purpose, outer, before, specs) => {
            let before = parameter_declared(alloc, state, before, specs, inner)?;
            state.push(Frame::Specs(SpecsFrame::Parameters(purpose, outer, before)))?;
            Ok(Some(Mode::Declarator(DeclaratorMode::NextParameter)))
        }
        DeclaratorFrame::Member(at, before, tag, members, specs, list) => {
            let list = parts::push_declarator(list, inner)?;
            state.push(Frame::Declarator(DeclaratorFrame::Member(
                at, before, tag, members, specs, list,
            )))?;
            Ok(Some(Mode::Declarator(DeclaratorMode::Want(Purpose::Ordinary))))
        }
        DeclaratorFrame::Declaration(_, specs, before) => {
            let before = bare_declared(alloc, state, specs.typedef, before, inner)?;
            state.push(Frame::Declarator(DeclaratorFrame::Declaration(false, specs, before)))?;
            Ok(Some(Mode::Declarator(DeclaratorMode::Want(Purpose::Ordinary))))
        }
        other => {
            drop(other);
            Ok(None)
        }
    }
}

/// A comma behind a whole declarator.
fn declarator_listed(
    alloc: Global,
    state: &mut ParserState,
    inner: DeclaratorPart,
) -> Mem<Option<Mode>>
    ensures { IfOk result (λ r. Stepped state.new r (m.declarator_done parts_built (scope state.old) comma (stack state.old, declarator_part inner))) }
{
    let Some(frame) = state.pop() else {
        return Ok(None);
    };
    match frame {
        Frame::Declarator(frame) => frame_listed(alloc, state, frame, inner),
        other => {
            drop(other);
            Ok(None)
        }
    }
}

/// The members up to one whose last declarator is read.
fn member_read(
    members: MembersPart,
    specs: SpecsPart,
    list: Built<Vec<Declarator>>,
    inner: DeclaratorPart,
) -> Mem<MembersPart>
    ensures { IfOk result (λ p. members_part p ≡ parts_built.push_member (members_part members) (specs_part specs) (parts_built.push_declarator (declarators_part list) (declarator_part inner))) }
{
    let list = parts::push_declarator(list, inner)?;
    parts::push_member(members, specs, list)
}

/// A semicolon behind a whole declarator, by the production that it ends.
fn frame_ended(
    alloc: Global,
    state: &mut ParserState,
    frame: DeclaratorFrame,
    inner: DeclaratorPart,
) -> Mem<Option<Mode>>
    ensures { IfOk result (λ r. Stepped state.new r (m.declarator_done parts_built (scope state.old) semicolon (under state.old (declarator frame), declarator_part inner))) }
{
    match frame {
        DeclaratorFrame::Member(at, before, tag, members, specs, list) => {
            let members = member_read(members, specs, list, inner)?;
            state.push(Frame::Specs(SpecsFrame::Members(at, before, tag, members)))?;
            Ok(Some(Mode::Specs(SpecsMode::NextMember)))
        }
        DeclaratorFrame::Declaration(_, specs, before) => {
            let all = bare_declared(alloc, state, specs.typedef, before, inner)?;
            declaration_done(state, parts::declare(specs, all)?)
        }
        other => {
            drop(other);
            Ok(None)
        }
    }
}

/// A semicolon behind a whole declarator.
fn declarator_ended(
    alloc: Global,
    state: &mut ParserState,
    inner: DeclaratorPart,
) -> Mem<Option<Mode>>
    ensures { IfOk result (λ r. Stepped state.new r (m.declarator_done parts_built (scope state.old) semicolon (stack state.old, declarator_part inner))) }
{
    let Some(frame) = state.pop() else {
        return Ok(None);
    };
    match frame {
        Frame::Declarator(frame) => frame_ended(alloc, state, frame, inner),
        other => {
            drop(other);
            Ok(None)
        }
    }
}

/// The `=` of an initialiser behind a whole declarator, by the production that it stands in.
fn frame_assigned(
    alloc: Global,
    state: &mut ParserState,
    frame: DeclaratorFrame,
    inner: DeclaratorPart,
) -> Mem<Option<Mode>>
    ensures { IfOk result (λ r. Stepped state.new r (m.declarator_done parts_built (scope state.old) (assign plain) (under state.old (declarator frame), declarator_part inner))) }
{
    match frame {
        DeclaratorFrame::Declaration(_, specs, before) => {
            declare_named(alloc, state, &inner, specs.typedef)?;
            state.push(Frame::Value(ValueFrame::Init(specs, before, inner)))?;
            Ok(Some(Mode::Init(InitMode::Want)))
        }
        other => {
            drop(other);
            Ok(None)
        }
    }
}

/// The `=` of an initialiser behind a whole declarator.
fn declarator_assigned(
    alloc: Global,
    state: &mut ParserState,
    inner: DeclaratorPart,
) -> Mem<Option<Mode>>
    ensures { IfOk result (λ r. Stepped state.new r (m.declarator_done parts_built (scope state.old) (assign plain) (stack state.old, declarator_part inner))) }
{
    let Some(frame) = state.pop() else {
        return Ok(None);
    };
    match frame {
        Frame::Declarator(frame) => frame_assigned(alloc, state, frame, inner),
        other => {
            drop(other);
            Ok(None)
        }
    }
}

/// The open brace of a body behind a whole declarator, by the production that it stands in.
fn frame_defined(
    alloc: Global,
    state: &mut ParserState,
    frame: DeclaratorFrame,
    brace: Span,
    inner: DeclaratorPart,
) -> Mem<Option<Mode>>
    ensures { IfOk result (λ r. Stepped state.new r (m.declarator_done parts_built (scope state.old) open_brace (under state.old (declarator frame), declarator_part inner))) }
{
    match frame {
        DeclaratorFrame::Declaration(first, specs, before) => {
            drop(before);
            declare_named(alloc, state, &inner, specs.typedef)?;
            definition_opens(alloc, state, first, specs, inner, brace)
        }
        other => {
            drop(other);
            Ok(None)
        }
    }
}

/// The open brace of a body behind a whole declarator.
fn declarator_defined(
    alloc: Global,
    state: &mut ParserState,
    brace: Span,
    inner: DeclaratorPart,
) -> Mem<Option<Mode>>
    ensures { IfOk result (λ r. Stepped state.new r (m.declarator_done parts_built (scope state.old) open_brace (stack state.old, declarator_part inner))) }
{
    let Some(frame) = state.pop() else {
        return Ok(None);
    };
    match frame {
        Frame::Declarator(frame) => frame_defined(alloc, state, frame, brace, inner),
        other => {
            drop(other);
            Ok(None)
        }
    }
}

/// A mark behind a whole declarator.
fn declarator_done(
    alloc: Global,
    state: &mut ParserState,
    mark: Mark,
    at: Span,
    inner: DeclaratorPart,
) -> Mem<Option<Mode>>
    ensures { IfOk result (λ r. Stepped state.new r (m.declarator_done parts_built (scope state.old) mark (stack state.old, declarator_part inner))) }
{
    match mark {
        Mark::Close => declarator_closed(alloc, state, inner),
        Mark::Comma => declarator_listed(alloc, state, inner),
        Mark::Semicolon => declarator_ended(alloc, state, inner),
        Mark::Assign(AssignOp::Plain) => declarator_assigned(alloc, state, inner),
        Mark::OpenBrace => declarator_defined(alloc, state, at, inner),
        _ => Ok(None),
    }
}

/// A token behind a declarator.
pub fn have_declarator(
    alloc: Global,
    state: &mut ParserState,
    purpose: Purpose,
    inner: DeclaratorPart,
    terminal: Terminal,
    at: Span,
) -> Mem<Option<Mode>>
    ensures { IfOk result (λ r. (text : Text) → Stepped state.new r (m.have_declarator parts_built (scope state.old) (stack state.old) (kind_of purpose) (declarator_part inner) (word_of terminal text))) }
{
    let Terminal::Mark(mark) = terminal else {
        return Ok(None);
    };
    match mark {
        Mark::OpenBracket => Ok(Some(Mode::Declarator(DeclaratorMode::Sizing(purpose, inner)))),
        Mark::Open => Ok(Some(Mode::Declarator(DeclaratorMode::Listing(purpose, inner)))),
        _ => {
            let inner = end_pointers(alloc, state, inner)?;
            declarator_done(alloc, state, mark, at, inner)
        }
    }
}

/// A token in the place of the name of a declarator that has none.
fn no_name(
    alloc: Global,
    state: &mut ParserState,
    purpose: Purpose,
    terminal: Terminal,
    at: Span,
) -> Mem<Option<Mode>>
    ensures { IfOk result (λ r. (text : Text) → Stepped state.new r (m.no_name parts_built (scope state.old) (stack state.old) (kind_of purpose) (word_of terminal text))) }
{
    match purpose {
        Purpose::Ordinary => Ok(None),
        Purpose::Parameter | Purpose::TypeName => have_declarator(
            alloc,
            state,
            purpose,
            parts::nameless(alloc, at)?,
            terminal,
            at,
        ),
    }
}

/// A name where a declarator is wanted.
fn want_named(alloc: Global, purpose: Purpose, token: &Token) -> Mem<Option<Mode>>
    ensures { IfOk result (λ r. (x : Held) → Stepped x r (m.want_named parts_built (scope x) (stack x) (kind_of purpose) token.now.text)) }
{
    match purpose {
        Purpose::TypeName => Ok(None),
        Purpose::Ordinary | Purpose::Parameter => {
            let name = parts::called(alloc, token.span, token.text.as_slice())?;
            Ok(Some(Mode::Declarator(DeclaratorMode::Have(purpose, name))))
        }
    }
}

fn is_star(mark: Mark) -> bool
    ensures { result ≡ m.is_star mark }
{
    matches!(mark, Mark::Infix(InfixOp::Number(BinaryOp::Multiply)))
}

/// A mark other than an open parenthesis where a declarator is wanted.
fn want_other(
    alloc: Global,
    state: &mut ParserState,
    purpose: Purpose,
    mark: Mark,
    at: Span,
) -> Mem<Option<Mode>>
    ensures { IfOk result (λ r. Stepped state.new r (if m.is_star mark then Some (scope state.old, stack state.old, Qualifying (kind_of purpose) []) else m.no_name parts_built (scope state.old) (stack state.old) (kind_of purpose) (Sign mark))) }
{
    if is_star(mark) {
        let none = Items::new(alloc);
        return Ok(Some(Mode::Declarator(DeclaratorMode::Qualifying(at, purpose, none))));
    }
    no_name(alloc, state, purpose, Terminal::Mark(mark), at)
}

/// A mark where a declarator is wanted.
fn want_mark(
    alloc: Global,
    state: &mut ParserState,
    purpose: Purpose,
    mark: Mark,
    at: Span,
) -> Mem<Option<Mode>>
    ensures { IfOk result (λ r. Stepped state.new r (m.want_mark parts_built (scope state.old) (stack state.old) (kind_of purpose) mark)) }
{
    if opens(mark) {
        return Ok(Some(Mode::Declarator(DeclaratorMode::Opened(at, purpose))));
    }
    want_other(alloc, state, purpose, mark, at)
}

/// A token where a declarator is wanted.
pub fn want_declarator(
    alloc: Global,
    state: &mut ParserState,
    purpose: Purpose,
    terminal: Terminal,
    token: &Token,
) -> Mem<Option<Mode>>
    ensures { IfOk result (λ r. Stepped state.new r (m.want_declarator parts_built (scope state.old) (stack state.old) (kind_of purpose) (word_of terminal token.now.text))) }
{
    match terminal {
        Terminal::Name => want_named(alloc, purpose, token),
        Terminal::Mark(mark) => want_mark(alloc, state, purpose, mark, token.span),
        _ => Ok(None),
    }
}

/// The qualifier that a token is behind `*` (C11 6.7.6.1).
fn qualifier_of(terminal: Terminal) -> Option<Qualifier>
    ensures { (text : Text) → result ≡ m.qualifier_of (word_of terminal text) }
{
    match terminal {
        Terminal::Keyword(Keyword::Spec(SpecWord::Const)) => Some(Qualifier::Const),
        Terminal::Keyword(Keyword::Spec(SpecWord::Volatile)) => Some(Qualifier::Volatile),
        Terminal::Keyword(Keyword::Restrict) => Some(Qualifier::Restrict),
        _ => None,
    }
}

/// A token behind the `*` of a pointer and its qualifiers.
pub fn qualify(
    alloc: Global,
    state: &mut ParserState,
    at: Span,
    purpose: Purpose,
    before: Items<Qualifier>,
    terminal: Terminal,
    token: &Token,
) -> Mem<Option<Mode>>
    ensures { IfOk result (λ r. Stepped state.new r (m.qualify parts_built (scope state.old) (stack state.old) (kind_of purpose) before (m.qualifier_of (word_of terminal token.now.text)) (word_of terminal token.now.text))) }
{
    let mut before = before;
    if let Some(qualifier) = qualifier_of(terminal) {
        before.push(qualifier)?;
        return Ok(Some(Mode::Declarator(DeclaratorMode::Qualifying(at, purpose, before))));
    }
    state.push(Frame::Declarator(DeclaratorFrame::Pointer(at, purpose, before)))?;
    want_declarator(alloc, state, purpose, terminal, token)
}
