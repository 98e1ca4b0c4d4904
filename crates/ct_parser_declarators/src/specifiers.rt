//! Specifiers, members, enumerators and parameters, token by token (C11 6.7 to 6.7.2, 6.7.6.3).

ghost use Rattle.std.specs.Prelude.{◌≡◌, false, ◌&&◌, not, ◌∷◌, [], OnOk, IfOk};
ghost use Rattle.ct_parser_state.specs.Code.{Stepped, entries, frames, outside, stack, scope, under, kind_of, which_of};
ghost use Rattle.ct_grammar_machine.specs.Steps as m;
ghost use Rattle.ct_parser_state.specs.Terminals.{word_of};
ghost use Rattle.ct_parser_state.specs.declared.frames.Frame.TheVariants.{Specs as specs_of, List as list_of};
ghost use Rattle.ct_parser_parts.specs.Parts.{parts_built};
ghost use Rattle.ct_parser_parts.specs.Views.{declarator_part, enumerators_part, specs_part};
ghost use Rattle.ct_grammar_machine.specs.Frames.{is_free, InArray, InParameters};
ghost use Rattle.ct_syntax.specs.Grammar.{begins_specs as spec_begins, begins_list as spec_begins_list};
ghost use Rattle.ct_syntax.specs.Scopes.{with_name};
ghost use Rattle.ct_syntax.specs.Words.{Text};

use crate::declarations::declaration_done;
use crate::declarators::want_declarator;
use crate::frames::wanting;
use crate::signs::{is_close, is_close_bracket, is_open_brace};
use crate::types::{forms_type, has_type};
use ct_base::{Bytes, Mem, Span, Token};
use ct_parser_parts as parts;
use ct_parser_parts::{DeclaratorPart, EnumeratorsPart, SpecsPart};
use ct_parser_state::{
    DeclaratorFrame, DeclaratorMode, Frame, ListFrame, Mode, ParserState, Purpose, SpecsFrame,
    SpecsMode, TagSort, Terminal, ValueFrame, ValueMode,
};
use ct_syntax::{AssignOp, Keyword, Mark, ParameterForm};
use std::alloc::Global;

/// A token behind the specifiers of a declaration.
fn declaration_specs(
    alloc: Global,
    state: &mut ParserState,
    specs: SpecsPart,
    terminal: Terminal,
    token: &Token,
) -> Mem<Option<Mode>>
    ensures { IfOk result (λ r. Stepped state.new r (m.declaration_specs parts_built (scope state.old) (stack state.old) (specs_part specs) (word_of terminal token.now.text))) }
{
    let none = parts::no_init_declarators(alloc);
    if matches!(terminal, Terminal::Mark(Mark::Semicolon)) {
        return declaration_done(state, parts::declare(specs, none)?);
    }
    state.push(Frame::Declarator(DeclaratorFrame::Declaration(true, specs, none)))?;
    want_declarator(alloc, state, Purpose::Ordinary, terminal, token)
}

/// A token behind specifiers, by the production that waits for them.
fn frame_specs(
    alloc: Global,
    state: &mut ParserState,
    frame: SpecsFrame,
    specs: SpecsPart,
    terminal: Terminal,
    token: &Token,
) -> Mem<Option<Mode>>
    ensures { IfOk result (λ r. Stepped state.new r (m.specs_done parts_built (scope state.old) (under state.old (specs_of frame)) (specs_part specs) (word_of terminal token.now.text))) }
{
    match frame {
        SpecsFrame::Declaration => declaration_specs(alloc, state, specs, terminal, token),
        SpecsFrame::Cast(at) => {
            state.push(Frame::Declarator(DeclaratorFrame::Cast(at, specs)))?;
            want_declarator(alloc, state, Purpose::TypeName, terminal, token)
        }
        SpecsFrame::Sizeof(at) => {
            state.push(Frame::Declarator(DeclaratorFrame::Sizeof(at, specs)))?;
            want_declarator(alloc, state, Purpose::TypeName, terminal, token)
        }
        SpecsFrame::Members(at, before, tag, members) => {
            let none = parts::no_declarators(alloc);
            state.push(Frame::Declarator(DeclaratorFrame::Member(
                at, before, tag, members, specs, none,
            )))?;
            want_declarator(alloc, state, Purpose::Ordinary, terminal, token)
        }
        SpecsFrame::Parameters(purpose, inner, before) => {
            state.push(Frame::Declarator(DeclaratorFrame::Parameter(
                purpose, inner, before, specs,
            )))?;
            want_declarator(alloc, state, Purpose::Parameter, terminal, token)
        }
    }
}

/// A token behind the specifiers of a production.
fn specs_done(
    alloc: Global,
    state: &mut ParserState,
    specs: SpecsPart,
    terminal: Terminal,
    token: &Token,
) -> Mem<Option<Mode>>
    ensures { IfOk result (λ r. Stepped state.new r (m.specs_done parts_built (scope state.old) (stack state.old) (specs_part specs) (word_of terminal token.now.text))) }
{
    let Some(frame) = state.pop() else {
        return Ok(None);
    };
    match frame {
        Frame::Specs(frame) => frame_specs(alloc, state, frame, specs, terminal, token),
        other => {
            drop(other);
            Ok(None)
        }
    }
}

/// A token that is no specifier behind specifiers, which form a type.
fn specs_end(
    alloc: Global,
    state: &mut ParserState,
    specs: SpecsPart,
    terminal: Terminal,
    token: &Token,
) -> Mem<Option<Mode>>
    ensures { IfOk result (λ r. Stepped state.new r (m.specs_end parts_built (scope state.old) (stack state.old) (specs_part specs) (word_of terminal token.now.text))) }
{
    if !forms_type(&specs) {
        return Ok(None);
    }
    specs_done(alloc, state, specs, terminal, token)
}

/// Whether a name is a specifier behind others: a typedef name, where no part of a type stands before it.
fn is_specifier(state: &ParserState, specs: &SpecsPart, name: &[u8]) -> bool
    ensures { result ≡ (scope state.now name.now && not (parts_built.has_type (specs_part specs.now))) }
{
    state.is_type(name) && !has_type(specs)
}

/// A token among specifiers.
pub fn specs_step(
    alloc: Global,
    state: &mut ParserState,
    specs: SpecsPart,
    terminal: Terminal,
    token: &Token,
) -> Mem<Option<Mode>>
    ensures { IfOk result (λ r. Stepped state.new r (m.specs_step parts_built (scope state.old) (stack state.old) (specs_part specs) (word_of terminal token.now.text))) }
{
    match terminal {
        Terminal::Keyword(Keyword::Spec(word)) => {
            Ok(Some(Mode::Specs(SpecsMode::Next(parts::with_word(specs, word, token.span)?))))
        }
        Terminal::Keyword(Keyword::Struct) => Ok(Some(Mode::Specs(SpecsMode::Tagging(
            TagSort::Struct,
            token.span,
            specs,
        )))),
        Terminal::Keyword(Keyword::Enum) => Ok(Some(Mode::Specs(SpecsMode::Tagging(
            TagSort::Enum,
            token.span,
            specs,
        )))),
        Terminal::Name => {
            if !is_specifier(state, &specs, token.text.as_slice()) {
                return specs_end(alloc, state, specs, terminal, token);
            }
            let name = Bytes::from_slice(alloc, token.text.as_slice())?;
            Ok(Some(Mode::Specs(SpecsMode::Next(parts::with_typedef(specs, name, token.span)?))))
        }
        _ => specs_end(alloc, state, specs, terminal, token),
    }
}

/// The brace of a member list or of an enumerator list.
fn open_braces(
    alloc: Global,
    state: &mut ParserState,
    sort: TagSort,
    at: Span,
    specs: SpecsPart,
    tag: Option<Bytes>,
) -> Mem<Option<Mode>>
    ensures { IfOk result (λ r. Stepped state.new r (m.open_braces parts_built (scope state.old) (stack state.old) (which_of sort) (specs_part specs) tag)) }
{
    match sort {
        TagSort::Struct => {
            let none = parts::no_members(alloc);
            state.push(Frame::Specs(SpecsFrame::Members(at, specs, tag, none)))?;
            Ok(Some(Mode::Specs(SpecsMode::FirstMember)))
        }
        TagSort::Enum => {
            let none = parts::no_enumerators(alloc);
            state.push(Frame::List(ListFrame::Enumerators(at, specs, tag, none)))?;
            Ok(Some(Mode::Specs(SpecsMode::FirstEnumerator)))
        }
    }
}

/// A token behind `struct` or `enum`.
pub fn tagging(
    alloc: Global,
    state: &mut ParserState,
    sort: TagSort,
    at: Span,
    specs: SpecsPart,
    terminal: Terminal,
    token: &Token,
) -> Mem<Option<Mode>>
    ensures { IfOk result (λ r. Stepped state.new r (m.tagging parts_built (scope state.old) (stack state.old) (which_of sort) (specs_part specs) (word_of terminal token.now.text))) }
{
    match terminal {
        Terminal::Name => {
            let tag = Bytes::from_slice(alloc, token.text.as_slice())?;
            Ok(Some(Mode::Specs(SpecsMode::Tagged(sort, at, specs, tag))))
        }
        Terminal::Mark(Mark::OpenBrace) => open_braces(alloc, state, sort, at, specs, None),
        _ => Ok(None),
    }
}

/// Specifiers, with a tag more.
fn with_tag(sort: TagSort, specs: SpecsPart, tag: Bytes, at: Span) -> Mem<SpecsPart>
    ensures { IfOk result (λ p. specs_part p ≡ m.with_tag parts_built (which_of sort) (specs_part specs) tag) }
{
    match sort {
        TagSort::Struct => parts::with_struct_tag(specs, tag, at),
        TagSort::Enum => parts::with_enum_tag(specs, tag, at),
    }
}

/// A token behind a tag.
pub fn tagged(
    alloc: Global,
    state: &mut ParserState,
    sort: TagSort,
    at: Span,
    specs: SpecsPart,
    tag: Bytes,
    terminal: Terminal,
    token: &Token,
) -> Mem<Option<Mode>>
    ensures { IfOk result (λ r. Stepped state.new r (m.tagged parts_built (scope state.old) (stack state.old) (which_of sort) (specs_part specs) tag (word_of terminal token.now.text))) }
{
    if is_open_brace(terminal) {
        return open_braces(alloc, state, sort, at, specs, Some(tag));
    }
    let specs = with_tag(sort, specs, tag, at)?;
    specs_step(alloc, state, specs, terminal, token)
}

/// The brace that ends a member list.
fn close_members(alloc: Global, state: &mut ParserState) -> Mem<Option<Mode>>
    ensures { IfOk result (λ r. Stepped state.new r (m.close_members parts_built (scope state.old) (stack state.old))) }
{
    let Some(frame) = state.pop() else {
        return Ok(None);
    };
    match frame {
        Frame::Specs(SpecsFrame::Members(at, specs, tag, members)) => {
            Ok(Some(Mode::Specs(SpecsMode::Next(parts::with_struct(
                alloc, specs, at, tag, members,
            )?))))
        }
        other => {
            drop(other);
            Ok(None)
        }
    }
}

/// A token where a member may begin.
pub fn next_member(
    alloc: Global,
    state: &mut ParserState,
    terminal: Terminal,
    token: &Token,
) -> Mem<Option<Mode>>
    ensures { IfOk result (λ r. Stepped state.new r (m.next_member parts_built (scope state.old) (stack state.old) (word_of terminal token.now.text))) }
{
    if matches!(terminal, Terminal::Mark(Mark::CloseBrace)) {
        return close_members(alloc, state);
    }
    specs_step(
        alloc,
        state,
        parts::no_specs(alloc, token.span),
        terminal,
        token,
    )
}

/// A token where an enumerator begins.
pub fn first_enumerator(
    alloc: Global,
    state: &mut ParserState,
    terminal: Terminal,
    token: &Token,
) -> Mem<Option<Mode>>
    ensures { IfOk result (λ r. Stepped state.new r (m.first_enumerator parts_built (scope state.old) (stack state.old) (word_of terminal token.now.text))) }
{
    if !matches!(terminal, Terminal::Name) {
        return Ok(None);
    }
    let name = Bytes::from_slice(alloc, token.text.as_slice())?;
    Ok(Some(Mode::Specs(SpecsMode::Enumerated(token.span, name))))
}

/// The brace behind a last comma of an enumerator list.
fn close_enumerators(state: &mut ParserState) -> Mem<Option<Mode>>
    ensures { IfOk result (λ r. Stepped state.new r (m.close_enumerators parts_built (scope state.old) (stack state.old))) }
{
    let Some(frame) = state.pop() else {
        return Ok(None);
    };
    match frame {
        Frame::List(ListFrame::Enumerators(at, specs, tag, all)) => {
            Ok(Some(Mode::Specs(SpecsMode::Next(parts::with_enum(specs, at, tag, all, true)?))))
        }
        other => {
            drop(other);
            Ok(None)
        }
    }
}

/// A token behind a comma of an enumerator list.
pub fn next_enumerator(
    alloc: Global,
    state: &mut ParserState,
    terminal: Terminal,
    token: &Token,
) -> Mem<Option<Mode>>
    ensures { IfOk result (λ r. Stepped state.new r (m.next_enumerator parts_built (scope state.old) (stack state.old) (word_of terminal token.now.text))) }
{
    if matches!(terminal, Terminal::Mark(Mark::CloseBrace)) {
        return close_enumerators(state);
    }
    first_enumerator(alloc, state, terminal, token)
}

/// The enumerators up to one without a value, whose name is declared.
fn numbered(
    alloc: Global,
    state: &mut ParserState,
    before: EnumeratorsPart,
    place: Span,
    name: Bytes,
) -> Mem<EnumeratorsPart>
    ensures all { IfOk result (λ p. enumerators_part p ≡ parts_built.push_enumerator (enumerators_part before) name) }
    ensures scope { OnOk result (scope state.new ≡ with_name (scope state.old) name false) }
    ensures outside { OnOk result (outside (entries state.new) ≡ outside (entries state.old)) }
    ensures frames { OnOk result (frames state.new ≡ frames state.old) }
{
    state.declare(Bytes::from_slice(alloc, name.as_slice())?, false)?;
    parts::push_enumerator(alloc, before, place, name)
}

/// A token behind the name of an enumerator, in its list.
fn enumerator_done(
    alloc: Global,
    state: &mut ParserState,
    frame: ListFrame,
    place: Span,
    name: Bytes,
    terminal: Terminal,
) -> Mem<Option<Mode>>
    ensures { IfOk result (λ r. (text : Text) → Stepped state.new r (m.enumerated parts_built (scope state.old) (under state.old (list_of frame)) name (word_of terminal text))) }
{
    let ListFrame::Enumerators(at, specs, tag, before) = frame else {
        return Ok(None);
    };
    match terminal {
        Terminal::Mark(Mark::Assign(AssignOp::Plain)) => wanting(
            state,
            Frame::Value(ValueFrame::Enumerator(at, specs, tag, before, place, name)),
        ),
        Terminal::Mark(Mark::Comma) => {
            let before = numbered(alloc, state, before, place, name)?;
            state.push(Frame::List(ListFrame::Enumerators(at, specs, tag, before)))?;
            Ok(Some(Mode::Specs(SpecsMode::NextEnumerator)))
        }
        Terminal::Mark(Mark::CloseBrace) => {
            let all = numbered(alloc, state, before, place, name)?;
            Ok(Some(Mode::Specs(SpecsMode::Next(parts::with_enum(specs, at, tag, all, false)?))))
        }
        _ => {
            drop(specs);
            drop(tag);
            drop(before);
            Ok(None)
        }
    }
}

/// A token behind the name of an enumerator.
pub fn enumerated(
    alloc: Global,
    state: &mut ParserState,
    place: Span,
    name: Bytes,
    terminal: Terminal,
) -> Mem<Option<Mode>>
    ensures { IfOk result (λ r. (text : Text) → Stepped state.new r (m.enumerated parts_built (scope state.old) (stack state.old) name (word_of terminal text))) }
{
    let Some(frame) = state.pop() else {
        return Ok(None);
    };
    match frame {
        Frame::List(frame) => enumerator_done(alloc, state, frame, place, name, terminal),
        other => {
            drop(other);
            Ok(None)
        }
    }
}

/// A parameter list, from its first token on.
fn list_begins(
    alloc: Global,
    state: &mut ParserState,
    purpose: Purpose,
    inner: DeclaratorPart,
    terminal: Terminal,
    token: &Token,
) -> Mem<Option<Mode>>
    ensures { IfOk result (λ r. Stepped state.new r (m.specs_step parts_built (scope state.old) (InParameters (kind_of purpose) (scope state.old) (declarator_part inner) parts_built.no_parameters ∷ stack state.old) parts_built.no_specs (word_of terminal token.now.text))) }
{
    let none = parts::no_parameters(alloc);
    state.enter()?;
    state.push(Frame::Specs(SpecsFrame::Parameters(purpose, inner, none)))?;
    specs_step(
        alloc,
        state,
        parts::no_specs(alloc, token.span),
        terminal,
        token,
    )
}

/// A token behind the open parenthesis of a parameter list.
pub fn listing(
    alloc: Global,
    state: &mut ParserState,
    purpose: Purpose,
    inner: DeclaratorPart,
    terminal: Terminal,
    token: &Token,
) -> Mem<Option<Mode>>
    ensures { IfOk result (λ r. Stepped state.new r (m.listing parts_built (scope state.old) (stack state.old) (kind_of purpose) (declarator_part inner) (word_of terminal token.now.text))) }
{
    if is_close(terminal) {
        let none = parts::no_parameters(alloc);
        let function = parts::function(alloc, inner, ParameterForm::Empty, none)?;
        return Ok(Some(Mode::Declarator(DeclaratorMode::Have(purpose, function))));
    }
    list_begins(alloc, state, purpose, inner, terminal, token)
}

/// Whether a token begins specifiers.
pub fn begins_specs(state: &ParserState, terminal: Terminal, token: &Token) -> bool
    ensures { result ≡ spec_begins (scope state.now) (word_of terminal token.now.text ∷ []) }
{
    match terminal {
        Terminal::Name => state.is_type(token.text.as_slice()),
        Terminal::Keyword(keyword) => matches!(
            keyword,
            Keyword::Spec(_) | Keyword::Struct | Keyword::Enum
        ),
        _ => false,
    }
}

/// Whether a token behind a parenthesis in the place of a declarator begins a parameter list.
fn begins_list(state: &ParserState, purpose: Purpose, terminal: Terminal, token: &Token) -> bool
    ensures { result ≡ (is_free (kind_of purpose) && spec_begins_list (scope state.now) (word_of terminal token.now.text ∷ [])) }
{
    if matches!(purpose, Purpose::Ordinary) {
        return false;
    }
    matches!(terminal, Terminal::Mark(Mark::Close)) || begins_specs(state, terminal, token)
}

/// A token behind a parenthesis in the place of a declarator.
pub fn opened(
    alloc: Global,
    state: &mut ParserState,
    at: Span,
    purpose: Purpose,
    terminal: Terminal,
    token: &Token,
) -> Mem<Option<Mode>>
    ensures { IfOk result (λ r. Stepped state.new r (m.opened parts_built (scope state.old) (stack state.old) (kind_of purpose) (word_of terminal token.now.text))) }
{
    if begins_list(state, purpose, terminal, token) {
        return listing(
            alloc,
            state,
            purpose,
            parts::nameless(alloc, at)?,
            terminal,
            token,
        );
    }
    state.push(Frame::Declarator(DeclaratorFrame::Group(at, purpose)))?;
    want_declarator(alloc, state, purpose, terminal, token)
}

/// A token behind a comma of a parameter list.
pub fn next_parameter(
    alloc: Global,
    state: &mut ParserState,
    terminal: Terminal,
    token: &Token,
) -> Mem<Option<Mode>>
    ensures { IfOk result (λ r. Stepped state.new r (m.next_parameter parts_built (scope state.old) (stack state.old) (word_of terminal token.now.text))) }
{
    if matches!(terminal, Terminal::Mark(Mark::Ellipsis)) {
        return Ok(Some(Mode::Declarator(DeclaratorMode::AfterEllipsis)));
    }
    specs_step(
        alloc,
        state,
        parts::no_specs(alloc, token.span),
        terminal,
        token,
    )
}

/// A token behind `...`.
pub fn after_ellipsis(
    alloc: Global,
    state: &mut ParserState,
    terminal: Terminal,
) -> Mem<Option<Mode>>
    ensures { IfOk result (λ r. (text : Text) → Stepped state.new r (m.after_ellipsis parts_built (stack state.old) (word_of terminal text))) }
{
    let Some(frame) = state.pop() else {
        return Ok(None);
    };
    match frame {
        Frame::Specs(SpecsFrame::Parameters(purpose, inner, all)) => {
            if !matches!(terminal, Terminal::Mark(Mark::Close)) {
                return Ok(None);
            }
            state.leave();
            let function = parts::function(alloc, inner, ParameterForm::Variadic, all)?;
            Ok(Some(Mode::Declarator(DeclaratorMode::Have(purpose, function))))
        }
        other => {
            drop(other);
            Ok(None)
        }
    }
}
