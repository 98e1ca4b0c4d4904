//! What becomes of a token before the tokens behind it.

ghost use Rattle.std.specs.Prelude.{◌≡◌, ◌∷◌, List, ℕ, true, Some, IfOk, IsTrue, ◌↔◌, length};
ghost use Rattle.ct_macro_call.specs.declared.marked.Marked.{Marked};
ghost use Rattle.ct_macro_call.specs.Words.{is_open};
ghost use Rattle.ct_macro.specs.Expansion as spec;
ghost use Rattle.ct_macro.specs.Machine.{StepGives};

use crate::faults::MacroKind;
use crate::table::Macros;
use ct_base::{Bytes, Items, Mem, Token, TokenKind, decimal};
use ct_macro_call::{
    Call, CallTokens, Macro, Marked, Source, arguments_for, is_line, is_open, read_call,
};
use std::alloc::Global;

/// What becomes of a token: it stays, it is refused, or it is replaced, with the arguments that are to
/// be expanded.
#[derive(Drop)]
pub enum Step {
    Kept(Marked),
    Refused(MacroKind, Marked),
    Replaced(Call, Items<Items<Marked>>),
}

/// The macro that stands for `__LINE__` (C11 6.10.8.1).
fn line_macro(alloc: Global, token: &Token) -> Mem<Macro>
    ensures { IfOk result (λ m. m ≡ spec.line_macro token.now) }
{
    let mut text = Vec::new(alloc);
    decimal(alloc, i128::from(token.span.line), &mut text)?;
    let mut body = Items::new(alloc);
    body.push(Token {
        kind: TokenKind::Number,
        text: Bytes::from_vec(text),
        span: token.span,
        spaced: token.spaced,
    })?;
    Ok(Macro {
        name: Bytes::from_slice(alloc, b"__LINE__".as_slice())?,
        parameters: None,
        variadic: false,
        body,
    })
}

/// Whether an opening parenthesis comes next.
fn begins_call(rest: &Source<Marked>) -> bool
    ensures { IsTrue result ↔ ((next : Marked) × (behind : List Marked) × (rest.now ≡ next ∷ behind) × (is_open next.token ≡ true)) }
{
    match rest.peek() {
        Some(next) => is_open(&next.token),
        None => false,
    }
}

/// Replaces the name of an object-like macro.
fn replace_object(alloc: Global, name: Marked, place: usize, macro_: &Macro) -> Mem<Step>
    ensures reading { IfOk result (λ step. (rest : List Marked)
        → StepGives name rest step rest (spec.reading_of_object name place macro_.now rest)) }
{
    let mut added = name.hidden.copy(alloc)?;
    added.push(place)?;
    let (call, fulls) = Call::new(alloc, name, macro_, added, Items::new(alloc))?;
    Ok(Step::Replaced(call, fulls))
}

/// Replaces the name of a function-like macro with these parameters, behind which stands an opening
/// parenthesis.
#[tactic(none)]
fn replace_function(
    alloc: Global,
    name: Marked,
    place: usize,
    macro_: &Macro,
    count: usize,
    rest: &mut Source<Marked>,
) -> Mem<Step>
    ensures reading { IfOk result (λ step. (names : List (List ℕ)) (next : Marked) (behind : List Marked) → length names ≡ count
        → rest.old ≡ next ∷ behind → (reading : spec.Reading)
        × spec.ReadsUse name rest.old (spec.opened place macro_.now names behind) reading
        × StepGives name rest.old step rest.new reading) }
{
    let _open = rest.next();
    let most = if macro_.variadic { Some(count) } else { None };
    let Some(found) = read_call(alloc, rest, most)? else {
        return Ok(Step::Refused(MacroKind::OpenCall, name));
    };
    rest.fit();
    let CallTokens { arguments, close } = found;
    let Some(arguments) = arguments_for(alloc, macro_.variadic, count, arguments)? else {
        return Ok(Step::Refused(MacroKind::Arguments, name));
    };
    let mut added = name.hidden.common(alloc, &close.hidden)?;
    added.push(place)?;
    let (call, fulls) = Call::new(alloc, name, macro_, added, arguments)?;
    Ok(Step::Replaced(call, fulls))
}

/// Replaces the name of a macro, unless it stays.
#[tactic(none)]
fn replace(
    alloc: Global,
    name: Marked,
    place: usize,
    macro_: &Macro,
    rest: &mut Source<Marked>,
) -> Mem<Step>
    ensures reading { IfOk result (λ step. (reading : spec.Reading)
        × spec.ReadsUse name rest.old (spec.use_of_found (Some (place, macro_.now)) name rest.old) reading
        × StepGives name rest.old step rest.new reading) }
{
    if name.hidden.contains(place) {
        return Ok(Step::Kept(name));
    }
    let Some(parameters) = &macro_.parameters else {
        return replace_object(alloc, name, place, macro_);
    };
    if !begins_call(rest) {
        return Ok(Step::Kept(name));
    }
    replace_function(alloc, name, place, macro_, parameters.len(), rest)
}

/// Reads a token before the tokens behind it.
pub fn read_token(
    alloc: Global,
    macros: &Macros,
    first: Marked,
    rest: &mut Source<Marked>,
) -> Mem<Step>
    ensures reading { IfOk result (λ step. (reading : spec.Reading) × spec.IsReading macros.now first rest.old reading
        × StepGives first rest.old step rest.new reading) }
{
    if is_line(first.token.text.as_slice()) {
        let macro_ = line_macro(alloc, &first.token)?;
        return replace(alloc, first, macros.len(), &macro_, rest);
    }
    match macros.place_of(first.token.text.as_slice()) {
        Some((place, macro_)) => replace(alloc, first, place, macro_, rest),
        None => Ok(Step::Kept(first)),
    }
}
