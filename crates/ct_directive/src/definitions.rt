//! The form of `#define` (C11 6.10.3).

ghost use Rattle.std.specs.Prelude.{◌≡◌, ◌<◌, ◌∷◌, [], length, IfOk, IfSome, MatchOption, None, Some};
ghost use Rattle.ct_directive.specs.Forms as spec;

use crate::forms::{copies, is, is_name, is_protected};
use ct_base::{Bytes, Items, Mem, Token};
use ct_macro::Macro;
use std::alloc::Global;

/// A parameter list, and the tokens behind its parenthesis (C11 6.10.3).
#[derive(Drop)]
pub struct Parameters {
    pub names: Items<Bytes>,
    pub variadic: bool,
    pub body: Items<Token>,
}

/// A parameter list with these names, and the tokens behind it.
fn closed(
    alloc: Global,
    names: Items<Bytes>,
    variadic: bool,
    behind: &[Token],
) -> Mem<Option<Parameters>>
    ensures { IfOk result (λ found. found ≡ Some (record { names = names; variadic = variadic; body = behind.now })) }
{
    Ok(Some(Parameters {
        names,
        variadic,
        body: copies(alloc, behind)?,
    }))
}

/// The name behind a comma, and the tokens behind it.
fn next_name(tokens: &[Token]) -> Option<(&Token, &[Token])>
    ensures rest { MatchOption result (spec.more_parameters tokens.now ≡ spec.list_end tokens.now)
        (λ found. spec.more_parameters tokens.now ≡ spec.with_names (found.0.now.text ∷ []) (spec.more_parameters found.1.now)) }
    ensures shorter { IfSome result (λ found. length found.1.now < length tokens.now) }
{
    match tokens {
        [mark, name, more @ ..] if is(b",".as_slice(), mark) && is_name(name) => Some((name, more)),
        _ => None,
    }
}

/// Whether a parameter list ends in `...`, and the tokens behind its parenthesis.
fn list_end(tokens: &[Token]) -> Option<(bool, &[Token])>
    ensures { MatchOption result (spec.list_end tokens.now ≡ None)
        (λ found. spec.list_end tokens.now ≡ Some (record { names = []; variadic = found.0; body = found.1.now })) }
{
    match tokens {
        [mark, body @ ..] if is(b")".as_slice(), mark) => Some((false, body)),
        [mark, dots, close, body @ ..]
            if is(b",".as_slice(), mark)
                && is(b"...".as_slice(), dots)
                && is(b")".as_slice(), close) => { Some((true, body)) }
        _ => None,
    }
}

/// The rest of a parameter list behind these names.
#[tactic(auto, using(crate::proofs::Listing::listing_rules))]
fn more_parameters(alloc: Global, names: Items<Bytes>, tokens: &[Token]) -> Mem<Option<Parameters>>
    ensures { IfOk result (λ found. found ≡ spec.with_names names (spec.more_parameters tokens.now)) }
{
    let mut names = names;
    let mut rest = tokens;
    while let Some((name, more)) = next_name(rest) {
        names.push(Bytes::from_slice(alloc, name.text.as_slice())?)?;
        rest = more;
    }
    match list_end(rest) {
        Some((variadic, body)) => closed(alloc, names, variadic, body),
        None => Ok(None),
    }
}

/// The parameter list behind its opening parenthesis.
fn parameters_in(alloc: Global, tokens: &[Token]) -> Mem<Option<Parameters>>
    ensures { IfOk result (λ found. found ≡ spec.parameters_in tokens.now) }
{
    let mut names = Items::new(alloc);
    match tokens {
        [first, more @ ..] if is_name(first) => {
            names.push(Bytes::from_slice(alloc, first.text.as_slice())?)?;
            more_parameters(alloc, names, more)
        }
        [first, more @ ..] if is(b")".as_slice(), first) => closed(alloc, names, false, more),
        [first, close, more @ ..] if is(b"...".as_slice(), first) && is(b")".as_slice(), close) => {
            closed(alloc, names, true, more)
        }
        _ => Ok(None),
    }
}

/// The macro of a name and what stands behind it.
fn defined_as(alloc: Global, name: &[u8], tokens: &[Token]) -> Mem<Option<Macro>>
    ensures { IfOk result (λ found. found ≡ spec.defined_as name.now tokens.now) }
{
    match tokens {
        [first, more @ ..] if !first.spaced => {
            if !is(b"(".as_slice(), first) {
                return Ok(None);
            }
            let Some(list) = parameters_in(alloc, more)? else {
                return Ok(None);
            };
            Ok(Some(Macro {
                name: Bytes::from_slice(alloc, name)?,
                parameters: Some(list.names),
                variadic: list.variadic,
                body: list.body,
            }))
        }
        _ => Ok(Some(object_like(alloc, name, copies(alloc, tokens)?)?)),
    }
}

/// A macro without parameter list.
pub fn object_like(alloc: Global, name: &[u8], body: Items<Token>) -> Mem<Macro>
    ensures { IfOk result (λ found. found ≡ spec.object_like name.now body) }
{
    Ok(Macro {
        name: Bytes::from_slice(alloc, name)?,
        parameters: None,
        variadic: false,
        body,
    })
}

/// The macro that the tokens of a `#define` define.
pub fn definition_in(alloc: Global, tokens: &[Token]) -> Mem<Option<Macro>>
    ensures { IfOk result (λ found. found ≡ spec.definition_in tokens.now) }
{
    match tokens {
        [name, more @ ..] if is_name(name) && !is_protected(name.text.as_slice()) => {
            defined_as(alloc, name.text.as_slice(), more)
        }
        _ => Ok(None),
    }
}
