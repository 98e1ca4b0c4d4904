//! A call of a macro, and the operands of a body.

ghost use Rattle.std.specs.Prelude.{◌≡◌, ◌++◌, [], IfOk, OnOk, if◌then◌else◌};
ghost use Rattle.std.specs.Option.{option_copied};
ghost use Rattle.ct_macro_call.specs.Substitution as spec;

use crate::definition::Macro;
use crate::marked::{HideSet, Marked, copy_all, copy_token};
use crate::source::Source;
use crate::words::{is_hash, is_paste};
use ct_base::{Bytes, Items, Mem, Token};
use std::alloc::Global;
use std::mem;

/// A token of a body other than `##`, with the `#` before it, where that is an operator, and whether
/// `##` stands before or behind it.
#[derive(Drop)]
pub struct Operand {
    pub token: Token,
    pub hash: Option<Token>,
    pub behind_paste: bool,
    pub before_paste: bool,
}

/// A call of a macro: the token of its name; the macros that may expand no token of the result, by
/// their places in the table; the names of its arguments; the operands of its body; and the arguments
/// of the parameters that stand beside `#` or `##`, as they stand, with no tokens for the others.
#[derive(Drop)]
pub struct Call {
    pub name: Marked,
    pub added: HideSet,
    pub names: Items<Bytes>,
    pub body: Items<Operand>,
    pub raws: Items<Items<Marked>>,
}

/// Whether tokens begin with `##`.
fn begins_with_paste(tokens: &[Token]) -> bool
    ensures { result ≡ spec.begins_with_paste tokens.now }
{
    match tokens.first() {
        Some(token) => is_paste(token),
        None => false,
    }
}

/// The operands of the body of a macro.
pub fn operands_of(alloc: Global, macro_: &Macro) -> Mem<Items<Operand>>
    ensures { IfOk result (λ operands. operands ≡ spec.operands_of macro_.now) }
{
    let function = macro_.parameters.is_some();
    let mut operands = Items::new(alloc);
    let mut behind_paste = false;
    let mut hash: Option<Token> = None;
    let mut rest = macro_.body.as_slice();
    while let Some((token, more)) = rest.split_first() {
        if hash.is_none() && is_paste(token) {
            behind_paste = true;
        } else if hash.is_none() && function && is_hash(token) {
            hash = Some(copy_token(alloc, token)?);
        } else {
            let token = copy_token(alloc, token)?;
            operands.push(Operand {
                token,
                hash: mem::replace(&mut hash, None),
                behind_paste,
                before_paste: begins_with_paste(more),
            })?;
            behind_paste = false;
        }
        rest = more;
    }
    Ok(operands)
}

/// The names that stand for arguments in the body of a macro.
fn names_in(alloc: Global, macro_: &Macro) -> Mem<Items<Bytes>>
    ensures { IfOk result (λ names. names ≡ spec.names_in macro_.now) }
{
    let Some(parameters) = &macro_.parameters else {
        return Ok(Items::new(alloc));
    };
    let mut names = Items::new(alloc);
    push_names(alloc, &mut names, parameters.as_slice())?;
    if macro_.variadic {
        names.push(Bytes::from_slice(alloc, b"__VA_ARGS__".as_slice())?)?;
    }
    Ok(names)
}

/// Appends copies of names.
fn push_names(alloc: Global, into: &mut Items<Bytes>, names: &[Bytes]) -> Mem<()>
    ensures { OnOk result (into.new ≡ into.old ++ names.now) }
{
    let mut rest = names;
    while let Some((name, more)) = rest.split_first() {
        into.push(Bytes::from_slice(alloc, name.as_slice())?)?;
        rest = more;
    }
    Ok(())
}

/// Whether an operand stands beside `#` or `##`.
fn is_beside(operand: &Operand) -> bool
    ensures { result ≡ spec.is_beside operand.now }
{
    operand.hash.is_some() || operand.behind_paste || operand.before_paste
}

/// Whether a parameter stands at least once beside `#` or `##`.
fn is_raw(body: &[Operand], name: &[u8]) -> bool
    ensures { result ≡ spec.is_raw body.now name.now }
{
    body.iter().any(|operand| operand.token.text.as_slice() == name && is_beside(operand))
}

/// Whether a parameter stands at least once away from `#` and `##`.
fn is_full(body: &[Operand], name: &[u8]) -> bool
    ensures { result ≡ spec.is_full body.now name.now }
{
    body.iter().any(|operand| operand.token.text.as_slice() == name && !is_beside(operand))
}

/// The argument of a parameter.
pub fn argument_of<'a>(
    text: &[u8],
    names: &[Bytes],
    arguments: &'a [Items<Marked>],
) -> Option<&'a [Marked]>
    ensures { option_copied result ≡ spec.argument_of text.now names.now arguments.entry.now }
{
    let mut rest = names;
    let mut left = arguments;
    while let Some((name, more)) = rest.split_first() {
        let (argument, others) = left.split_first()?;
        if text == name.as_slice() {
            return Some(argument.as_slice());
        }
        rest = more;
        left = others;
    }
    None
}

/// An argument as it is taken where it stands, and as it is to be expanded, with no tokens where it
/// is not.
fn shared(
    alloc: Global,
    raw: bool,
    full: bool,
    argument: Items<Marked>,
) -> Mem<(Items<Marked>, Items<Marked>)>
    ensures { IfOk result (λ pair. (pair.0 ≡ (if raw then argument else [])) × (pair.1 ≡ (if full then argument else []))) }
{
    if raw && full {
        let copy = copy_all(alloc, argument.as_slice())?;
        return Ok((copy, argument));
    }
    let none = Items::new(alloc);
    if raw {
        return Ok((argument, none));
    }
    if full {
        return Ok((none, argument));
    }
    Ok((none, Items::new(alloc)))
}

/// The arguments that are taken where they stand, and those that are to be expanded, with no tokens
/// for the others.
fn share(
    alloc: Global,
    body: &[Operand],
    names: &[Bytes],
    arguments: Items<Items<Marked>>,
) -> Mem<(Items<Items<Marked>>, Items<Items<Marked>>)>
    ensures { IfOk result (λ pair. (pair.0 ≡ spec.selected (spec.is_raw body.now) names.now arguments)
        × (pair.1 ≡ spec.selected (spec.is_full body.now) names.now arguments)) }
{
    let mut given = Source::new(alloc);
    given.put_front(arguments)?;
    let mut raws = Items::new(alloc);
    let mut fulls = Items::new(alloc);
    let mut rest = names;
    while let Some((name, more)) = rest.split_first() {
        let Some(argument) = given.next() else {
            return Ok((raws, fulls));
        };
        let text = name.as_slice();
        let (raw, full) = shared(alloc, is_raw(body, text), is_full(body, text), argument)?;
        raws.push(raw)?;
        fulls.push(full)?;
        rest = more;
    }
    Ok((raws, fulls))
}

impl Call {
    /// A call of a macro, and the arguments that are to be expanded.
    pub fn new(
        alloc: Global,
        name: Marked,
        macro_: &Macro,
        added: HideSet,
        arguments: Items<Items<Marked>>,
    ) -> Mem<(Call, Items<Items<Marked>>)>
        ensures { IfOk result (λ pair. (pair.0 ≡ spec.call_of name macro_.now added arguments)
            × (pair.1 ≡ spec.full_arguments macro_.now arguments)) }
    {
        let names = names_in(alloc, macro_)?;
        let body = operands_of(alloc, macro_)?;
        let (raws, fulls) = share(alloc, body.as_slice(), names.as_slice(), arguments)?;
        let call = Call {
            name,
            added,
            names,
            body,
            raws,
        };
        Ok((call, fulls))
    }
}
