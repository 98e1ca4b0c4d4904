//! Functions of a test file.

ghost use Rattle.std.specs.Prelude.{◌≡◌, ◌≤◌, Bool, List, [], IfOk, length};
ghost use Rattle.ct_base.specs.declared.lexical.Token.{Token as token};
ghost use Rattle.ct_core.specs.declared.units.Linkage.{Linkage as core_linkage};
ghost use Rattle.ct_form.specs.declared.names.Binding.{Binding as bound};
ghost use Rattle.ct_form.specs.Answers.{Answers};
ghost use Rattle.ct_form.specs.Functions.{IsLinkage, IsParameterList, IsParameters, IsResult, is_allowed as allowed, signature_of as signature_for};
ghost use Rattle.ct_form.specs.Readers.{AnswersDefinition, AnswersFunction, IsHeading, IsParameter, at_of};
ghost use Rattle.ct_form.specs.Statements.{At};

use crate::names::{Binding, Signature, has_name, is_declared, type_of};
use crate::parts::binding_of;
use crate::places::Place;
use crate::statements::{Context, Inside, MOST_VARIABLES};
use crate::words::{NoMatch, name, word};
use ct_base::{Bytes, Items, Mem, Token};
use ct_core::{CoreFunction, CoreStatement, Linkage};
use std::alloc::Global;

/// How many statements with parts may begin in one another.
const NESTED: u32 = 32;

/// What stands before the parameters of a function: its linkage, whether it gives a value, and
/// its name.
#[derive(Clone, Copy)]
struct Heading<'t> {
    linkage: Linkage,
    gives_value: bool,
    name: &'t Token,
}

/// The linkage of a function that begins here, and what follows the word for it.
fn linkage(tokens: &[Token]) -> (Linkage, &[Token])
    ensures { IsLinkage tokens.now result.0 result.1.now }
{
    match word(tokens, b"static") {
        Ok(rest) => (Linkage::Internal, rest),
        Err(_) => (Linkage::External, tokens),
    }
}

/// Whether a function gives a value, by the word for its result, and what follows that.
fn gives_value(tokens: &[Token]) -> Result<(bool, &[Token]), NoMatch>
    ensures { Answers (λ found. found.0) (λ found. found.1.now) (IsResult tokens.now) result }
{
    if let Ok(rest) = word(tokens, b"void") {
        return Ok((false, rest));
    }
    let rest = word(tokens, b"int")?;
    Ok((true, rest))
}

/// The heading of a function up to its opening parenthesis, and what follows that.
fn heading_of(tokens: &[Token]) -> Result<(Heading<'_>, &[Token]), NoMatch>
    ensures { Answers {C = core_linkage × Bool × token} (λ found. (found.0.linkage, found.0.gives_value, found.0.name.now)) (λ found. found.1.now)
        (λ what. IsHeading tokens.now what.0 what.1 what.2) result }
{
    let (linkage, kind_at) = linkage(tokens);
    let (gives_value, name_at) = gives_value(kind_at)?;
    let (name, open_at) = name(name_at)?;
    let rest = word(open_at, b"(")?;
    Ok((
        Heading {
            linkage,
            gives_value,
            name,
        },
        rest,
    ))
}

/// One parameter, which is declared in a scope, and the place behind its name.
fn parameter<'t>(
    alloc: Global,
    scope: &mut Vec<Binding>,
    place: Place<'t>,
) -> Result<Place<'t>, NoMatch>
    ensures { Answers {C = List bound} {R = At} (λ _. scope.new.items) at_of (IsParameter scope.old.items (at_of place.entry)) result }
{
    let behind = word(place.tokens, b"int")?;
    let (name, middle) = name(behind)?;
    if is_declared(scope.as_slice(), name.text.as_slice())
        || place.variables.len() >= MOST_VARIABLES
    {
        return Err(NoMatch::Elsewhere);
    }
    let number = place.variables.len() as u32;
    scope.push(binding_of(alloc, name, number)?)?;
    let place = place.moved(middle).declared(alloc, name)?;
    Ok(place)
}

/// One parameter or more, with the closing parenthesis: the scope in which they are declared, and
/// the place behind them.
fn parameters(alloc: Global, place: Place<'_>) -> Result<(Vec<Binding>, Place<'_>), NoMatch>
    ensures { Answers {C = List bound} {R = At} (λ found. found.0.items) (λ found. at_of found.1) (IsParameters [] (at_of place.entry)) result }
{
    let mut scope = Vec::new(alloc);
    let mut place = place;
    loop {
        place = parameter(alloc, &mut scope, place)?;
        if let Ok(end) = word(place.tokens, b")") {
            return Ok((scope, place.moved(end)));
        }
        let rest = word(place.tokens, b",")?;
        place = place.moved(rest);
    }
}

/// What stands between the parentheses of the heading, with the closing one: the scope in which
/// the parameters are declared, and the place behind them.
fn parameter_list(alloc: Global, place: Place<'_>) -> Result<(Vec<Binding>, Place<'_>), NoMatch>
    ensures { Answers {C = List bound} {R = At} (λ found. found.0.items) (λ found. at_of found.1) (IsParameterList (at_of place.entry)) result }
{
    if let Ok(behind) = word(place.tokens, b"void") {
        let rest = word(behind, b")")?;
        return Ok((Vec::new(alloc), place.moved(rest)));
    }
    parameters(alloc, place)
}

/// Whether a function may have this signature: `setUp` and `tearDown` take and give nothing.
fn is_allowed(signature: &Signature) -> bool
    ensures { result ≡ allowed signature.now }
{
    let name = signature.name.as_slice();
    let is_fixture = name == b"setUp".as_slice() || name == b"tearDown".as_slice();
    !is_fixture || (!signature.gives_value && signature.parameters == 0)
}

/// The signature of a function with so many parameters.
fn signature_of(alloc: Global, name: &Token, gives_value: bool, scope: &[Binding]) -> Mem<Signature>
    requires { length scope.now ≤ 128 }
    ensures { IfOk result (λ signature. signature ≡ signature_for name.now gives_value scope.now) }
{
    Ok(Signature {
        name: Bytes::from_slice(alloc, name.text.as_slice())?,
        gives_value,
        parameters: scope.len() as u32,
    })
}

/// A function at the front of the tokens, how many statements and declarations of the unit began
/// up to its end, and what follows it. Its signature is put behind those of the functions before
/// it, as its name is in scope in its own block; after an `Err` it may stand there.
pub fn function<'t>(
    alloc: Global,
    signatures: &mut Vec<Signature>,
    unity: bool,
    serial: u32,
    tokens: &'t [Token],
) -> Result<(CoreFunction, u32, &'t [Token]), NoMatch>
    ensures { AnswersFunction signatures.old.items unity serial tokens.now signatures.new.items result }
{
    let (heading, first) = heading_of(tokens)?;
    let place = Place {
        tokens: first,
        serial,
        variables: Items::new(alloc),
    };
    let (scope, place) = parameter_list(alloc, place)?;
    definition(alloc, signatures, unity, heading, scope, place)
}

/// A function behind the parameters of its heading.
fn definition<'t>(
    alloc: Global,
    signatures: &mut Vec<Signature>,
    unity: bool,
    heading: Heading<'t>,
    mut scope: Vec<Binding>,
    place: Place<'t>,
) -> Result<(CoreFunction, u32, &'t [Token]), NoMatch>
    requires { length scope.items ≤ 128 }
    ensures { AnswersDefinition signatures.old.items unity heading.entry scope.items (at_of place.entry) signatures.new.items result }
{
    let name = heading.name;
    let signature = signature_of(alloc, name, heading.gives_value, scope.as_slice())?;
    if has_name(signatures.as_slice(), name.text.as_slice()) || !is_allowed(&signature) {
        return Err(NoMatch::Elsewhere);
    }
    let inside = word(place.tokens, b"{")?;
    let kind = type_of(alloc, &signature)?;
    let parameters = signature.parameters;
    signatures.push(signature)?;
    let context = Context {
        alloc,
        functions: signatures.as_slice(),
        unity,
        gives_value: heading.gives_value,
    };
    let mark = place.mark();
    let place = place.begun(inside)?;
    let (Inside { numbers, parts }, place) = context.body(NESTED - 1, &mut scope, 0, place)?;
    let function = CoreFunction {
        name: Bytes::from_slice(alloc, name.text.as_slice())?,
        kind,
        linkage: heading.linkage,
        span: name.span,
        parameters,
        variables: place.variables,
        body: CoreStatement::Block(mark, numbers, parts),
    };
    Ok((function, place.serial, place.tokens))
}
