//! Declarators and parameters from their parts.

ghost use Rattle.std.specs.Prelude.{◌≡◌, if◌then◌else◌, ◌++◌, ◌&&◌, ◌==◌, IfOk};
ghost use Rattle.ct_parser_parts.specs.Parts.{parts_built, is_one_void, name_maybe};
ghost use Rattle.ct_parser_parts.specs.Views.{expr_of, specs_part, declarators_part, declarator_part, parameters_part, names_of};

use crate::operands::{enclosed, pair};
use crate::{Built, DeclaratorPart, Declared, ExprPart, Nest, ParametersPart, SpecsPart};
use ct_base::{Bytes, Items, Mem, Span};
use ct_syntax::{Declarator, Parameter, ParameterForm, Qualifier, SpecWord};
use std::alloc::Global;

/// No declarator.
pub fn no_declarators(alloc: Global) -> Built<Vec<Declarator>>
    ensures { declarators_part result ≡ parts_built.no_declarators }
{
    Built {
        tree: Some(Vec::new(alloc)),
        reach: Items::new(alloc),
    }
}

/// One declarator more.
#[tactic(auto, using(crate::proofs::Rules::declarators_last, crate::proofs::Rules::one_more))]
pub fn push_declarator(
    before: Built<Vec<Declarator>>,
    declarator: DeclaratorPart,
) -> Mem<Built<Vec<Declarator>>>
    ensures { IfOk result (λ p. declarators_part p ≡ parts_built.push_declarator (declarators_part before) (declarator_part declarator)) }
{
    let Built { tree, reach } = pair(before, declarator.built)?;
    let Some((mut list, last)) = tree else {
        return Ok(Built { tree: None, reach });
    };
    list.push(Box::into_inner(last))?;
    Ok(Built {
        tree: Some(list),
        reach,
    })
}

/// Nothing in the place of the name, before a token.
pub fn nameless(alloc: Global, span: Span) -> Mem<DeclaratorPart>
    ensures { IfOk result (λ p. declarator_part p ≡ parts_built.nameless) }
{
    let tree = Box::new(alloc, Declarator::Nameless)?;
    Ok(DeclaratorPart {
        built: Built {
            tree: Some(tree),
            reach: Items::new(alloc),
        },
        nameless: true,
        name: None,
        plain: false,
        own: Items::new(alloc),
        span,
    })
}

/// A name.
pub fn called(alloc: Global, span: Span, text: &[u8]) -> Mem<DeclaratorPart>
    ensures { IfOk result (λ p. declarator_part p ≡ parts_built.called text.now) }
{
    let name = Bytes::from_slice(alloc, text)?;
    let written = Bytes::from_slice(alloc, text)?;
    let tree = Box::new(alloc, Declarator::Name(span, written))?;
    Ok(DeclaratorPart {
        built: Built {
            tree: Some(tree),
            reach: Items::new(alloc),
        },
        nameless: false,
        name: Some(name),
        plain: true,
        own: Items::new(alloc),
        span,
    })
}

/// A declarator in parentheses.
#[tactic(auto, using(crate::proofs::Rules::one))]
pub fn group(alloc: Global, span: Span, inner: DeclaratorPart) -> Mem<DeclaratorPart>
    ensures { IfOk result (λ p. declarator_part p ≡ parts_built.group (declarator_part inner)) }
{
    let Built { tree, reach } = enclosed(alloc, Nest::Declarator, inner.built)?;
    let mut part = DeclaratorPart {
        built: Built { tree: None, reach },
        nameless: false,
        name: inner.name,
        plain: inner.plain,
        own: inner.own,
        span,
    };
    let Some(inside) = tree else {
        return Ok(part);
    };
    part.built.tree = Some(Box::new(alloc, Declarator::Group(span, inside))?);
    Ok(part)
}

/// A pointer.
#[tactic(auto, using(crate::proofs::Rules::one))]
pub fn pointer(
    alloc: Global,
    span: Span,
    qualifiers: Items<Qualifier>,
    inner: DeclaratorPart,
) -> Mem<DeclaratorPart>
    ensures { IfOk result (λ p. declarator_part p ≡ parts_built.pointer qualifiers (declarator_part inner)) }
{
    let Built { tree, reach } = enclosed(alloc, Nest::Declarator, inner.built)?;
    let mut part = DeclaratorPart {
        built: Built { tree: None, reach },
        nameless: false,
        name: inner.name,
        plain: false,
        own: inner.own,
        span,
    };
    let Some(inside) = tree else {
        return Ok(part);
    };
    part.built.tree = Some(Box::new(alloc, Declarator::Pointer(span, qualifiers, inside))?);
    Ok(part)
}

/// An array without a size.
#[tactic(auto, using(crate::proofs::Rules::one, crate::proofs::Rules::declarator_views))]
pub fn array_open(alloc: Global, inner: DeclaratorPart) -> Mem<DeclaratorPart>
    ensures { IfOk result (λ p. declarator_part p ≡ parts_built.array_open (declarator_part inner)) }
{
    let span = inner.span;
    let Built { tree, reach } = enclosed(alloc, Nest::Declarator, inner.built)?;
    let mut part = DeclaratorPart {
        built: Built { tree: None, reach },
        nameless: false,
        name: inner.name,
        plain: false,
        own: inner.own,
        span,
    };
    let Some(inside) = tree else {
        return Ok(part);
    };
    part.built.tree = Some(Box::new(alloc, Declarator::Array(span, inside, None))?);
    Ok(part)
}

/// An array with its size.
#[tactic(auto, using(crate::proofs::Rules::two, crate::proofs::Rules::declarator_views))]
pub fn array(alloc: Global, inner: DeclaratorPart, size: ExprPart) -> Mem<DeclaratorPart>
    ensures { IfOk result (λ p. declarator_part p ≡ parts_built.array (declarator_part inner) (expr_of size)) }
{
    let span = inner.span;
    let operands = pair(inner.built, size.built)?;
    let Built { tree, reach } = enclosed(alloc, Nest::Declarator, operands)?;
    let mut part = DeclaratorPart {
        built: Built { tree: None, reach },
        nameless: false,
        name: inner.name,
        plain: false,
        own: inner.own,
        span,
    };
    let Some((inside, size)) = tree else {
        return Ok(part);
    };
    part.built.tree = Some(Box::new(alloc, Declarator::Array(span, inside, Some(size)))?);
    Ok(part)
}

fn own_names(plain: bool, inner: Items<Declared>, parameters: Items<Declared>) -> Items<Declared>
    ensures { names_of result ≡ (if plain then names_of parameters else names_of inner) }
{
    if plain { parameters } else { inner }
}

/// A function with its parameters.
#[tactic(auto, using(crate::proofs::Rules::two, crate::proofs::Rules::declarator_views))]
pub fn function(
    alloc: Global,
    inner: DeclaratorPart,
    form: ParameterForm,
    parameters: ParametersPart,
) -> Mem<DeclaratorPart>
    ensures { IfOk result (λ p. declarator_part p ≡ parts_built.function (declarator_part inner) form (parameters_part parameters)) }
{
    let span = inner.span;
    let own = own_names(inner.plain, inner.own, parameters.names);
    let operands = pair(inner.built, parameters.built)?;
    let Built { tree, reach } = enclosed(alloc, Nest::Declarator, operands)?;
    let mut part = DeclaratorPart {
        built: Built { tree: None, reach },
        nameless: false,
        name: inner.name,
        plain: false,
        own,
        span,
    };
    let Some((inside, list)) = tree else {
        return Ok(part);
    };
    part.built.tree = Some(Box::new(alloc, Declarator::Function(span, inside, form, list))?);
    Ok(part)
}

/// No parameter.
pub fn no_parameters(alloc: Global) -> ParametersPart
    ensures { parameters_part result ≡ parts_built.no_parameters }
{
    ParametersPart {
        built: Built {
            tree: Some(Vec::new(alloc)),
            reach: Items::new(alloc),
        },
        empty: true,
        only_void: false,
        names: Items::new(alloc),
    }
}

fn is_void(words: &Items<SpecWord>, wholes: u64) -> bool
    ensures { result ≡ (is_one_void words.now && (wholes == 0)) }
{
    wholes == 0 && words.len() == 1 && matches!(words.get(0), Some(SpecWord::Void))
}

#[tactic(auto, using(crate::proofs::Rules::names_last, crate::proofs::Rules::no_more_names))]
fn with_name(names: Items<Declared>, name: Option<Bytes>, is_type: bool) -> Mem<Items<Declared>>
    ensures { IfOk result (λ all. names_of all ≡ names_of names ++ name_maybe name is_type) }
{
    let mut names = names;
    let Some(name) = name else {
        return Ok(names);
    };
    names.push(Declared { name, is_type })?;
    Ok(names)
}

/// One parameter more.
#[tactic(auto, using(crate::proofs::Rules::parameters_last, crate::proofs::Rules::names_append, crate::proofs::Rules::two_more))]
pub fn push_parameter(
    before: ParametersPart,
    specs: SpecsPart,
    declarator: DeclaratorPart,
) -> Mem<ParametersPart>
    ensures { IfOk result (λ p. parameters_part p ≡ parts_built.push_parameter (parameters_part before) (specs_part specs) (declarator_part declarator)) }
{
    let span = specs.span;
    let only_void = before.empty && is_void(&specs.words, specs.wholes) && declarator.nameless;
    let more = with_name(specs.names, declarator.name, specs.typedef)?;
    let mut names = before.names;
    names.append(more)?;
    let Built { tree, reach } = pair(before.built, pair(specs.built, declarator.built)?)?;
    let mut part = ParametersPart {
        built: Built { tree: None, reach },
        empty: false,
        only_void,
        names,
    };
    let Some((mut list, (specs, declarator))) = tree else {
        return Ok(part);
    };
    list.push(Parameter {
        span,
        specs,
        declarator: Box::into_inner(declarator),
    })?;
    part.built.tree = Some(list);
    Ok(part)
}
