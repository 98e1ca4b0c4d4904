//! Initialisers and declarations from their parts.

ghost use Rattle.std.specs.Prelude.{◌≡◌, IfOk, None, Some, option_map};
ghost use Rattle.ct_parser_parts.specs.Parts.{parts_built, aimed, started};
ghost use Rattle.ct_grammar_machine.specs.Algebra.{designator_of};
ghost use Rattle.ct_syntax.specs.UnitViews.{view_designator, view_initialiser};
ghost use Rattle.ct_parser_parts.specs.Views.{built, expr_of, specs_part, declarator_part, initialiser_part, initialisers_part, init_declarators_part, declaration_part, aimed_part};

use crate::operands::{enclosed, given, pair};
use crate::{Aimed, Built, DeclaratorPart, ExprPart, Nest, SpecsPart};
use ct_base::{Bytes, Items, Mem, Span};
use ct_syntax::{Declaration, Designator, InitDeclarator, Initialiser, InitialiserItem};
use std::alloc::Global;

/// An initialiser that is an expression.
pub fn value_init(value: ExprPart) -> Mem<Built<Initialiser>>
    ensures { IfOk result (λ p. initialiser_part p ≡ parts_built.value_init (expr_of value)) }
{
    let Built { tree, reach } = value.built;
    let Some(tree) = tree else {
        return Ok(Built { tree: None, reach });
    };
    Ok(Built {
        tree: Some(Initialiser::Value(value.span, Box::into_inner(tree))),
        reach,
    })
}

/// An initialiser in braces.
#[tactic(auto, using(crate::proofs::Rules::one, crate::proofs::Rules::unit_views))]
pub fn braces(
    alloc: Global,
    span: Span,
    items: Built<Vec<InitialiserItem>>,
    comma: bool,
) -> Mem<Built<Initialiser>>
    ensures { IfOk result (λ p. initialiser_part p ≡ parts_built.braces (initialisers_part items) comma) }
{
    let Built { tree, reach } = enclosed(alloc, Nest::Declarator, items)?;
    let Some(list) = tree else {
        return Ok(Built { tree: None, reach });
    };
    Ok(Built {
        tree: Some(Initialiser::List(span, list, comma)),
        reach,
    })
}

/// No item of an initialiser.
pub fn no_initialisers(alloc: Global) -> Built<Vec<InitialiserItem>>
    ensures { initialisers_part result ≡ parts_built.no_inits }
{
    Built {
        tree: Some(Vec::new(alloc)),
        reach: Items::new(alloc),
    }
}

/// What an item is for, if it is no index that is too deep, and what is reached in it.
fn designator(alloc: Global, aim: Aimed) -> Built<Designator>
    ensures { (result.reach ≡ (aimed (aimed_part aim)).reach) × (option_map view_designator result.tree ≡ option_map designator_of (aimed (aimed_part aim)).tree) }
{
    match aim {
        Aimed::Next => Built {
            tree: Some(Designator::Next),
            reach: Items::new(alloc),
        },
        Aimed::Member(span, name) => Built {
            tree: Some(Designator::Member(span, name)),
            reach: Items::new(alloc),
        },
        Aimed::Index(span, place) => {
            let Built { tree, reach } = place.built;
            let Some(place) = tree else {
                return Built { tree: None, reach };
            };
            Built {
                tree: Some(Designator::Index(span, Box::into_inner(place))),
                reach,
            }
        }
    }
}

/// One item more, at the place of its first token.
#[tactic(auto, using(crate::proofs::Rules::designated))]
pub fn push_init(
    alloc: Global,
    before: Built<Vec<InitialiserItem>>,
    span: Span,
    aim: Aimed,
    value: Built<Initialiser>,
) -> Mem<Built<Vec<InitialiserItem>>>
    ensures { IfOk result (λ p. initialisers_part p ≡ parts_built.push_init (initialisers_part before) (aimed_part aim) (initialiser_part value)) }
{
    let item = pair(designator(alloc, aim), value)?;
    let Built { tree, reach } = pair(before, item)?;
    let Some((mut list, item)) = tree else {
        return Ok(Built { tree: None, reach });
    };
    list.push(InitialiserItem {
        span,
        designator: item.0,
        value: item.1,
    })?;
    Ok(Built {
        tree: Some(list),
        reach,
    })
}

/// No declarator with an initialiser.
pub fn no_init_declarators(alloc: Global) -> Built<Vec<InitDeclarator>>
    ensures { init_declarators_part result ≡ parts_built.no_init_declarators }
{
    Built {
        tree: Some(Vec::new(alloc)),
        reach: Items::new(alloc),
    }
}

/// One declarator more, with an initialiser or without.
#[tactic(auto, using(crate::proofs::Rules::inits_last, crate::proofs::Rules::two_more))]
fn push_declared(
    before: Built<Vec<InitDeclarator>>,
    declarator: DeclaratorPart,
    start: Built<Option<Initialiser>>,
) -> Mem<Built<Vec<InitDeclarator>>>
    ensures { IfOk result (λ p. (init_declarators_part p).built ≡ started (init_declarators_part before).built (declarator_part declarator).built (built (option_map view_initialiser) start.tree start.reach)) }
{
    let span = declarator.span;
    let Built { tree, reach } = pair(before, pair(declarator.built, start)?)?;
    let Some((mut list, (declarator, start))) = tree else {
        return Ok(Built { tree: None, reach });
    };
    list.push(InitDeclarator {
        span,
        declarator: Box::into_inner(declarator),
        start,
    })?;
    Ok(Built {
        tree: Some(list),
        reach,
    })
}

/// One declarator more, without an initialiser.
pub fn push_bare(
    alloc: Global,
    before: Built<Vec<InitDeclarator>>,
    declarator: DeclaratorPart,
) -> Mem<Built<Vec<InitDeclarator>>>
    ensures { IfOk result (λ p. init_declarators_part p ≡ parts_built.push_init_declarator (init_declarators_part before) (declarator_part declarator) None) }
{
    let start = Built {
        tree: Some(None),
        reach: Items::new(alloc),
    };
    push_declared(before, declarator, start)
}

/// One declarator more, with its initialiser.
pub fn push_started(
    before: Built<Vec<InitDeclarator>>,
    declarator: DeclaratorPart,
    start: Built<Initialiser>,
) -> Mem<Built<Vec<InitDeclarator>>>
    ensures { IfOk result (λ p. init_declarators_part p ≡ parts_built.push_init_declarator (init_declarators_part before) (declarator_part declarator) (Some (initialiser_part start))) }
{
    push_declared(before, declarator, given(start))
}

/// A declaration.
#[tactic(auto, using(crate::proofs::Rules::one_more))]
pub fn declare(specs: SpecsPart, list: Built<Vec<InitDeclarator>>) -> Mem<Built<Declaration>>
    ensures { IfOk result (λ p. declaration_part p ≡ parts_built.declare (specs_part specs) (init_declarators_part list)) }
{
    let span = specs.span;
    let Built { tree, reach } = pair(specs.built, list)?;
    let Some((specs, list)) = tree else {
        return Ok(Built { tree: None, reach });
    };
    Ok(Built {
        tree: Some(Declaration::Declare(span, specs, list)),
        reach,
    })
}

/// `_Static_assert`.
pub fn static_assert(span: Span, condition: ExprPart, text: Bytes) -> Mem<Built<Declaration>>
    ensures { IfOk result (λ p. declaration_part p ≡ parts_built.assert (expr_of condition) text) }
{
    let Built { tree, reach } = condition.built;
    let Some(condition) = tree else {
        return Ok(Built { tree: None, reach });
    };
    Ok(Built {
        tree: Some(Declaration::Assert(span, Box::into_inner(condition), text)),
        reach,
    })
}
