//! What stands in braces, and the items of a unit, from their parts.

ghost use Rattle.std.specs.Prelude.{◌≡◌, IfOk};
ghost use Rattle.ct_parser_parts.specs.Parts.{parts_built};
ghost use Rattle.ct_parser_parts.specs.Views.{expr_of, specs_part, declarator_part, declaration_part, statement_part, body_part, items_part};

use crate::operands::{enclosed, pair};
use crate::{Built, DeclaratorPart, ExprPart, Nest, SpecsPart};
use ct_base::{Items, Mem, Span};
use ct_syntax::{Block, BlockItem, Declaration, Item, Statement};
use std::alloc::Global;

/// Nothing in braces.
pub fn no_body(alloc: Global) -> Built<Vec<BlockItem>>
    ensures { body_part result ≡ parts_built.no_body }
{
    Built {
        tree: Some(Vec::new(alloc)),
        reach: Items::new(alloc),
    }
}

/// One `case` more.
#[tactic(auto, using(crate::proofs::Rules::body_last, crate::proofs::Rules::one_more))]
pub fn push_case(
    before: Built<Vec<BlockItem>>,
    span: Span,
    value: ExprPart,
) -> Mem<Built<Vec<BlockItem>>>
    ensures { IfOk result (λ p. body_part p ≡ parts_built.push_case (body_part before) (expr_of value)) }
{
    let Built { tree, reach } = pair(before, value.built)?;
    let Some((mut list, value)) = tree else {
        return Ok(Built { tree: None, reach });
    };
    list.push(BlockItem::Case(span, Box::into_inner(value)))?;
    Ok(Built {
        tree: Some(list),
        reach,
    })
}

/// One `default` more.
#[tactic(auto, using(crate::proofs::Rules::body_last))]
pub fn push_default(before: Built<Vec<BlockItem>>, span: Span) -> Mem<Built<Vec<BlockItem>>>
    ensures { IfOk result (λ p. body_part p ≡ parts_built.push_default (body_part before)) }
{
    let Built { tree, reach } = before;
    let Some(mut list) = tree else {
        return Ok(Built { tree: None, reach });
    };
    list.push(BlockItem::Default(span))?;
    Ok(Built {
        tree: Some(list),
        reach,
    })
}

/// One declaration more.
#[tactic(auto, using(crate::proofs::Rules::body_last, crate::proofs::Rules::one_more))]
pub fn push_declared(
    before: Built<Vec<BlockItem>>,
    declaration: Built<Declaration>,
) -> Mem<Built<Vec<BlockItem>>>
    ensures { IfOk result (λ p. body_part p ≡ parts_built.push_declared (body_part before) (declaration_part declaration)) }
{
    let Built { tree, reach } = pair(before, declaration)?;
    let Some((mut list, declaration)) = tree else {
        return Ok(Built { tree: None, reach });
    };
    list.push(BlockItem::Declaration(declaration))?;
    Ok(Built {
        tree: Some(list),
        reach,
    })
}

/// One statement more.
#[tactic(auto, using(crate::proofs::Rules::body_last, crate::proofs::Rules::one_more))]
pub fn push_stated(
    before: Built<Vec<BlockItem>>,
    statement: Built<Box<Statement>>,
) -> Mem<Built<Vec<BlockItem>>>
    ensures { IfOk result (λ p. body_part p ≡ parts_built.push_stated (body_part before) (statement_part statement)) }
{
    let Built { tree, reach } = pair(before, statement)?;
    let Some((mut list, statement)) = tree else {
        return Ok(Built { tree: None, reach });
    };
    list.push(BlockItem::Statement(Box::into_inner(statement)))?;
    Ok(Built {
        tree: Some(list),
        reach,
    })
}

/// No item of a unit.
pub fn no_items(alloc: Global) -> Built<Vec<Item>>
    ensures { items_part result ≡ parts_built.no_items }
{
    Built {
        tree: Some(Vec::new(alloc)),
        reach: Items::new(alloc),
    }
}

/// One definition more.
#[tactic(auto, using(crate::proofs::Rules::items_last, crate::proofs::Rules::definition))]
pub fn push_definition(
    alloc: Global,
    before: Built<Vec<Item>>,
    specs: SpecsPart,
    declarator: DeclaratorPart,
    brace: Span,
    body: Built<Vec<BlockItem>>,
) -> Mem<Built<Vec<Item>>>
    ensures { IfOk result (λ p. items_part p ≡ parts_built.push_definition (items_part before) (specs_part specs) (declarator_part declarator) (body_part body)) }
{
    let span = specs.span;
    let head = pair(specs.built, declarator.built)?;
    let body = enclosed(alloc, Nest::Statement, body)?;
    let Built { tree, reach } = pair(before, pair(head, body)?)?;
    let Some((mut list, ((specs, declarator), items))) = tree else {
        return Ok(Built { tree: None, reach });
    };
    let body = Block { span: brace, items };
    list.push(Item::Function(span, specs, Box::into_inner(declarator), body))?;
    Ok(Built {
        tree: Some(list),
        reach,
    })
}

/// One declaration at file scope more.
#[tactic(auto, using(crate::proofs::Rules::items_last, crate::proofs::Rules::one_more))]
pub fn push_outside(
    before: Built<Vec<Item>>,
    declaration: Built<Declaration>,
) -> Mem<Built<Vec<Item>>>
    ensures { IfOk result (λ p. items_part p ≡ parts_built.push_outside (items_part before) (declaration_part declaration)) }
{
    let Built { tree, reach } = pair(before, declaration)?;
    let Some((mut list, declaration)) = tree else {
        return Ok(Built { tree: None, reach });
    };
    list.push(Item::Declaration(declaration))?;
    Ok(Built {
        tree: Some(list),
        reach,
    })
}

/// One `;` more.
#[tactic(auto, using(crate::proofs::Rules::items_last))]
pub fn push_lone(before: Built<Vec<Item>>, span: Span) -> Mem<Built<Vec<Item>>>
    ensures { IfOk result (λ p. items_part p ≡ parts_built.push_lone (items_part before)) }
{
    let Built { tree, reach } = before;
    let Some(mut list) = tree else {
        return Ok(Built { tree: None, reach });
    };
    list.push(Item::Empty(span))?;
    Ok(Built {
        tree: Some(list),
        reach,
    })
}
