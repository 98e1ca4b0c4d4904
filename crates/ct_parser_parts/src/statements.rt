//! Statements from their parts.

ghost use Rattle.std.specs.Prelude.{◌≡◌, IfOk, None, Some, option_map};
ghost use Rattle.ct_parser_parts.specs.Parts.{parts_built, built_of, branched as spec_branched, fit, make};
ghost use Rattle.ct_parser_parts.specs.Reach.{in_statement, flat};
ghost use Rattle.ct_grammar_machine.specs.Algebra.{expr, stmt};
ghost use Rattle.ct_syntax.specs.Views.{view};
ghost use Rattle.ct_syntax.specs.UnitViews.{view_statement};
ghost use Rattle.ct_parser_parts.specs.Views.{built, boxed, expr_of, declaration_part, for_start_part, statement_part, branches_part, body_part};

use crate::operands::{enclosed, given, pair};
use crate::{Built, ExprPart, Nest, Reach};
use ct_base::{Items, Mem, Span};
use ct_syntax::{Block, BlockItem, Branch, Declaration, Expr, ForStart, Statement};
use std::alloc::Global;

/// A statement that is built.
fn shallow(alloc: Global, tree: Statement, reach: Reach) -> Mem<Built<Box<Statement>>>
    ensures { IfOk result (λ p. statement_part p ≡ make stmt (record { tree = Some (view_statement tree); reach = reach }) tt) }
{
    let tree = Box::new(alloc, tree)?;
    Ok(Built {
        tree: Some(tree),
        reach,
    })
}

/// A statement that has no part.
#[tactic(auto, using(crate::proofs::Rules::leaves))]
fn leaf(alloc: Global, tree: Statement) -> Mem<Built<Box<Statement>>>
    ensures { IfOk result (λ p. statement_part p ≡ make stmt (fit (in_statement flat) (view_statement tree)) tt) }
{
    let alone = Built {
        tree: Some(tree),
        reach: Items::new(alloc),
    };
    let Built { tree, reach } = enclosed(alloc, Nest::Statement, alone)?;
    let Some(tree) = tree else {
        return Ok(Built { tree: None, reach });
    };
    shallow(alloc, tree, reach)
}

/// A declaration that begins a `for`.
pub fn start_declaration(declaration: Built<Declaration>) -> Mem<Built<ForStart>>
    ensures { IfOk result (λ p. for_start_part p ≡ parts_built.start_declaration (declaration_part declaration)) }
{
    let Built { tree, reach } = declaration;
    let Some(declaration) = tree else {
        return Ok(Built { tree: None, reach });
    };
    Ok(Built {
        tree: Some(ForStart::Declaration(declaration)),
        reach,
    })
}

/// What is built of an expression or none.
fn optional(alloc: Global, value: Option<ExprPart>) -> Built<Option<Expr>>
    ensures { (result.reach ≡ (built_of expr (option_map expr_of value)).reach) × (option_map (option_map view) result.tree ≡ (built_of expr (option_map expr_of value)).tree) }
{
    let Some(value) = value else {
        return Built {
            tree: Some(None),
            reach: Items::new(alloc),
        };
    };
    let Built { tree, reach } = value.built;
    let Some(value) = tree else {
        return Built { tree: None, reach };
    };
    Built {
        tree: Some(Some(Box::into_inner(value))),
        reach,
    }
}

/// An expression or nothing that begins a `for`.
pub fn start_value(alloc: Global, value: Option<ExprPart>) -> Mem<Built<ForStart>>
    ensures { IfOk result (λ p. for_start_part p ≡ parts_built.start_value (option_map expr_of value)) }
{
    let Built { tree, reach } = optional(alloc, value);
    let Some(value) = tree else {
        return Ok(Built { tree: None, reach });
    };
    Ok(Built {
        tree: Some(ForStart::Value(value)),
        reach,
    })
}

/// A block.
#[tactic(auto, using(crate::proofs::Rules::one, crate::proofs::Rules::unit_views))]
pub fn block(alloc: Global, span: Span, body: Built<Vec<BlockItem>>) -> Mem<Built<Box<Statement>>>
    ensures { IfOk result (λ p. statement_part p ≡ parts_built.block (body_part body)) }
{
    let Built { tree, reach } = enclosed(alloc, Nest::Statement, body)?;
    let Some(items) = tree else {
        return Ok(Built { tree: None, reach });
    };
    shallow(alloc, Statement::Block(Block { span, items }), reach)
}

/// An expression or nothing, and `;`.
#[tactic(auto, using(crate::proofs::Rules::one))]
pub fn run(alloc: Global, span: Span, value: Option<ExprPart>) -> Mem<Built<Box<Statement>>>
    ensures { IfOk result (λ p. statement_part p ≡ parts_built.run (option_map expr_of value)) }
{
    let Built { tree, reach } = enclosed(alloc, Nest::Statement, optional(alloc, value))?;
    let Some(value) = tree else {
        return Ok(Built { tree: None, reach });
    };
    shallow(alloc, Statement::Run(span, value), reach)
}

/// A `return`.
#[tactic(auto, using(crate::proofs::Rules::one))]
pub fn return_value(
    alloc: Global,
    span: Span,
    value: Option<ExprPart>,
) -> Mem<Built<Box<Statement>>>
    ensures { IfOk result (λ p. statement_part p ≡ parts_built.return (option_map expr_of value)) }
{
    let Built { tree, reach } = enclosed(alloc, Nest::Statement, optional(alloc, value))?;
    let Some(value) = tree else {
        return Ok(Built { tree: None, reach });
    };
    shallow(alloc, Statement::Return(span, value), reach)
}

/// An `if`, with an `else` or without.
#[tactic(auto, using(crate::proofs::Rules::two, crate::proofs::Rules::unit_views))]
fn branched(
    alloc: Global,
    span: Span,
    branches: Built<Vec<Branch>>,
    other: Built<Option<Box<Statement>>>,
) -> Mem<Built<Box<Statement>>>
    ensures { IfOk result (λ p. boxed view_statement p ≡ spec_branched (branches_part branches).built (built (option_map (λ b. view_statement b.value)) other.tree other.reach)) }
{
    let operands = pair(branches, other)?;
    let Built { tree, reach } = enclosed(alloc, Nest::Statement, operands)?;
    let Some((branches, other)) = tree else {
        return Ok(Built { tree: None, reach });
    };
    shallow(alloc, Statement::If(span, branches, other), reach)
}

/// The branches of an `if`, without an `else` of their own.
pub fn if_branches(
    alloc: Global,
    span: Span,
    branches: Built<Vec<Branch>>,
) -> Mem<Built<Box<Statement>>>
    ensures { IfOk result (λ p. statement_part p ≡ parts_built.if_else (branches_part branches) None) }
{
    let other = Built {
        tree: Some(None),
        reach: Items::new(alloc),
    };
    branched(alloc, span, branches, other)
}

/// The branches of an `if`, and what stands behind the last `else`.
pub fn if_else(
    alloc: Global,
    span: Span,
    branches: Built<Vec<Branch>>,
    other: Built<Box<Statement>>,
) -> Mem<Built<Box<Statement>>>
    ensures { IfOk result (λ p. statement_part p ≡ parts_built.if_else (branches_part branches) (Some (statement_part other))) }
{
    branched(alloc, span, branches, given(other))
}

/// A `while`.
#[tactic(auto, using(crate::proofs::Rules::two))]
pub fn while_loop(
    alloc: Global,
    span: Span,
    test: ExprPart,
    body: Built<Box<Statement>>,
) -> Mem<Built<Box<Statement>>>
    ensures { IfOk result (λ p. statement_part p ≡ parts_built.while_loop (expr_of test) (statement_part body)) }
{
    let operands = pair(test.built, body)?;
    let Built { tree, reach } = enclosed(alloc, Nest::Statement, operands)?;
    let Some((test, body)) = tree else {
        return Ok(Built { tree: None, reach });
    };
    shallow(
        alloc,
        Statement::While(span, Box::into_inner(test), body),
        reach,
    )
}

/// A `do`.
#[tactic(auto, using(crate::proofs::Rules::two))]
pub fn do_loop(
    alloc: Global,
    span: Span,
    body: Built<Box<Statement>>,
    test: ExprPart,
) -> Mem<Built<Box<Statement>>>
    ensures { IfOk result (λ p. statement_part p ≡ parts_built.do_loop (statement_part body) (expr_of test)) }
{
    let operands = pair(body, test.built)?;
    let Built { tree, reach } = enclosed(alloc, Nest::Statement, operands)?;
    let Some((body, test)) = tree else {
        return Ok(Built { tree: None, reach });
    };
    shallow(
        alloc,
        Statement::Do(span, body, Box::into_inner(test)),
        reach,
    )
}

/// A `for`.
#[tactic(auto, using(crate::proofs::Rules::four))]
pub fn for_loop(
    alloc: Global,
    span: Span,
    start: Built<ForStart>,
    test: Option<ExprPart>,
    after: Option<ExprPart>,
    body: Built<Box<Statement>>,
) -> Mem<Built<Box<Statement>>>
    ensures { IfOk result (λ p. statement_part p ≡ parts_built.for_loop (for_start_part start) (option_map expr_of test) (option_map expr_of after) (statement_part body)) }
{
    let head = pair(start, optional(alloc, test))?;
    let head = pair(head, optional(alloc, after))?;
    let operands = pair(head, body)?;
    let Built { tree, reach } = enclosed(alloc, Nest::Statement, operands)?;
    let Some((head, body)) = tree else {
        return Ok(Built { tree: None, reach });
    };
    shallow(
        alloc,
        Statement::For(span, head.0.0, head.0.1, head.1, body),
        reach,
    )
}

/// A `switch`.
#[tactic(auto, using(crate::proofs::Rules::two, crate::proofs::Rules::unit_views))]
pub fn switch(
    alloc: Global,
    span: Span,
    value: ExprPart,
    brace: Span,
    body: Built<Vec<BlockItem>>,
) -> Mem<Built<Box<Statement>>>
    ensures { IfOk result (λ p. statement_part p ≡ parts_built.switch (expr_of value) (body_part body)) }
{
    let operands = pair(value.built, body)?;
    let Built { tree, reach } = enclosed(alloc, Nest::Statement, operands)?;
    let Some((value, items)) = tree else {
        return Ok(Built { tree: None, reach });
    };
    let body = Block { span: brace, items };
    shallow(
        alloc,
        Statement::Switch(span, Box::into_inner(value), body),
        reach,
    )
}

/// A `break`.
pub fn break_statement(alloc: Global, span: Span) -> Mem<Built<Box<Statement>>>
    ensures { IfOk result (λ p. statement_part p ≡ parts_built.break) }
{
    leaf(alloc, Statement::Break(span))
}

/// A `continue`.
pub fn continue_statement(alloc: Global, span: Span) -> Mem<Built<Box<Statement>>>
    ensures { IfOk result (λ p. statement_part p ≡ parts_built.continue) }
{
    leaf(alloc, Statement::Continue(span))
}

/// No branch.
pub fn no_branches(alloc: Global) -> Built<Vec<Branch>>
    ensures { branches_part result ≡ parts_built.no_branches }
{
    Built {
        tree: Some(Vec::new(alloc)),
        reach: Items::new(alloc),
    }
}

/// One branch more, at the place of its `if`.
#[tactic(auto, using(crate::proofs::Rules::branches_last, crate::proofs::Rules::two_more))]
pub fn push_branch(
    before: Built<Vec<Branch>>,
    span: Span,
    test: ExprPart,
    body: Built<Box<Statement>>,
) -> Mem<Built<Vec<Branch>>>
    ensures { IfOk result (λ p. branches_part p ≡ parts_built.push_branch (branches_part before) (expr_of test) (statement_part body)) }
{
    let Built { tree, reach } = pair(before, pair(test.built, body)?)?;
    let Some((mut list, (test, body))) = tree else {
        return Ok(Built { tree: None, reach });
    };
    list.push(Branch {
        span,
        test: Box::into_inner(test),
        body: Box::into_inner(body),
    })?;
    Ok(Built {
        tree: Some(list),
        reach,
    })
}
