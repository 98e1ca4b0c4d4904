//! Expressions from their parts.

ghost use Rattle.std.specs.Prelude.{◌≡◌, IfOk, None, Some};
ghost use Rattle.ct_parser_parts.specs.Parts.{parts_built, make, fit};
ghost use Rattle.ct_parser_parts.specs.Reach.{in_expression, flat};
ghost use Rattle.ct_parser_parts.specs.Views.{expr_of, exprs_of, specs_part, declarator_part};
ghost use Rattle.ct_grammar_machine.specs.Algebra.{expr};
ghost use Rattle.ct_syntax.specs.Grammar.{infix_level as spec_level};
ghost use Rattle.ct_syntax.specs.Views.{view};

use crate::operands::{enclosed, pair};
use crate::{Built, DeclaratorPart, ExprPart, Nest, Reach, SpecsPart};
use ct_base::{BinaryOp, Bytes, Items, Mem, Span};
use ct_syntax::{AssignOp, Expr, InfixOp, MemberOp, PrefixOp, StepOp};
use std::alloc::Global;

/// How tightly an operator binds (C11 6.5.5 to 6.5.14).
pub fn infix_level(op: InfixOp) -> u8
    ensures { result ≡ spec_level op }
{
    match op {
        InfixOp::LogicalOr => 4,
        InfixOp::LogicalAnd => 5,
        InfixOp::Number(op) => match op {
            BinaryOp::Or => 6,
            BinaryOp::Xor => 7,
            BinaryOp::And => 8,
            BinaryOp::Equal | BinaryOp::NotEqual => 9,
            BinaryOp::Less | BinaryOp::Greater | BinaryOp::LessEqual | BinaryOp::GreaterEqual => 10,
            BinaryOp::ShiftLeft | BinaryOp::ShiftRight => 11,
            BinaryOp::Add | BinaryOp::Subtract => 12,
            BinaryOp::Multiply | BinaryOp::Divide | BinaryOp::Remainder => 13,
        },
    }
}

/// An expression that is too deep to be built.
fn deep(reach: Reach, level: u8, span: Span) -> ExprPart
    ensures { expr_of result ≡ make expr (record { tree = None; reach = reach }) level }
{
    ExprPart {
        built: Built { tree: None, reach },
        level,
        span,
    }
}

/// An expression that is built.
fn shallow(alloc: Global, tree: Expr, reach: Reach, level: u8, span: Span) -> Mem<ExprPart>
    ensures { IfOk result (λ p. expr_of p ≡ make expr (record { tree = Some (view tree); reach = reach }) level) }
{
    let tree = Box::new(alloc, tree)?;
    Ok(ExprPart {
        built: Built {
            tree: Some(tree),
            reach,
        },
        level,
        span,
    })
}

/// An expression that has no other in it.
#[tactic(auto, using(crate::proofs::Rules::leaves))]
fn leaf(alloc: Global, tree: Expr, span: Span) -> Mem<ExprPart>
    ensures { IfOk result (λ p. expr_of p ≡ make expr (fit (in_expression flat) (view tree)) 16) }
{
    let alone = Built {
        tree: Some(tree),
        reach: Items::new(alloc),
    };
    let Built { tree, reach } = enclosed(alloc, Nest::Expression, alone)?;
    let Some(tree) = tree else {
        return Ok(deep(reach, 16, span));
    };
    shallow(alloc, tree, reach, 16, span)
}

/// A name.
pub fn name(alloc: Global, span: Span, text: Bytes) -> Mem<ExprPart>
    ensures { IfOk result (λ p. expr_of p ≡ parts_built.name text) }
{
    leaf(alloc, Expr::Name(span, text), span)
}

/// A number.
pub fn number(alloc: Global, span: Span, text: Bytes) -> Mem<ExprPart>
    ensures { IfOk result (λ p. expr_of p ≡ parts_built.number text) }
{
    leaf(alloc, Expr::Number(span, text), span)
}

/// A character constant.
pub fn character(alloc: Global, span: Span, text: Bytes) -> Mem<ExprPart>
    ensures { IfOk result (λ p. expr_of p ≡ parts_built.character text) }
{
    leaf(alloc, Expr::Character(span, text), span)
}

/// String literals, one behind the other.
pub fn strings(alloc: Global, span: Span, first: Bytes, others: Items<Bytes>) -> Mem<ExprPart>
    ensures { IfOk result (λ p. expr_of p ≡ parts_built.strings first others) }
{
    leaf(alloc, Expr::Text(span, first, others), span)
}

/// An expression in parentheses.
#[tactic(auto, using(crate::proofs::Rules::one))]
pub fn paren(alloc: Global, span: Span, inner: ExprPart) -> Mem<ExprPart>
    ensures { IfOk result (λ p. expr_of p ≡ parts_built.paren (expr_of inner)) }
{
    let Built { tree, reach } = enclosed(alloc, Nest::Expression, inner.built)?;
    let Some(inner) = tree else {
        return Ok(deep(reach, 16, span));
    };
    shallow(alloc, Expr::Paren(span, inner), reach, 16, span)
}

/// A subscript.
#[tactic(auto, using(crate::proofs::Rules::two))]
pub fn index(alloc: Global, array: ExprPart, place: ExprPart) -> Mem<ExprPart>
    ensures { IfOk result (λ p. expr_of p ≡ parts_built.index (expr_of array) (expr_of place)) }
{
    let span = array.span;
    let operands = pair(array.built, place.built)?;
    let Built { tree, reach } = enclosed(alloc, Nest::Expression, operands)?;
    let Some((array, place)) = tree else {
        return Ok(deep(reach, 16, span));
    };
    shallow(alloc, Expr::Index(span, array, place), reach, 16, span)
}

/// A call.
#[tactic(auto, using(crate::proofs::Rules::two, crate::proofs::Rules::tree_views))]
pub fn call(alloc: Global, function: ExprPart, arguments: Built<Vec<Expr>>) -> Mem<ExprPart>
    ensures { IfOk result (λ p. expr_of p ≡ parts_built.call (expr_of function) (exprs_of arguments)) }
{
    let span = function.span;
    let operands = pair(function.built, arguments)?;
    let Built { tree, reach } = enclosed(alloc, Nest::Expression, operands)?;
    let Some((function, arguments)) = tree else {
        return Ok(deep(reach, 16, span));
    };
    shallow(
        alloc,
        Expr::Call(span, function, arguments),
        reach,
        16,
        span,
    )
}

/// A member of a struct.
#[tactic(auto, using(crate::proofs::Rules::one))]
pub fn member(alloc: Global, whole: ExprPart, op: MemberOp, name: Bytes) -> Mem<ExprPart>
    ensures { IfOk result (λ p. expr_of p ≡ parts_built.member_of (expr_of whole) op name) }
{
    let span = whole.span;
    let Built { tree, reach } = enclosed(alloc, Nest::Expression, whole.built)?;
    let Some(whole) = tree else {
        return Ok(deep(reach, 16, span));
    };
    shallow(alloc, Expr::Member(span, whole, op, name), reach, 16, span)
}

/// `++` or `--` behind its operand.
#[tactic(auto, using(crate::proofs::Rules::one))]
pub fn postfix(alloc: Global, operand: ExprPart, op: StepOp) -> Mem<ExprPart>
    ensures { IfOk result (λ p. expr_of p ≡ parts_built.postfix (expr_of operand) op) }
{
    let span = operand.span;
    let Built { tree, reach } = enclosed(alloc, Nest::Expression, operand.built)?;
    let Some(operand) = tree else {
        return Ok(deep(reach, 16, span));
    };
    shallow(alloc, Expr::Postfix(span, operand, op), reach, 16, span)
}

/// `++` or `--` before its operand.
#[tactic(auto, using(crate::proofs::Rules::one))]
pub fn prefix(alloc: Global, span: Span, op: StepOp, operand: ExprPart) -> Mem<ExprPart>
    ensures { IfOk result (λ p. expr_of p ≡ parts_built.prefixed op (expr_of operand)) }
{
    let Built { tree, reach } = enclosed(alloc, Nest::Expression, operand.built)?;
    let Some(operand) = tree else {
        return Ok(deep(reach, 15, span));
    };
    shallow(alloc, Expr::Prefix(span, op, operand), reach, 15, span)
}

/// An operator before its operand.
#[tactic(auto, using(crate::proofs::Rules::one))]
pub fn unary(alloc: Global, span: Span, op: PrefixOp, operand: ExprPart) -> Mem<ExprPart>
    ensures { IfOk result (λ p. expr_of p ≡ parts_built.unary op (expr_of operand)) }
{
    let Built { tree, reach } = enclosed(alloc, Nest::Expression, operand.built)?;
    let Some(operand) = tree else {
        return Ok(deep(reach, 15, span));
    };
    shallow(alloc, Expr::Unary(span, op, operand), reach, 15, span)
}

/// `sizeof` of an expression.
#[tactic(auto, using(crate::proofs::Rules::one))]
pub fn sizeof_value(alloc: Global, span: Span, operand: ExprPart) -> Mem<ExprPart>
    ensures { IfOk result (λ p. expr_of p ≡ parts_built.sizeof_value (expr_of operand)) }
{
    let Built { tree, reach } = enclosed(alloc, Nest::Expression, operand.built)?;
    let Some(operand) = tree else {
        return Ok(deep(reach, 15, span));
    };
    shallow(alloc, Expr::SizeofValue(span, operand), reach, 15, span)
}

/// `sizeof` of a type name.
#[tactic(auto, using(crate::proofs::Rules::two, crate::proofs::Rules::tree_views))]
pub fn sizeof_type(
    alloc: Global,
    span: Span,
    specs: SpecsPart,
    declarator: DeclaratorPart,
) -> Mem<ExprPart>
    ensures { IfOk result (λ p. expr_of p ≡ parts_built.sizeof_type (specs_part specs) (declarator_part declarator)) }
{
    let operands = pair(specs.built, declarator.built)?;
    let Built { tree, reach } = enclosed(alloc, Nest::Expression, operands)?;
    let Some((specs, declarator)) = tree else {
        return Ok(deep(reach, 15, span));
    };
    shallow(
        alloc,
        Expr::SizeofType(span, specs, declarator),
        reach,
        15,
        span,
    )
}

/// A cast.
#[tactic(auto, using(crate::proofs::Rules::three, crate::proofs::Rules::tree_views))]
pub fn cast(
    alloc: Global,
    span: Span,
    specs: SpecsPart,
    declarator: DeclaratorPart,
    operand: ExprPart,
) -> Mem<ExprPart>
    ensures { IfOk result (λ p. expr_of p ≡ parts_built.cast (specs_part specs) (declarator_part declarator) (expr_of operand)) }
{
    let operands = pair(pair(specs.built, declarator.built)?, operand.built)?;
    let Built { tree, reach } = enclosed(alloc, Nest::Expression, operands)?;
    let Some((kind, operand)) = tree else {
        return Ok(deep(reach, 14, span));
    };
    shallow(
        alloc,
        Expr::Cast(span, kind.0, kind.1, operand),
        reach,
        14,
        span,
    )
}

/// An operator between two operands.
#[tactic(auto, using(crate::proofs::Rules::two))]
pub fn infix(alloc: Global, op: InfixOp, left: ExprPart, right: ExprPart) -> Mem<ExprPart>
    ensures { IfOk result (λ p. expr_of p ≡ parts_built.infixed op (expr_of left) (expr_of right)) }
{
    let span = left.span;
    let level = infix_level(op);
    let operands = pair(left.built, right.built)?;
    let Built { tree, reach } = enclosed(alloc, Nest::Expression, operands)?;
    let Some((left, right)) = tree else {
        return Ok(deep(reach, level, span));
    };
    shallow(
        alloc,
        Expr::Infix(span, op, left, right),
        reach,
        level,
        span,
    )
}

/// `?` and `:`.
#[tactic(auto, using(crate::proofs::Rules::three))]
pub fn conditional(alloc: Global, test: ExprPart, yes: ExprPart, no: ExprPart) -> Mem<ExprPart>
    ensures { IfOk result (λ p. expr_of p ≡ parts_built.conditional (expr_of test) (expr_of yes) (expr_of no)) }
{
    let span = test.span;
    let operands = pair(pair(test.built, yes.built)?, no.built)?;
    let Built { tree, reach } = enclosed(alloc, Nest::Expression, operands)?;
    let Some(((test, yes), no)) = tree else {
        return Ok(deep(reach, 3, span));
    };
    shallow(
        alloc,
        Expr::Conditional(span, test, yes, no),
        reach,
        3,
        span,
    )
}

/// An assignment.
#[tactic(auto, using(crate::proofs::Rules::two))]
pub fn assign(alloc: Global, op: AssignOp, left: ExprPart, right: ExprPart) -> Mem<ExprPart>
    ensures { IfOk result (λ p. expr_of p ≡ parts_built.assign op (expr_of left) (expr_of right)) }
{
    let span = left.span;
    let operands = pair(left.built, right.built)?;
    let Built { tree, reach } = enclosed(alloc, Nest::Expression, operands)?;
    let Some((left, right)) = tree else {
        return Ok(deep(reach, 2, span));
    };
    shallow(alloc, Expr::Assign(span, op, left, right), reach, 2, span)
}

/// A comma.
#[tactic(auto, using(crate::proofs::Rules::two))]
pub fn comma(alloc: Global, left: ExprPart, right: ExprPart) -> Mem<ExprPart>
    ensures { IfOk result (λ p. expr_of p ≡ parts_built.comma (expr_of left) (expr_of right)) }
{
    let span = left.span;
    let operands = pair(left.built, right.built)?;
    let Built { tree, reach } = enclosed(alloc, Nest::Expression, operands)?;
    let Some((left, right)) = tree else {
        return Ok(deep(reach, 1, span));
    };
    shallow(alloc, Expr::Comma(span, left, right), reach, 1, span)
}

/// No argument.
pub fn no_arguments(alloc: Global) -> Built<Vec<Expr>>
    ensures { exprs_of result ≡ parts_built.no_arguments }
{
    Built {
        tree: Some(Vec::new(alloc)),
        reach: Items::new(alloc),
    }
}

/// One argument more.
#[tactic(auto, using(crate::proofs::Rules::expressions_last, crate::proofs::Rules::one_more))]
pub fn push_argument(before: Built<Vec<Expr>>, argument: ExprPart) -> Mem<Built<Vec<Expr>>>
    ensures { IfOk result (λ p. exprs_of p ≡ parts_built.push (exprs_of before) (expr_of argument)) }
{
    let Built { tree, reach } = pair(before, argument.built)?;
    let Some((mut list, last)) = tree else {
        return Ok(Built { tree: None, reach });
    };
    list.push(Box::into_inner(last))?;
    Ok(Built {
        tree: Some(list),
        reach,
    })
}
