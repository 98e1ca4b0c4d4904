//! Expressions.

ghost use Rattle.std.specs.Prelude.{◌≡◌, IfNone, IfOk, IfSome, pos};
ghost use Rattle.ct_core.specs.declared.trees.CoreExpression.TheVariants as core;
ghost use Rattle.ct_ctype.specs.declared.kinds.IntKind.TheVariants as kind;
ghost use Rattle.ct_core.specs.declared.trees.CoreExpression.{CoreExpression as expression};
ghost use Rattle.ct_form.specs.declared.names.Signature.{Signature as signature};
ghost use Rattle.ct_form.specs.Answers.{Answers};
ghost use Rattle.ct_form.specs.Expressions.{IsArguments, IsCall, IsExpression, IsList, IsSum, IsUnit, IsSign, IsGroup, IsValueOfCall, value_of as held};
ghost use Rattle.ct_form.specs.Words.{Nothing};
ghost use Rattle.ct_form.specs.Names.{type_of as function_type};

use crate::names::{Binding, Signature, callee, number_of, type_of};
use crate::words::{NoMatch, name, number, word};
use ct_base::{BinaryOp, Bytes, Items, Mem, Token};
use ct_core::{CoreExpression, Scalar};
use ct_ctype::IntKind;
use sqlite_items::Boxed;
use std::alloc::Global;

/// What an object of type `int` holds or takes.
pub const INT: Scalar = Scalar::Int(IntKind::Int);

/// The functions and variables that may be named at a place.
#[derive(Clone, Copy)]
pub struct Names<'a> {
    pub alloc: Global,
    pub functions: &'a [Signature],
    pub scope: &'a [Binding],
}

/// An operator of two values of type `int`.
fn binary(
    alloc: Global,
    op: BinaryOp,
    left: CoreExpression,
    right: CoreExpression,
) -> Mem<CoreExpression>
    ensures { IfOk result (λ both. both ≡ core.Binary op kind.Int left right) }
{
    let left = Boxed::new(alloc, left)?;
    let right = Boxed::new(alloc, right)?;
    Ok(CoreExpression::Binary(op, IntKind::Int, left, right))
}

/// A number of type `int`.
fn constant(value: u32) -> CoreExpression
    ensures { result ≡ core.Constant kind.Int (pos value) }
{
    CoreExpression::Constant(IntKind::Int, i128::from(value))
}

/// What the variable of this number holds.
fn value_of(alloc: Global, variable: u32) -> Mem<CoreExpression>
    ensures { IfOk result (λ value. value ≡ held variable) }
{
    let object = Boxed::new(alloc, CoreExpression::Variable(variable))?;
    Ok(CoreExpression::Load(INT, object))
}

/// A call by this name of a function with these arguments.
fn call_of(
    alloc: Global,
    signature: &Signature,
    name: &[u8],
    arguments: Items<CoreExpression>,
) -> Mem<CoreExpression>
    ensures { IfOk result (λ call. call ≡ core.Call (function_type signature.now) (core.Function name.now) arguments) }
{
    let kind = type_of(alloc, signature)?;
    let name = Bytes::from_slice(alloc, name)?;
    let function = Boxed::new(alloc, CoreExpression::Function(name))?;
    Ok(CoreExpression::Call(kind, function, arguments))
}

/// The operator of a sum that stands at the front, and what follows it.
fn sign(tokens: &[Token]) -> Option<(BinaryOp, &[Token])>
    ensures found { IfSome result (λ found. IsSign tokens.now found.0 found.1.now) }
    ensures none { IfNone result (Nothing (IsSign tokens.now)) }
{
    if let Ok(rest) = word(tokens, b"+") {
        return Some((BinaryOp::Add, rest));
    }
    match word(tokens, b"-") {
        Ok(rest) => Some((BinaryOp::Subtract, rest)),
        Err(_) => None,
    }
}

impl<'a> Names<'a> {
    /// An expression at the front of the tokens, in which so many parentheses may open in one
    /// another, and what follows it.
    #[cycle(expression)]
    pub fn expression<'t>(
        &self,
        room: u32,
        tokens: &'t [Token],
    ) -> Result<(CoreExpression, &'t [Token]), NoMatch>
        ensures { Answers (λ found. found.0) (λ found. found.1.now)
            (IsExpression self.now.functions.now self.now.scope.now room tokens.now) result }
    {
        let (left, rest) = self.sum(room, tokens)?;
        let Ok(behind) = word(rest, b"<") else {
            return Ok((left, rest));
        };
        let (right, rest) = self.sum(room, behind)?;
        let both = binary(self.alloc, BinaryOp::Less, left, right)?;
        Ok((both, rest))
    }

    #[cycle(expression)]
    fn sum<'t>(
        &self,
        room: u32,
        tokens: &'t [Token],
    ) -> Result<(CoreExpression, &'t [Token]), NoMatch>
        ensures { Answers (λ found. found.0) (λ found. found.1.now)
            (IsSum self.now.functions.now self.now.scope.now room tokens.now) result }
    {
        let (mut sofar, mut rest) = self.unit(room, tokens)?;
        while let Some((op, behind)) = sign(rest) {
            let (right, after) = self.unit(room, behind)?;
            sofar = binary(self.alloc, op, sofar, right)?;
            rest = after;
        }
        Ok((sofar, rest))
    }

    #[cycle(expression)]
    fn unit<'t>(
        &self,
        room: u32,
        tokens: &'t [Token],
    ) -> Result<(CoreExpression, &'t [Token]), NoMatch>
        ensures { Answers (λ found. found.0) (λ found. found.1.now)
            (IsUnit self.now.functions.now self.now.scope.now room tokens.now) result }
    {
        if let Ok(inside) = word(tokens, b"(") {
            return self.group(room, inside);
        }
        if let Some((value, rest)) = number(self.alloc, tokens)? {
            return Ok((constant(value), rest));
        }
        let (name, rest) = name(tokens)?;
        if let Ok(_) = word(rest, b"(") {
            return self.value_of_call(room, tokens);
        }
        let Some(variable) = number_of(self.scope, name.text.as_slice()) else {
            return Err(NoMatch::Elsewhere);
        };
        Ok((value_of(self.alloc, variable)?, rest))
    }

    /// What stands behind an opening parenthesis, with the closing one.
    #[cycle(expression)]
    fn group<'t>(
        &self,
        room: u32,
        inside: &'t [Token],
    ) -> Result<(CoreExpression, &'t [Token]), NoMatch>
        ensures { Answers (λ found. found.0) (λ found. found.1.now)
            (IsGroup self.now.functions.now self.now.scope.now room inside.now) result }
    {
        if room == 0 {
            return Err(NoMatch::Elsewhere);
        }
        let (core, middle) = self.expression(room - 1, inside)?;
        let rest = word(middle, b")")?;
        Ok((core, rest))
    }

    /// A call that gives a value.
    #[cycle(expression)]
    fn value_of_call<'t>(
        &self,
        room: u32,
        tokens: &'t [Token],
    ) -> Result<(CoreExpression, &'t [Token]), NoMatch>
        ensures { Answers (λ found. found.0) (λ found. found.1.now)
            (IsValueOfCall self.now.functions.now self.now.scope.now room tokens.now) result }
    {
        let (signature, core, rest) = self.call(room, tokens)?;
        if signature.gives_value {
            Ok((core, rest))
        } else {
            Err(NoMatch::Elsewhere)
        }
    }

    /// A call at the front of the tokens: the function, the core tree, and what follows.
    #[cycle(expression)]
    pub fn call<'t>(
        &self,
        room: u32,
        tokens: &'t [Token],
    ) -> Result<(&'a Signature, CoreExpression, &'t [Token]), NoMatch>
        ensures { Answers {C = signature × expression} (λ found. (found.0.now, found.1)) (λ found. found.2.now)
            (λ what. IsCall self.now.functions.now self.now.scope.now room tokens.now what.0 what.1) result }
    {
        let (name, behind) = name(tokens)?;
        let inside = word(behind, b"(")?;
        let name = name.text.as_slice();
        let Some(signature) = callee(self.functions, self.scope, name) else {
            return Err(NoMatch::Elsewhere);
        };
        if room == 0 {
            return Err(NoMatch::Elsewhere);
        }
        let (arguments, rest) = self.arguments(room - 1, inside)?;
        if arguments.len() != signature.parameters as usize {
            return Err(NoMatch::Elsewhere);
        }
        let core = call_of(self.alloc, signature, name, arguments)?;
        Ok((signature, core, rest))
    }

    /// The arguments of a call, with the closing parenthesis.
    #[cycle(expression)]
    fn arguments<'t>(
        &self,
        room: u32,
        tokens: &'t [Token],
    ) -> Result<(Items<CoreExpression>, &'t [Token]), NoMatch>
        ensures { Answers (λ found. found.0) (λ found. found.1.now)
            (IsArguments self.now.functions.now self.now.scope.now room tokens.now) result }
    {
        if let Ok(rest) = word(tokens, b")") {
            return Ok((Items::new(self.alloc), rest));
        }
        self.list(room, tokens)
    }

    /// One expression or more, with the closing parenthesis.
    #[cycle(expression)]
    fn list<'t>(
        &self,
        room: u32,
        tokens: &'t [Token],
    ) -> Result<(Items<CoreExpression>, &'t [Token]), NoMatch>
        ensures { Answers (λ found. found.0) (λ found. found.1.now)
            (IsList self.now.functions.now self.now.scope.now room tokens.now) result }
    {
        let mut cores = Items::new(self.alloc);
        let mut rest = tokens;
        loop {
            let (core, after) = self.expression(room, rest)?;
            cores.push(core)?;
            if let Ok(end) = word(after, b")") {
                return Ok((cores, end));
            }
            rest = word(after, b",")?;
        }
    }
}
