//! Parts of statements and declarations.

ghost use Rattle.std.specs.Prelude.{◌≡◌, [], ◌∷◌, Option, IfOk, codes, false, pos};
ghost use Rattle.ct_core.specs.declared.trees.CoreExpression.{CoreExpression as expression};
ghost use Rattle.ct_core.specs.declared.trees.CoreExpression.TheVariants as core;
ghost use Rattle.ct_ctype.specs.declared.kinds.IntKind.TheVariants as kind;
ghost use Rattle.ct_form.specs.Answers.{Answers};
ghost use Rattle.ct_form.specs.Names.{assertion_type as type_of_assertion, int_type};
ghost use Rattle.ct_form.specs.Statements.{IsPair, IsStart, IsTest, assertion_core as core_of_assertion};

use crate::expressions::Names;
use crate::names::Binding;
use crate::words::{NoMatch, word};
use ct_base::{Bytes, Items, Mem, Token};
use ct_core::{CoreExpression, Mark, Variable};
use ct_ctype::{CType, FunctionType, IntKind};
use sqlite_items::Boxed;
use std::alloc::Global;

/// How many parentheses may open in one another.
pub const PARENTHESES: u32 = 64;

impl<'a> Names<'a> {
    /// `( expr )` at the front of the tokens, and what follows it.
    pub fn test<'t>(&self, tokens: &'t [Token]) -> Result<(CoreExpression, &'t [Token]), NoMatch>
        ensures { Answers (λ found. found.0) (λ found. found.1.now)
            (IsTest self.now.functions.now self.now.scope.now tokens.now) result }
    {
        let inside = word(tokens, b"(")?;
        let (test, rest) = self.expression(PARENTHESES - 1, inside)?;
        let rest = word(rest, b")")?;
        Ok((test, rest))
    }

    /// The initialiser of a declaration at the front of the tokens, where one stands there, and
    /// what follows it.
    pub fn start<'t>(
        &self,
        tokens: &'t [Token],
    ) -> Result<(Option<CoreExpression>, &'t [Token]), NoMatch>
        ensures { Answers {C = Option expression} (λ found. found.0) (λ found. found.1.now)
            (IsStart self.now.functions.now self.now.scope.now tokens.now) result }
    {
        let Ok(behind) = word(tokens, b"=") else {
            return Ok((None, tokens));
        };
        let (core, rest) = self.expression(PARENTHESES, behind)?;
        Ok((Some(core), rest))
    }

    /// `( expr , expr )` at the front of the tokens, and what follows it.
    pub fn pair<'t>(
        &self,
        tokens: &'t [Token],
    ) -> Result<(CoreExpression, CoreExpression, &'t [Token]), NoMatch>
        ensures { Answers {C = expression × expression} (λ found. (found.0, found.1)) (λ found. found.2.now)
            (λ both. IsPair self.now.functions.now self.now.scope.now tokens.now both.0 both.1) result }
    {
        let inside = word(tokens, b"(")?;
        let (first, rest) = self.expression(PARENTHESES - 1, inside)?;
        let behind = word(rest, b",")?;
        let (second, rest) = self.expression(PARENTHESES - 1, behind)?;
        let rest = word(rest, b")")?;
        Ok((first, second, rest))
    }
}

/// `void (unsigned int, long long, long long)`
fn assertion_type(alloc: Global) -> Mem<FunctionType>
    ensures { IfOk result (λ kind. kind ≡ type_of_assertion) }
{
    let mut parameters = Items::new(alloc);
    parameters.push(CType::Int(IntKind::UnsignedInt))?;
    parameters.push(CType::Int(IntKind::LongLong))?;
    parameters.push(CType::Int(IntKind::LongLong))?;
    Ok(FunctionType {
        result: CType::Void,
        parameters,
        variadic: false,
    })
}

/// The arguments of the assertion: the line of its name, and the two numbers.
fn assertion_arguments(
    alloc: Global,
    line: u32,
    expected: CoreExpression,
    actual: CoreExpression,
) -> Mem<Items<CoreExpression>>
    ensures { IfOk result (λ arguments. arguments ≡ core.Constant kind.UnsignedInt (pos line)
        ∷ core.Convert kind.LongLong expected ∷ core.Convert kind.LongLong actual ∷ []) }
{
    let expected = Boxed::new(alloc, expected)?;
    let actual = Boxed::new(alloc, actual)?;
    let mut arguments = Items::new(alloc);
    arguments.push(CoreExpression::Constant(IntKind::UnsignedInt, i128::from(line)))?;
    arguments.push(CoreExpression::Convert(IntKind::LongLong, expected))?;
    arguments.push(CoreExpression::Convert(IntKind::LongLong, actual))?;
    Ok(arguments)
}

/// The function that the assertion calls.
fn assertion_function(alloc: Global) -> Mem<CoreExpression>
    ensures { IfOk result (λ function. function ≡ core.Function (codes "ceedling_assert_TEST_ASSERT_EQUAL_INT")) }
{
    let name = Bytes::from_slice(alloc, b"ceedling_assert_TEST_ASSERT_EQUAL_INT")?;
    Ok(CoreExpression::Function(name))
}

/// The call that the assertion with this mark stands for.
pub fn assertion_core(
    alloc: Global,
    mark: Mark,
    expected: CoreExpression,
    actual: CoreExpression,
) -> Mem<CoreExpression>
    ensures { IfOk result (λ call. call ≡ core_of_assertion mark expected actual) }
{
    let kind = assertion_type(alloc)?;
    let function = Boxed::new(alloc, assertion_function(alloc)?)?;
    let arguments = assertion_arguments(alloc, mark.span.line, expected, actual)?;
    Ok(CoreExpression::Call(kind, function, arguments))
}

/// A variable of type `int` of this name.
pub fn variable_of(alloc: Global, name: &Token) -> Mem<Variable>
    ensures { IfOk result (λ variable. variable ≡ record { name = name.now.text; kind = int_type; constant = false; span = name.now.span }) }
{
    Ok(Variable {
        name: Bytes::from_slice(alloc, name.text.as_slice())?,
        kind: CType::Int(IntKind::Int),
        constant: false,
        span: name.span,
    })
}

/// The declaration in a scope of this name for the variable of this number.
pub fn binding_of(alloc: Global, name: &Token, number: u32) -> Mem<Binding>
    ensures { IfOk result (λ binding. binding ≡ record { name = name.now.text; number = number }) }
{
    Ok(Binding {
        name: Bytes::from_slice(alloc, name.text.as_slice())?,
        number,
    })
}
