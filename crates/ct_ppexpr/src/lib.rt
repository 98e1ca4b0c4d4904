//! The value of a condition of preprocessing (C11 6.10.1).
#![tactic(auto)]

mod laws;
mod machine;
mod open;
mod values;
mod words;

ghost use Rattle.std.specs.Prelude.{◌≡◌, Bool, List, Result};
ghost use Rattle.ct_base.specs.Answers.{OnAnswer};
ghost use Rattle.ct_base.specs.declared.lexical.Token.{Token as token};
ghost use Rattle.ct_ppexpr.specs.Conditions.{answer_of, HasValue};
ghost use Rattle.ct_ppexpr.specs.declared.CondFault.{CondFault as fault};

pub use crate::laws::each_condition;
use crate::machine::evaluate;
use crate::values::{Evaluated, Fault};
use crate::words::read_words;
use ct_base::{Fail, Out, Token};
use std::alloc::Global;
use thiserror::Error;

/// Why a condition has no value.
#[derive(Clone, Copy, Debug, PartialEq, Eq, Error)]
pub enum CondFault {
    /// The tokens are no constant expression: no expression, or a comma is evaluated (C11 6.6p3).
    #[error("no expression")]
    Grammar,
    /// A division by zero (C11 6.5.5p5).
    #[error("a division by zero")]
    DivideByZero,
    /// A signed result outside its type (C11 6.5p5).
    #[error("an overflow")]
    Overflow,
    /// A shift count, or a signed left shift, outside its range (C11 6.5.7).
    #[error("a shift out of range")]
    Shift,
}

/// Whether the condition holds that these tokens are, after expansion (C11 6.10.1). A name counts as
/// 0. All arithmetic is that of the greatest integer types. `Grammar` says that the tokens are no
/// expression, or that the first fault of the parts that are evaluated is a comma; each other fault is
/// the first one of these parts.
pub fn condition(alloc: Global, tokens: &[Token]) -> Out<bool, CondFault>
    ensures { OnAnswer result (HasValue tokens.now) }
{
    let words = read_words(alloc, tokens)?;
    let Some(value) = evaluate(alloc, words.as_slice())? else {
        return Err(Fail::Fault(CondFault::Grammar));
    };
    match answer_to(value.outcome) {
        Ok(holds) => Ok(holds),
        Err(fault) => Err(Fail::Fault(fault)),
    }
}

/// A condition holds where its number is not 0.
fn answer_to(outcome: Evaluated) -> Result<bool, CondFault>
    ensures { result ≡ answer_of outcome }
{
    match outcome {
        Ok(0) => Ok(false),
        Ok(_) => Ok(true),
        Err(Fault::DivideByZero) => Err(CondFault::DivideByZero),
        Err(Fault::Overflow) => Err(CondFault::Overflow),
        Err(Fault::Shift) => Err(CondFault::Shift),
        Err(Fault::Comma) => Err(CondFault::Grammar),
    }
}

/// The tokens of a condition have one value, or one reason why they have none.
pub fn one_condition()
    ensures { (tokens : List token) (a b : Result Bool fault) → HasValue tokens a → HasValue tokens b → a ≡ b }
{}
