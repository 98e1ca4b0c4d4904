//! The law that each condition has an answer.

ghost use Rattle.std.specs.Prelude.{Bool, List, Result};
ghost use Rattle.ct_base.specs.declared.lexical.Token.{Token};
ghost use Rattle.ct_ppexpr.specs.Conditions.{HasValue};
ghost use Rattle.ct_ppexpr.specs.declared.CondFault.{CondFault};

use ct_token::each_decoding;

/// The tokens of a condition have a value, or a reason why they have none.
pub fn each_condition()
    ensures { (tokens : List Token) → (answer : Result Bool CondFault) × HasValue tokens answer }
{
    each_decoding();
}
