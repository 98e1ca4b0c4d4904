//! Laws of the form.

ghost use Rattle.std.specs.Prelude.{◌≡◌, ℕ, List, Result};
ghost use Rattle.ct_base.specs.declared.lexical.Token.{Token};
ghost use Rattle.ct_core.specs.declared.units.CoreUnit.{CoreUnit};
ghost use Rattle.ct_form.specs.declared.outside.Outside.{Outside};
ghost use Rattle.ct_form.specs.Form.{HasForm};

/// Tokens have one form: one core unit, or one first token outside the form.
#[tactic(auto, using(crate::proofs::OneFile::one_form))]
pub fn one_form()
    ensures { (path : List ℕ) (tokens : List Token) (a b : Result CoreUnit Outside) →
        HasForm path tokens a → HasForm path tokens b → a ≡ b }
{}
