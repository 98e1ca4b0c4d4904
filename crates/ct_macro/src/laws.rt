//! What holds of every list of tokens: it has an expansion or a first refusal, and no other.

ghost use Rattle.std.specs.Prelude.{◌≡◌, ℕ, Bool, List, ◌⊎◌};
ghost use Rattle.ct_base.specs.declared.lexical.Token.{Token};
ghost use Rattle.ct_macro_call.specs.declared.definition.Macro.{Macro};
ghost use Rattle.ct_macro.specs.Expansion as spec;
ghost use Rattle.ct_macro.specs.declared.faults.MacroFault as declared;

use ct_macro_call::one_replacement;
use ct_token::{each_text, one_tokenization};

/// A list has one expansion or one first refusal, so `expand` gives that one.
pub fn one_expansion()
    ensures one { (condition : Bool) (macros : List Macro) (tokens a b : List Token) (room m n : ℕ)
        → spec.IsExpansion condition macros tokens room a m → spec.IsExpansion condition macros tokens room b n → (a ≡ b) × (m ≡ n) }
    ensures apart { (condition : Bool) (macros : List Macro) (tokens a : List Token) (room m : ℕ) (fault : declared.MacroFault)
        → spec.IsExpansion condition macros tokens room a m → spec.IsRefusal condition macros tokens room fault → ⊥ }
    ensures refusal { (condition : Bool) (macros : List Macro) (tokens : List Token) (room : ℕ) (one other : declared.MacroFault)
        → spec.IsRefusal condition macros tokens room one → spec.IsRefusal condition macros tokens room other → one ≡ other }
{
    one_replacement();
}

/// Each list of tokens has an expansion, or a first refusal.
pub fn each_list()
    ensures { (condition : Bool) (macros : List Macro) (tokens : List Token) (room : ℕ) →
        ((expanded : List Token) × (counted : ℕ) × spec.IsExpansion condition macros tokens room expanded counted)
        ⊎ ((fault : declared.MacroFault) × spec.IsRefusal condition macros tokens room fault) }
{
    each_text();
    one_tokenization();
}
