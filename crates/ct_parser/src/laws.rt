//! Laws of the grammar, and of what is left out of the language.

ghost use Rattle.std.specs.Prelude.{◌≡◌, ℕ, List, ◌++◌, ◌∷◌};
ghost use Rattle.ct_base.specs.declared.lexical.Token.{Token};
ghost use Rattle.ct_syntax.specs.Words.{words};
ghost use Rattle.ct_syntax.specs.Trees.{Item};
ghost use Rattle.ct_syntax.specs.Units.{SpellsUnit, Unspelled};
ghost use Rattle.ct_parser.specs.Unsupported.{IsFirst};

/// Where a declaration that no tree spells begins, no tree spells the whole.
pub fn no_tree()
    ensures { (before after : List Token) (token : Token) → Unspelled before token after →
        (is : List Item) → SpellsUnit is (words (before ++ token ∷ after)) → ⊥ }
{}

/// There is at most one place where such a declaration begins: the tokens before one are those before the other.
pub fn one_unspelled()
    ensures { (before after before' after' : List Token) (token token' : Token) →
        before ++ token ∷ after ≡ before' ++ token' ∷ after' →
        Unspelled before token after → Unspelled before' token' after' → words before ≡ words before' }
{}

/// Tokens have one first token that is left out, or none, so `unsupported` gives the place of that one.
pub fn one_first()
    ensures { (tokens : List Token) (a b : ℕ) → IsFirst tokens a → IsFirst tokens b → a ≡ b }
{}
