//! Laws of the groups of a file: which lines stand in which group of which conditional (C11 6.10). The code reads a file line by
//! line; these laws say that its outline by groups is there, and is one.

ghost use Rattle.std.specs.Prelude.{◌≡◌, ℕ, List, Option};
ghost use Rattle.ct_base.specs.declared.lexical.Token.{Token};
ghost use Rattle.ct_directive.specs.Groups.{Group, IsOutline};

/// Lines have an outline by groups, whether their conditionals are balanced or not.
pub fn each_outline()
    ensures { (lines : List (List Token)) → (group : Group) × (broken : Option ℕ) × IsOutline lines group broken }
{}

/// Lines have one outline alone.
pub fn one_outline()
    ensures group { (lines : List (List Token)) (a b : Group) (first second : Option ℕ) → IsOutline lines a first → IsOutline lines b second → a ≡ b }
    ensures broken { (lines : List (List Token)) (a b : Group) (first second : Option ℕ) → IsOutline lines a first → IsOutline lines b second → first ≡ second }
{}
