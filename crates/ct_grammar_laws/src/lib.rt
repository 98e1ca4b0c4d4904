//! Laws of the grammar and of the machine that reads its words. No code.
#![tactic(auto)]

ghost use Rattle.std.specs.Prelude.{◌≡◌, List, [], ◌++◌};
ghost use Rattle.ct_syntax.specs.Words.{Word};
ghost use Rattle.ct_syntax.specs.Trees.{Item};
ghost use Rattle.ct_syntax.specs.Scopes.{Scope, after_unit};
ghost use Rattle.ct_syntax.specs.Spelling.{spell_unit};
ghost use Rattle.ct_syntax.specs.Units.{SpellsItems, SpellsUnit};

/// At most one tree, apart from places, spells a list of words.
pub fn one_tree()
    ensures { (ws : List Word) (is js : List Item) → SpellsUnit is ws → SpellsUnit js ws → is ≡ js }
{}

/// The same in each scope, as for items that stand behind those of a header.
pub fn one_list()
    ensures { (scope : Scope) (ws : List Word) (is js : List Item) → SpellsItems scope is ws → SpellsItems scope js ws → is ≡ js }
{}

/// A unit that is split in two is a unit by its front, and then its back in the scope that the front leaves.
pub fn split_unit()
    ensures joined { (scope : Scope) (front back : List Item) (us vs : List Word) → SpellsItems scope front us →
        SpellsItems (after_unit scope front) back vs → SpellsItems scope (front ++ back) (us ++ vs) }
    ensures words { (front back : List Item) → spell_unit (front ++ back) [] ≡ spell_unit front [] ++ spell_unit back [] }
    ensures front { (scope : Scope) (front back : List Item) (ws : List Word) → SpellsItems scope (front ++ back) ws →
        SpellsItems scope front (spell_unit front []) }
    ensures back { (scope : Scope) (front back : List Item) (ws : List Word) → SpellsItems scope (front ++ back) ws →
        SpellsItems (after_unit scope front) back (spell_unit back []) }
{}
