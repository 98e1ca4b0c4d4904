//! The laws of the unit of a file.

ghost use Rattle.std.specs.Prelude.{◌≡◌, ℕ, Bool, List, Result, Some};
ghost use Rattle.std.specs.FinMap.{get};
ghost use Rattle.ct_directive.specs.Headers.{BuiltIn};
ghost use Rattle.ct_directive.specs.declared.faults.PreFault.{PreFault};
ghost use Rattle.ct_directive.specs.declared.heads.Heads.{Heads};
ghost use Rattle.ct_outside.specs.Files.{Files};
ghost use Rattle.ct_preproc.specs.Units.{IsPreprocessedUnit};
ghost use Rattle.ct_preproc.specs.declared.units.SourceUnit.{SourceUnit};
ghost use Rattle.ct_settings.specs.declared.record.Define.{Define};

use ct_directive::{each_meaning, each_outline, one_outline};
use ct_macro::{each_list, one_expansion};
use ct_ppexpr::{each_condition, one_condition};
use ct_token::{each_text, one_open_comment, one_tokenization};

/// A file has one unit or one first refusal, so `unit` gives that one.
pub fn one_unit()
    ensures one { (files : Files) (folders : List (List ℕ)) (heads : Heads) (headers : List BuiltIn) (defines : List Define) (path : List ℕ) (tool : Bool)
        (a b : Result SourceUnit PreFault) → IsPreprocessedUnit files folders heads headers defines path tool a
        → IsPreprocessedUnit files folders heads headers defines path tool b → a ≡ b }
{
    one_tokenization();
    one_open_comment();
    one_outline();
    one_expansion();
    one_condition();
}

/// A file that is there has a unit or a first refusal.
pub fn each_unit()
    ensures { (files : Files) (folders : List (List ℕ)) (heads : Heads) (headers : List BuiltIn) (defines : List Define) (path text : List ℕ) (tool : Bool)
        → get files path ≡ Some text → (answer : Result SourceUnit PreFault) × IsPreprocessedUnit files folders heads headers defines path tool answer }
{
    each_text();
    each_list();
    each_condition();
    each_outline();
    each_meaning();
}
