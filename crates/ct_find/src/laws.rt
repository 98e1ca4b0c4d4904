//! Laws of the search.

ghost use Rattle.std.specs.Prelude.{◌≡◌, ℕ, List};
ghost use Rattle.ct_base.specs.declared.limits.LimitKind.{LimitKind};
ghost use Rattle.ct_find.specs.Order.{IsOrder};
ghost use Rattle.ct_find.specs.Results.{IsFound, Passes, Stays};
ghost use Rattle.ct_find.specs.declared.files.Files.{Files as Found};
ghost use Rattle.ct_outside.specs.Files.{Files};
ghost use Rattle.ct_settings.specs.declared.record.ProjectSettings.{ProjectSettings};

/// A search passes one limit at most, at one file or folder; where none is passed, it passes none; and
/// what is found is one thing: one list of tests, of sources, of headers and of folders, and the texts.
pub fn one_finding()
    ensures limit { (settings : ProjectSettings) (files : Files) (kind other : LimitKind) (path place : List ℕ)
        → Passes settings files kind path → Passes settings files other place → (kind ≡ other) × (path ≡ place) }
    ensures apart { (settings : ProjectSettings) (files : Files) (kind : LimitKind) (path : List ℕ)
        → Stays settings files → Passes settings files kind path → ⊥ }
    ensures found { (settings : ProjectSettings) (files : Files) (found other : Found)
        → IsFound settings files found → IsFound settings files other → found ≡ other }
{}

/// Each project has one order of listing.
pub fn one_order()
    ensures some { (settings : ProjectSettings) (files : Files) → (folders : List (List ℕ)) × IsOrder settings files folders }
    ensures one { (settings : ProjectSettings) (files : Files) (folders others : List (List ℕ))
        → IsOrder settings files folders → IsOrder settings files others → folders ≡ others }
{}
