//! The law of header names.

ghost use Rattle.std.specs.Prelude.{ℕ, List, Option};
ghost use Rattle.ct_outside.specs.Files.{Files};
ghost use Rattle.ct_directive.specs.declared.forms.Header.{Header};
ghost use Rattle.ct_directive.specs.declared.heads.Heads.{Heads};
ghost use Rattle.ct_directive.specs.declared.search.Target.{Target};
ghost use Rattle.ct_directive.specs.Headers.{BuiltIn};
ghost use Rattle.ct_directive.specs.Search.{Means};

/// Each header name means a text or nothing in each file, over all files, folders, mock heads and built-in headers.
pub fn each_meaning()
    ensures { (files : Files) (folders : List (List ℕ)) (heads : Heads) (headers : List BuiltIn) (path : List ℕ) (header : Header)
        → (target : Option Target) × Means files folders heads headers path header target }
{}
