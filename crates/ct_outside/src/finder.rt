//! Texts by their paths.

ghost use Rattle.std.specs.Prelude.{◌≡◌};
ghost use Rattle.std.specs.Option.{option_copied};
ghost use Rattle.std.specs.FinMap.{get};
ghost use Rattle.ct_outside.specs.Files.{Files};

/// What has the texts of a project.
pub trait Finder {
    /// The texts, by their paths.
    ghost texts: { Self → Files };

    /// The text at a path, and None exactly where there is none.
    fn get(&self, path: &str) -> Option<&[u8]>
        ensures { option_copied result ≡ get (texts self.now) path.now };
}
