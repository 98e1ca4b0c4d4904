//! What a search finds.

ghost use Rattle.ct_find.specs.declared.files.FindFault.TheVariants.{Read};

use ct_base::{Fail, Items, LimitKind, Out, Text};
use ct_outside::{Finder, Texts, TreeError};

/// The files of a project: its lists are sorted by the bytes of the paths.
#[derive(Debug, Drop)]
pub struct Files {
    /// The test files.
    pub tests: Items<Text>,
    /// The other `.c` files of source and support folders.
    pub sources: Items<Text>,
    /// The `.h` files.
    pub headers: Items<Text>,
    /// The folders in which an include is searched, in this order.
    pub folders: Items<Text>,
    /// The text of each listed file.
    pub texts: Texts,
}

impl Finder for Files {
    ghost use Rattle.std.specs.Prelude.{◌≡◌};
    ghost use Rattle.std.specs.Option.{option_copied};
    ghost use Rattle.std.specs.FinMap.{get};

    ghost texts = { λ files. files.texts };

    fn get(&self, path: &str) -> Option<&[u8]> {
        self.texts.get(path)
    }
}

/// Why a search ended without files.
#[derive(Debug, Drop)]
pub enum FindFault {
    /// A list or a read of the tree failed.
    Read,
    /// A limit is passed: which one, and at which file or folder.
    Limit { kind: LimitKind, path: Text },
}
