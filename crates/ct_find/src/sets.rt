//! Sets of paths as sorted lists.

ghost use Rattle.std.specs.Prelude.{◌≡◌, IfOk};
ghost use Rattle.std.specs.List.{Contains};
ghost use Rattle.ct_find.specs.Rows.{texts_of};
ghost use Rattle.ct_find.specs.Sets.{AreSorted};

use ct_base::{Items, Mem, Text};
use std::alloc::Global;

/// The paths, each once, sorted by their bytes.
pub fn sorted_once(alloc: Global, paths: Vec<String>) -> Mem<Items<Text>>
    ensures { IfOk result (λ sorted. AreSorted (Contains (texts_of paths.items)) sorted) }
{
    let mut paths = paths;
    paths.sort()?;
    paths.dedup();
    as_texts(alloc, paths)
}

fn as_texts(alloc: Global, paths: Vec<String>) -> Mem<Items<Text>>
    ensures { IfOk result (λ texts. texts ≡ texts_of paths.items) }
{
    let mut texts = Items::new(alloc);
    for path in paths {
        texts.push(Text::new(path))?;
    }
    Ok(texts)
}
