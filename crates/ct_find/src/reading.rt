//! The reading of the listed files.

ghost use Rattle.std.specs.Prelude.{◌≡◌, ℕ, ◌≤◌, List, Some, IfOk, OnOk};
ghost use Rattle.std.specs.FinMap.{get};
ghost use Rattle.ct_outside.specs.Files.{Files};
ghost use Rattle.ct_find.specs.Limits.{most_bytes};
ghost use Rattle.ct_find.specs.Results.{FaultsAfter};
ghost use Rattle.ct_find.specs.Rows.{AreSmall, AreThere, ReadsListedFiles, ReadsListedFile, with_text};

use crate::files::FindFault;
use crate::walking::limit;
use ct_base::{Fail, Items, LimitKind, MEBIBYTE, Mem, Out, Text};
use ct_outside::{Finder, Found, Texts, Tree, TreeError};
use std::alloc::Global;

/// The most bytes of a file.
const MOST_FILE_BYTES: u64 = MEBIBYTE as u64;

/// The most bytes of all files that are read.
const MOST_BYTES: u64 = 16777216;

/// Reads a file, so many bytes being read before, and answers how many are read then. One that is
/// not found is left out.
fn read_file<T: Tree>(
    alloc: Global,
    tree: &mut T,
    path: &str,
    read: u64,
    texts: &mut Texts,
) -> Out<u64, FindFault>
    requires { read ≤ most_bytes }
    ensures told { (files : Files) (text : List ℕ) → T.files tree.old ≡ Some files → get files path.now ≡ Some text
        → ReadsListedFile path.now text read texts.old texts.new result }
    ensures few { IfOk result (λ now. now ≤ most_bytes) }
    ensures small { OnOk result (AreSmall texts.old → AreSmall texts.new) }
    ensures same_files { T.files tree.new ≡ T.files tree.old }
    ensures faults { FaultsAfter result (T.read_faults tree.old) (T.read_faults tree.new) }
    ensures write_faults { T.write_faults tree.new ≡ T.write_faults tree.old }
{
    let mut text = Vec::new(alloc);
    match tree.read(alloc, path, MOST_FILE_BYTES, &mut text) {
        Ok(Found::There) => {}
        Ok(Found::Absent) => return Ok(read),
        Ok(Found::TooLarge) => {
            return Err(Fail::Fault(limit(alloc, LimitKind::FileBytes, path)?));
        }
        Err(TreeError::Failed) => return Err(Fail::Fault(FindFault::Read)),
        Err(TreeError::OutOfMemory) => return Err(Fail::OutOfMemory),
    }
    let bytes = text.len() as u64;
    if bytes > MOST_BYTES.saturating_sub(read) {
        return Err(Fail::Fault(limit(alloc, LimitKind::AllBytes, path)?));
    }
    texts.put(path, text.as_slice())?;
    Ok(read + bytes)
}

/// Reads files in this order.
pub fn read_files<T: Tree>(alloc: Global, tree: &mut T, paths: &[Text]) -> Out<Texts, FindFault>
    ensures told { (files : Files) → T.files tree.old ≡ Some files → AreThere files paths.now → ReadsListedFiles files paths.now result }
    ensures small { IfOk result AreSmall }
    ensures same_files { T.files tree.new ≡ T.files tree.old }
    ensures faults { FaultsAfter result (T.read_faults tree.old) (T.read_faults tree.new) }
    ensures write_faults { T.write_faults tree.new ≡ T.write_faults tree.old }
{
    let mut texts = Texts::new(alloc);
    let mut read = 0u64;
    for path in paths {
        match read_file(alloc, tree, path.as_str(), read, &mut texts) {
            Ok(now) => read = now,
            Err(fail) => return Err(fail),
        }
    }
    Ok(texts)
}

/// The paths that have a text.
pub fn with_text(alloc: Global, paths: &[Text], texts: &Texts) -> Mem<Items<Text>>
    ensures { IfOk result (λ kept. kept ≡ with_text texts.now paths.now) }
{
    let mut kept = Items::new(alloc);
    for path in paths {
        if texts.get(path.as_str()).is_some() {
            kept.push(Text::copy_of(alloc, path.as_str())?)?;
        }
    }
    Ok(kept)
}
