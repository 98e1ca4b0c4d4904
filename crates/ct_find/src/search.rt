//! The search.

ghost use Rattle.std.specs.Prelude.{◌≡◌, ◌++◌, ◌≤◌, Some, IfOk, OnOk, length, reverse};
ghost use Rattle.ct_outside.specs.Files.{Files as OutsideFiles};
ghost use Rattle.ct_find.specs.Finding.{CountTells, FindsListed, HaveTexts};
ghost use Rattle.ct_find.specs.Limits.{most_files};
ghost use Rattle.ct_find.specs.Order.{IsWhole};
ghost use Rattle.ct_find.specs.Results.{FaultsAfter, Finds};
ghost use Rattle.ct_find.specs.Rows.{AreLists, AreSmall, IsInLists, texts_of};
ghost use Rattle.ct_find.specs.Sets.{AreSorted};

use crate::files::{Files, FindFault};
use crate::groups::starts;
use crate::picking::{Kind, files_of, include_path};
use crate::reading::{read_files, with_text};
use crate::rows::Row;
use crate::sets::sorted_once;
use crate::starts::Start;
use crate::walking::{limit, walk};
use ct_base::{Fail, Items, LimitKind, Mem, Out, Text};
use ct_outside::Tree;
use ct_settings::ProjectSettings;
use std::alloc::Global;

/// The most files of a project.
const MOST_FILES: usize = 2000;

/// The three lists, before their files are read.
#[derive(Debug, Drop)]
struct FileLists {
    tests: Items<Text>,
    sources: Items<Text>,
    headers: Items<Text>,
    folders: Items<Text>,
}

/// The lists of the listed folders.
fn lists_of(alloc: Global, rows: &[Row], settings: &ProjectSettings) -> Mem<FileLists>
    ensures { IfOk result (AreLists settings.now rows.now) }
{
    Ok(FileLists {
        tests: files_of(alloc, rows, settings, Kind::Test)?,
        sources: files_of(alloc, rows, settings, Kind::Source)?,
        headers: files_of(alloc, rows, settings, Kind::Header)?,
        folders: include_path(alloc, rows, settings)?,
    })
}

fn add_paths(alloc: Global, paths: &[Text], into: &mut Vec<String>) -> Mem<()>
    ensures { OnOk result (texts_of into.new.items ≡ texts_of into.old.items ++ paths.now) }
{
    for path in paths {
        into.push(String::from_str(alloc, path.as_str())?)?;
    }
    Ok(())
}

/// The paths of the three lists, each once, sorted.
fn all_paths(alloc: Global, lists: &FileLists) -> Mem<Items<Text>>
    ensures { IfOk result (λ paths. AreSorted (IsInLists lists.now) paths) }
{
    let mut paths = Vec::new(alloc);
    add_paths(alloc, lists.tests.as_slice(), &mut paths)?;
    add_paths(alloc, lists.sources.as_slice(), &mut paths)?;
    add_paths(alloc, lists.headers.as_slice(), &mut paths)?;
    sorted_once(alloc, paths)
}

/// The starts of all groups, the next of which is the last of the list.
fn left_starts(alloc: Global, settings: &ProjectSettings) -> Mem<Vec<Start>>
    ensures { IfOk result (λ left. IsWhole settings.now (reverse left.items)) }
{
    let mut left = starts(alloc, settings)?;
    left.reverse();
    Ok(left)
}

/// Refuses more paths than a project may have.
fn check_count(alloc: Global, paths: &[Text]) -> Out<(), FindFault>
    ensures ok { OnOk result (length paths.now ≤ most_files) }
    ensures limit { CountTells paths.now result }
{
    match paths.get(MOST_FILES) {
        None => Ok(()),
        Some(path) => Err(Fail::Fault(limit(alloc, LimitKind::Files, path.as_str())?)),
    }
}

/// The search, whose answer is told by the folders that it listed.
fn find_listed<T: Tree>(
    alloc: Global,
    tree: &mut T,
    settings: &ProjectSettings,
) -> Out<Files, FindFault>
    ensures told { (files : OutsideFiles) → T.files tree.old ≡ Some files → FindsListed settings.now files result }
    ensures small { IfOk result (λ found. AreSmall found.texts) }
    ensures texts { IfOk result (λ found. HaveTexts found) }
    ensures same_files { T.files tree.new ≡ T.files tree.old }
    ensures faults { FaultsAfter result (T.read_faults tree.old) (T.read_faults tree.new) }
    ensures write_faults { T.write_faults tree.new ≡ T.write_faults tree.old }
{
    let left = left_starts(alloc, settings)?;
    let listing = match walk(alloc, tree, settings.build_root.as_str(), left) {
        Ok(listing) => listing,
        Err(fail) => return Err(fail),
    };
    let lists = lists_of(alloc, listing.rows.as_slice(), settings)?;
    let paths = all_paths(alloc, &lists)?;
    if let Err(fail) = check_count(alloc, paths.as_slice()) {
        return Err(fail);
    }
    let texts = match read_files(alloc, tree, paths.as_slice()) {
        Ok(texts) => texts,
        Err(fail) => return Err(fail),
    };
    Ok(Files {
        tests: with_text(alloc, lists.tests.as_slice(), &texts)?,
        sources: with_text(alloc, lists.sources.as_slice(), &texts)?,
        headers: with_text(alloc, lists.headers.as_slice(), &texts)?,
        folders: lists.folders,
        texts,
    })
}

/// Finds the files of a project: lists its folders and reads its files. A file that is listed and
/// that a read does not find is left out of the lists.
///
/// # Errors
///
/// `Read` where a list or a read failed, and `Limit` for the first limit that is passed: those of
/// listing, then the number of files, then those of reading.
pub fn find<T: Tree>(
    alloc: Global,
    tree: &mut T,
    settings: &ProjectSettings,
) -> Out<Files, FindFault>
    ensures told { (files : OutsideFiles) → T.files tree.old ≡ Some files → Finds settings.now files result }
    ensures small { IfOk result (λ found. AreSmall found.texts) }
    ensures texts { IfOk result (λ found. HaveTexts found) }
    ensures same_files { T.files tree.new ≡ T.files tree.old }
    ensures faults { FaultsAfter result (T.read_faults tree.old) (T.read_faults tree.new) }
    ensures write_faults { T.write_faults tree.new ≡ T.write_faults tree.old }
{
    find_listed(alloc, tree, settings)
}
