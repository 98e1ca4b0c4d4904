//! Which files of the listed folders stand in the lists.

ghost use Rattle.std.specs.Prelude.{◌≡◌, ℕ, ◌↔◌, ◌⊎◌, false, List, [], Some, IfOk, IsTrue, OnOk};
ghost use Rattle.std.specs.List.{Contains};
ghost use Rattle.ct_find.specs.Folders.{IsAdded, IsRemoved};
ghost use Rattle.ct_find.specs.Rows.{AreGroups, AreSearched, HaveGroups, IsMatched, IsMatchedRow, IsPicked, IsPickedBy, kind_of, texts_of};
ghost use Rattle.ct_find.specs.Sets.{AreSorted};

use crate::rows::Row;
use crate::sets::sorted_once;
use crate::walking::inside;
use ct_base::{Items, Mem, Text};
use ct_outside::{Entry, matches};
use ct_settings::{Pattern, ProjectSettings};
use std::alloc::Global;

/// A list of files.
#[derive(Clone, Copy, Debug, PartialEq, Eq)]
pub enum Kind {
    Test,
    Source,
    Header,
}

/// The groups of a folder.
#[derive(Clone, Copy, Debug, PartialEq, Eq)]
pub struct Groups {
    pub test: bool,
    pub source: bool,
    pub include: bool,
    pub support: bool,
}

/// Whether some adding pattern matches a folder.
fn is_added(patterns: &[Pattern], folder: &str) -> bool
    ensures { IsTrue result ↔ IsAdded patterns.now folder.now }
{
    for pattern in patterns {
        if pattern.add && matches(pattern.path.as_str(), folder) {
            return true;
        }
    }
    false
}

/// Whether some removing pattern matches a folder.
fn is_removed(patterns: &[Pattern], folder: &str) -> bool
    ensures { IsTrue result ↔ IsRemoved patterns.now folder.now }
{
    for pattern in patterns {
        if !pattern.add && matches(pattern.path.as_str(), folder) {
            return true;
        }
    }
    false
}

/// Whether the patterns of a group match a folder.
fn is_matched(patterns: &[Pattern], folder: &str) -> bool
    ensures { IsTrue result ↔ IsMatched patterns.now folder.now }
{
    is_added(patterns, folder) && !is_removed(patterns, folder)
}

/// The groups of a folder.
fn groups_of(settings: &ProjectSettings, folder: &str) -> Groups
    ensures { AreGroups settings.now folder.now result }
{
    Groups {
        test: is_matched(settings.test.as_slice(), folder),
        source: is_matched(settings.source.as_slice(), folder),
        include: is_matched(settings.include.as_slice(), folder),
        support: is_matched(settings.support.as_slice(), folder),
    }
}

/// The list in which a file of these groups stands.
fn kind_of(groups: Groups, prefix: &str, name: &str) -> Option<Kind>
    ensures { result ≡ kind_of groups.test groups.source groups.include groups.support prefix.now name.now }
{
    let name = name.as_bytes();
    if groups.test && name.starts_with(prefix.as_bytes()) && name.ends_with(b".c") {
        return Some(Kind::Test);
    }
    if (groups.source || groups.support) && name.ends_with(b".c") {
        return Some(Kind::Source);
    }
    let searched = (groups.include || groups.source) || (groups.test || groups.support);
    if searched && name.ends_with(b".h") {
        return Some(Kind::Header);
    }
    None
}

/// Whether an entry is a file that stands in a list.
fn is_picked(entry: &Entry, groups: Groups, prefix: &str, kind: Kind) -> bool
    ensures { IsTrue result ↔ ((entry.now.folder ≡ false)
        × (kind_of groups.test groups.source groups.include groups.support prefix.now entry.now.name ≡ Some kind)) }
{
    if entry.folder {
        return false;
    }
    match kind_of(groups, prefix, entry.name.as_str()) {
        Some(found) => found == kind,
        None => false,
    }
}

/// Appends the paths of the files of a listed folder that stand in a list.
fn add_files(
    alloc: Global,
    row: &Row,
    groups: Groups,
    settings: &ProjectSettings,
    kind: Kind,
    into: &mut Vec<String>,
) -> Mem<()>
    ensures { OnOk result ((path : List ℕ) → Contains (texts_of into.new.items) path
        ↔ (Contains (texts_of into.old.items) path ⊎ IsPickedBy settings.now kind groups row.now.folder row.now.entries path)) }
{
    for entry in row.entries.as_slice() {
        if is_picked(entry, groups, settings.test_prefix.as_str(), kind) {
            into.push(inside(alloc, row.folder.as_str(), entry.name.as_str())?)?;
        }
    }
    Ok(())
}

/// The files of a list, sorted.
pub fn files_of(
    alloc: Global,
    rows: &[Row],
    settings: &ProjectSettings,
    kind: Kind,
) -> Mem<Items<Text>>
    ensures files { IfOk result (λ paths. AreSorted (IsPicked rows.now settings.now kind) paths) }
    ensures groups { OnOk result (HaveGroups settings.now rows.now) }
{
    let mut paths = Vec::new(alloc);
    for row in rows {
        let groups = groups_of(settings, row.folder.as_str());
        add_files(alloc, row, groups, settings, kind, &mut paths)?;
    }
    sorted_once(alloc, paths)
}

/// Whether something stands in a listed folder, and the patterns of a group match it.
fn is_matched_row(patterns: &[Pattern], row: &Row) -> bool
    ensures { IsTrue result ↔ ((row.now.entries ≡ [] → ⊥) × IsMatched patterns.now row.now.folder) }
{
    !row.entries.is_empty() && is_matched(patterns, row.folder.as_str())
}

/// The listed folders of a group, sorted.
fn folders_of(alloc: Global, rows: &[Row], patterns: &[Pattern]) -> Mem<Items<Text>>
    ensures { IfOk result (λ folders. AreSorted (IsMatchedRow rows.now patterns.now) folders) }
{
    let mut paths = Vec::new(alloc);
    for row in rows {
        if is_matched_row(patterns, row) {
            paths.push(String::from_str(alloc, row.folder.as_str())?)?;
        }
    }
    sorted_once(alloc, paths)
}

/// The folders in which an include is searched: the include, source, test and support folders,
/// each group sorted.
pub fn include_path(alloc: Global, rows: &[Row], settings: &ProjectSettings) -> Mem<Items<Text>>
    ensures { IfOk result (λ folders. AreSearched settings.now rows.now folders) }
{
    let mut folders = folders_of(alloc, rows, settings.include.as_slice())?;
    folders.append(folders_of(alloc, rows, settings.source.as_slice())?)?;
    folders.append(folders_of(alloc, rows, settings.test.as_slice())?)?;
    folders.append(folders_of(alloc, rows, settings.support.as_slice())?)?;
    Ok(folders)
}
