//! The direct entries of a folder of files in memory.

ghost use Rattle.std.specs.Prelude.{◌≡◌, ◌⊎◌, ◌↔◌, Some, IfOk, IfErr, OnOk, OnErr, IsTrue};
ghost use Rattle.std.specs.Option.{option_copied};
ghost use Rattle.std.specs.List.{Contains, before_first, list_any};
ghost use Rattle.ct_outside.specs.Files.{EachOnce, IsListing, Leaves, ListsFolder, entry_at, is_slash, rest_below};
ghost use Rattle.ct_outside.specs.Stored.{files_of};
ghost use Rattle.ct_outside.specs.declared.tree.Entry.{Entry};

use crate::stored::StoredFile;
use crate::tree::{Entry, Found, TreeError};
use ct_base::{Mem, Text};
use std::alloc::Global;

/// Appends the direct entries of a folder.
pub fn append_entries(
    alloc: Global,
    files: &[StoredFile],
    folder: &str,
    into: &mut Vec<Entry>,
) -> Result<Found, TreeError>
    ensures told { IfOk result (λ found.
        ListsFolder (files_of files.now) folder.now found into.old.items into.new.items) }
    ensures left { Leaves result into.old.items into.new.items }
    ensures kept { OnErr result (into.new.items ≡ into.old.items) }
    ensures memory { IfErr result (λ error. error ≡ TreeError.OutOfMemory) }
{
    let mut entries = entries_of(alloc, files, folder)?;
    if entries.is_empty() {
        return Ok(Found::Absent);
    }
    into.append(&mut entries)?;
    Ok(Found::There)
}

/// The direct entries of a folder, in the order of their first files.
fn entries_of(alloc: Global, files: &[StoredFile], folder: &str) -> Mem<Vec<Entry>>
    ensures { IfOk result (λ entries. IsListing (files_of files.now) folder.now entries.items) }
{
    let mut entries = Vec::new(alloc);
    for file in files {
        add_entry(alloc, folder, file.path.as_str(), &mut entries)?;
    }
    Ok(entries)
}

/// Adds the entry of the folder under which a path lies, where there is one that is not there yet.
fn add_entry(alloc: Global, folder: &str, path: &str, entries: &mut Vec<Entry>) -> Mem<()>
    ensures each { OnOk result ((entry : Entry) → Contains entries.new.items entry
        ↔ (Contains entries.old.items entry ⊎ (entry_at folder.now path.now ≡ Some entry))) }
    ensures once { OnOk result (EachOnce entries.old.items → EachOnce entries.new.items) }
{
    let Some(rest) = rest_below(folder, path) else {
        return Ok(());
    };
    let (name, folder) = first_name(rest);
    if has_entry(entries, name, folder) {
        return Ok(());
    }
    let name = Text::copy_of(alloc, name)?;
    entries.push(Entry { name, folder })?;
    Ok(())
}

fn has_entry(entries: &[Entry], name: &str, folder: bool) -> bool
    ensures { IsTrue result ↔ Contains entries.now (record { name = name.now; folder = folder }) }
{
    entries.iter().any(|entry| entry.folder == folder && entry.name.as_str() == name)
}

/// The rest of a path that lies below a folder, and None exactly where it lies elsewhere.
pub fn rest_below<'a>(folder: &str, path: &'a str) -> Option<&'a str>
    ensures { option_copied result ≡ rest_below folder.now path.now }
{
    if folder.is_empty() {
        return Some(path);
    }
    path.strip_prefix(folder)?.strip_prefix('/')
}

/// The first component of a path, and whether more follow.
fn first_name(path: &str) -> (&str, bool)
    ensures name { result.0.now ≡ before_first is_slash path.now }
    ensures folder { result.1 ≡ list_any is_slash path.now }
{
    match path.split_once('/') {
        Some((name, _)) => (name, true),
        None => (path, false),
    }
}
