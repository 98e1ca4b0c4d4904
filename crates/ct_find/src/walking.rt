//! The listing of folders.

ghost use Rattle.std.specs.Prelude.{◌≡◌, ◌+◌, ◌<◌, ◌≤◌, ◌++◌, Some, IfOk, IsTrue, OnOk, length, reverse, slice_get, slice_index_or, string_bytes};
ghost use Rattle.std.specs.List.{list_any};
ghost use Rattle.ct_outside.specs.Files.{Files, is_slash};
ghost use Rattle.ct_find.specs.declared.files.FindFault.TheVariants.{Limit as limit_fault};
ghost use Rattle.ct_find.specs.Places.{StandsAt};
ghost use Rattle.ct_find.specs.declared.rows.Row.{Row};
ghost use Rattle.ct_find.specs.Folders.{is_at_or_below};
ghost use Rattle.ct_find.specs.Limits.{depth_of, most_entries};
ghost use Rattle.ct_find.specs.Order.{deep_starts, inside};
ghost use Rattle.ct_find.specs.Results.{FaultsAfter};
ghost use Rattle.ct_find.specs.Rows.{AddsChildren, AddsRow, IsListedRow, IsRowChild, ListsNext, VisitTells, Visits, WalkTells, is_child};
ghost use Rattle.ct_find.specs.Sets.{AreSorted};

use crate::files::FindFault;
use crate::rows::{Row, Rows};
use crate::sets::sorted_once;
use crate::starts::Start;
use ct_base::{Fail, Items, LimitKind, Mem, Out, Text};
use ct_outside::{Entry, Tree, TreeError, first_component, rest_below};
use std::alloc::Global;

/// The most entries that may be listed.
const MOST_ENTRIES: usize = 20000;

/// The most components of a folder.
const MOST_COMPONENTS: usize = 32;

/// The folders that were listed, in this order, and how many entries they have.
#[derive(Debug, Drop)]
pub struct Listing {
    pub rows: Rows,
    pub entries: usize,
}

/// A limit that is passed at a file or a folder.
pub fn limit(alloc: Global, kind: LimitKind, path: &str) -> Mem<FindFault>
    ensures { IfOk result (λ fault. fault ≡ limit_fault kind path.now) }
{
    let path = Text::copy_of(alloc, path)?;
    Ok(FindFault::Limit { kind, path })
}

/// How many components a path has.
fn depth(path: &str) -> usize
    ensures { result ≡ depth_of path.now }
{
    let mut count = 0usize;
    let mut rest = path;
    while let Some((_, behind)) = first_component(rest) {
        count += 1;
        rest = behind;
    }
    count
}

/// Whether a folder is at another one or below it.
fn is_at_or_below(root: &str, folder: &str) -> bool
    ensures { result ≡ is_at_or_below root.now folder.now }
{
    folder == root || rest_below(root, folder).is_some()
}

/// The path of what has this name in a folder.
pub fn inside(alloc: Global, folder: &str, name: &str) -> Mem<String>
    ensures { IfOk result (λ path. string_bytes path ≡ inside folder.now name.now) }
{
    if folder.is_empty() {
        return Ok(String::from_str(alloc, name)?);
    }
    let mut path = String::from_str(alloc, folder)?;
    path.push('/')?;
    path.push_str(name)?;
    Ok(path)
}

/// Lists a folder.
fn list<T: Tree>(
    alloc: Global,
    tree: &mut T,
    folder: &str,
    listing: &mut Listing,
) -> Out<(), FindFault>
    requires { listing.old.entries ≤ most_entries }
    ensures row { OnOk result ((row : Row) × AddsRow folder.now listing.old listing.new row) }
    ensures told { (files : Files) → T.files tree.old ≡ Some files → ListsNext files folder.now listing.old listing.new result }
    ensures same_files { T.files tree.new ≡ T.files tree.old }
    ensures faults { FaultsAfter result (T.read_faults tree.old) (T.read_faults tree.new) }
    ensures write_faults { T.write_faults tree.new ≡ T.write_faults tree.old }
{
    if depth(folder) > MOST_COMPONENTS {
        return Err(Fail::Fault(limit(alloc, LimitKind::FolderDepth, folder)?));
    }
    let mut entries = Vec::new(alloc);
    match tree.list(alloc, folder, &mut entries) {
        Ok(_) => {}
        Err(TreeError::Failed) => return Err(Fail::Fault(FindFault::Read)),
        Err(TreeError::OutOfMemory) => return Err(Fail::OutOfMemory),
    }
    let room = MOST_ENTRIES.saturating_sub(listing.entries);
    if entries.len() > room {
        return Err(Fail::Fault(limit(alloc, LimitKind::Entries, folder)?));
    }
    listing.entries += entries.len();
    let folder = Text::copy_of(alloc, folder)?;
    listing.rows.push(Row {
        folder,
        entries: Items::from_vec(entries),
    })?;
    Ok(())
}

fn has_slash(name: &str) -> bool
    ensures { result ≡ list_any is_slash name.now }
{
    name.bytes().any(|byte| byte == b'/')
}

/// Whether an entry is a folder with a name.
fn is_child(entry: &Entry) -> bool
    ensures { result ≡ is_child entry.now }
{
    let name = entry.name.as_str();
    entry.folder && !name.is_empty() && !has_slash(name)
}

/// The folders directly in a listed folder, sorted.
fn children(alloc: Global, row: &Row) -> Mem<Items<Text>>
    ensures { IfOk result (λ children. AreSorted (IsRowChild row.now) children) }
{
    let mut paths = Vec::new(alloc);
    for entry in row.entries.as_slice() {
        if is_child(entry) {
            paths.push(inside(alloc, row.folder.as_str(), entry.name.as_str())?)?;
        }
    }
    sorted_once(alloc, paths)
}

/// Deep starts at folders.
fn deep_starts(alloc: Global, folders: &[Text]) -> Mem<Vec<Start>>
    ensures { IfOk result (λ starts. starts.items ≡ deep_starts folders.now) }
{
    let mut starts = Vec::new(alloc);
    for folder in folders {
        let path = Text::copy_of(alloc, folder.as_str())?;
        starts.push(Start { path, deep: true })?;
    }
    Ok(starts)
}

/// Puts the folders in a listed folder before the starts that are left, the next of which is the
/// last of the list.
fn add_children(alloc: Global, row: &Row, left: &mut Vec<Start>) -> Mem<()>
    ensures { OnOk result (AddsChildren row.now left.old.items left.new.items) }
{
    let children = children(alloc, row)?;
    let mut starts = deep_starts(alloc, children.as_slice())?;
    starts.reverse();
    left.append(&mut starts)?;
    Ok(())
}

/// The place of a folder among the listed ones; it is listed now, unless it was before.
fn listed<T: Tree>(
    alloc: Global,
    tree: &mut T,
    folder: &str,
    listing: &mut Listing,
) -> Out<usize, FindFault>
    requires { listing.old.entries ≤ most_entries }
    ensures row { IfOk result (λ place. (row : Row) × (slice_get listing.new.rows place ≡ Some row) × (row.folder ≡ folder.now)
        × IsListedRow folder.now row listing.old listing.new) }
    ensures told { (files : Files) → T.files tree.old ≡ Some files → VisitTells files folder.now listing.old listing.new result }
    ensures same_files { T.files tree.new ≡ T.files tree.old }
    ensures faults { FaultsAfter result (T.read_faults tree.old) (T.read_faults tree.new) }
    ensures write_faults { T.write_faults tree.new ≡ T.write_faults tree.old }
{
    if let Some(place) = listing.rows.place_of(folder) {
        return Ok(place);
    }
    let place = listing.rows.len();
    match list(alloc, tree, folder, listing) {
        Ok(()) => Ok(place),
        Err(fail) => Err(fail),
    }
}

/// Lists a start, unless it was listed, and puts the folders in a deep one before the starts that
/// are left.
fn visit<T: Tree>(
    alloc: Global,
    tree: &mut T,
    start: &Start,
    listing: &mut Listing,
    left: &mut Vec<Start>,
) -> Out<(), FindFault>
    requires { listing.old.entries ≤ most_entries }
    ensures row { OnOk result ((row : Row) × Visits start.now row listing.old listing.new left.old.items left.new.items) }
    ensures told { (files : Files) → T.files tree.old ≡ Some files → VisitTells files start.now.path listing.old listing.new result }
    ensures few { OnOk result (listing.new.entries ≤ most_entries) }
    ensures same_files { T.files tree.new ≡ T.files tree.old }
    ensures faults { FaultsAfter result (T.read_faults tree.old) (T.read_faults tree.new) }
    ensures write_faults { T.write_faults tree.new ≡ T.write_faults tree.old }
{
    let place = match listed(alloc, tree, start.path.as_str(), listing) {
        Ok(place) => place,
        Err(fail) => return Err(fail),
    };
    if start.deep {
        add_children(alloc, &listing.rows.as_slice()[place], left)?;
    }
    Ok(())
}

/// Lists the folders of all starts, the next of which is the last of the list. After 2 ^ 64 - 1 turns,
/// which no tree that ends makes necessary, it gives up as it does for want of memory.
pub fn walk<T: Tree>(
    alloc: Global,
    tree: &mut T,
    build: &str,
    starts: Vec<Start>,
) -> Out<Listing, FindFault>
    ensures told { (files : Files) → T.files tree.old ≡ Some files → WalkTells files build.now (reverse starts.items) result }
    ensures same_files { T.files tree.new ≡ T.files tree.old }
    ensures faults { FaultsAfter result (T.read_faults tree.old) (T.read_faults tree.new) }
    ensures write_faults { T.write_faults tree.new ≡ T.write_faults tree.old }
{
    let mut left = starts;
    let mut listing = Listing {
        rows: Rows::new(alloc),
        entries: 0,
    };
    for _ in 0..u64::MAX {
        let Some(start) = left.pop() else {
            return Ok(listing);
        };
        if is_at_or_below(build, start.path.as_str()) {
            continue;
        }
        if let Err(fail) = visit(alloc, tree, &start, &mut listing, &mut left) {
            return Err(fail);
        }
    }
    Err(Fail::OutOfMemory)
}
