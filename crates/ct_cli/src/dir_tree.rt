//! The tree of the files of a folder.

ghost use Rattle.std.specs.Prelude.{◌≡◌, ◌↔◌, ◌-◌, ◌^◌, None, ◌≤◌, IfOk, IsErr, vec_len};
ghost use Rattle.ct_cli.specs.Systems.{cause_at};
ghost use Rattle.ct_outside.specs.Counts.{CountAfter, Rose};

use crate::causes::{Cause, cause_of, raise};
use ct_base::Text;
use ct_outside::{Entry, Found, Tree, TreeError};
use std::alloc::Global;
use std::fs::{self, DirEntry, Metadata};
use std::io::{self, Read};
use std::rt::Files;

/// How many entries of one folder are listed at most.
const MOST_ENTRIES: usize = 20_001;

/// The files below the current folder, as a tree that does not tell them. It follows symbolic links.
#[derive(Drop)]
pub struct DirTree<R> {
    rt: R,
    read_faults: u64,
    write_faults: u64,
}

impl<R> DirTree<R> {
    pub fn new(rt: R) -> DirTree<R>
        ensures reads { result.read_faults ≡ 0 }
        ensures writes { result.write_faults ≡ 0 }
    {
        DirTree {
            rt,
            read_faults: 0,
            write_faults: 0,
        }
    }
}

impl<R: Files + AllocGlobal + Clone + Drop> Tree for DirTree<R> {
    ghost files = { λ _. None };

    ghost read_faults = { λ tree. tree.read_faults };

    ghost write_faults = { λ tree. tree.write_faults };

    fn list(
        &mut self,
        alloc: Global,
        folder: &str,
        into: &mut Vec<Entry>,
    ) -> Result<Found, TreeError> {
        match entries(&self.rt, alloc, folder) {
            Ok(mut found) => {
                if into.append(&mut found).is_err() {
                    return Err(TreeError::OutOfMemory);
                }
                Ok(Found::There)
            }
            Err(error) => answer_to(&error, &mut self.read_faults),
        }
    }

    fn read(
        &mut self,
        alloc: Global,
        path: &str,
        limit: u64,
        into: &mut Vec<u8>,
    ) -> Result<Found, TreeError> {
        match bytes(&self.rt, alloc, path, limit) {
            Ok(bytes) => {
                if bytes.len() as u64 > limit {
                    return Ok(Found::TooLarge);
                }
                if into.extend_from_slice(bytes.as_slice()).is_err() {
                    return Err(TreeError::OutOfMemory);
                }
                Ok(Found::There)
            }
            Err(error) => answer_to(&error, &mut self.read_faults),
        }
    }

    fn write(&mut self, _alloc: Global, path: &str, bytes: &[u8]) -> Result<(), TreeError> {
        match put(&self.rt, path, bytes) {
            Ok(()) => Ok(()),
            Err(error) => answer_to_write(&error, &mut self.write_faults),
        }
    }
}

/// The direct entries of a folder, at most `MOST_ENTRIES`.
fn entries<R: Files + AllocGlobal + Clone + Drop>(
    rt: &R,
    alloc: Global,
    folder: &str,
) -> io::Result<Vec<Entry>>
    ensures { IfOk result (λ entries. vec_len entries ≤ MOST_ENTRIES) }
{
    let path = if folder.is_empty() { "." } else { folder };
    let mut entries = Vec::new(alloc);
    for entry in fs::read_dir(rt, path)? {
        if entries.len() == MOST_ENTRIES {
            break;
        }
        entries.push(described(rt, alloc, &entry?)?)?;
    }
    Ok(entries)
}

/// The name of an entry, and whether it is a folder.
fn described<R: Files + AllocGlobal + Clone + Drop>(
    rt: &R,
    alloc: Global,
    entry: &DirEntry<R, Global>,
) -> io::Result<Entry> {
    let name = String::from_str(alloc, entry.file_name())?;
    let folder = is_folder(fs::metadata(rt, entry.path()))?;
    Ok(Entry {
        name: Text::new(name),
        folder,
    })
}

/// Whether these are data of a folder. A symbolic link that leads nowhere is none.
fn is_folder(metadata: io::Result<Metadata>) -> io::Result<bool> {
    match metadata {
        Ok(metadata) => Ok(metadata.is_dir()),
        Err(error) if cause_of(&error) == Cause::Missing => Ok(false),
        Err(error) => Err(error),
    }
}

/// The bytes of a file up to its end, or one more than the limit where it is longer.
fn bytes<R: Files>(rt: &R, alloc: Global, path: &str, limit: u64) -> io::Result<Vec<u8>> {
    let file = fs::open(rt, path)?;
    let mut bytes = Vec::new(alloc);
    file.take(limit.saturating_add(1)).read_to_end(&mut bytes)?;
    Ok(bytes)
}

/// Writes a file, and before it the folders that are missing on its path.
fn put<R: Files>(rt: &R, path: &str, bytes: &[u8]) -> io::Result<()> {
    if let Some((folder, _)) = path.rsplit_once('/') {
        fs::create_dir_all(rt, folder)?;
    }
    fs::write(rt, path, bytes)
}

/// What a list or a read answers to an error of the system.
fn answer_to(error: &io::Error, faults: &mut u64) -> Result<Found, TreeError>
    ensures memory { result ≡ Err TreeError.OutOfMemory ↔ (cause_at error.now ≡ Cause.OutOfMemory) }
    ensures missing { result ≡ Ok Found.Absent ↔ (cause_at error.now ≡ Cause.Missing) }
    ensures never_there { IfOk result (λ found. found ≡ Found.Absent) }
    ensures faults { CountAfter result faults.old faults.new }
    ensures bounded { faults.old ≤ 2 ^ 64 - 1 → faults.new ≤ 2 ^ 64 - 1 }
{
    match cause_of(error) {
        Cause::Missing => Ok(Found::Absent),
        Cause::OutOfMemory => Err(TreeError::OutOfMemory),
        Cause::System => Err(failed(faults)),
    }
}

/// What a write answers to an error of the system.
fn answer_to_write(error: &io::Error, faults: &mut u64) -> Result<(), TreeError>
    ensures memory { result ≡ Err TreeError.OutOfMemory ↔ (cause_at error.now ≡ Cause.OutOfMemory) }
    ensures never_done { IsErr result }
    ensures faults { CountAfter result faults.old faults.new }
    ensures bounded { faults.old ≤ 2 ^ 64 - 1 → faults.new ≤ 2 ^ 64 - 1 }
{
    match cause_of(error) {
        Cause::OutOfMemory => Err(TreeError::OutOfMemory),
        Cause::System | Cause::Missing => Err(failed(faults)),
    }
}

/// Counts a fault of the system.
fn failed(faults: &mut u64) -> TreeError
    ensures answer { result ≡ TreeError.Failed }
    ensures rose { Rose faults.old faults.new }
    ensures bounded { faults.new ≤ 2 ^ 64 - 1 }
{
    raise(faults);
    TreeError::Failed
}
