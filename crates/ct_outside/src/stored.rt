//! Files in memory: a list in which no order is kept.

ghost use Rattle.std.specs.Prelude.{◌≡◌, ◌<◌, None, IfOk, IfErr, OnOk, OnErr, MatchOption, length, take, slice_index_or};
ghost use Rattle.std.specs.Option.{option_copied};
ghost use Rattle.std.specs.FinMap.{get, insert};
ghost use Rattle.ct_outside.specs.Files.{AppendsFile, Leaves};
ghost use Rattle.ct_outside.specs.Stored.{files_of};
ghost use Rattle.ct_outside.specs.declared.stored.StoredFile.{StoredFile};

use crate::tree::{Found, TreeError};
use ct_base::{Bytes, Mem, Text};
use std::alloc::Global;

/// A file in memory.
#[derive(Debug, Drop)]
pub struct StoredFile {
    pub path: Text,
    pub bytes: Bytes,
}

/// The place of the file at a path.
fn place_of(files: &[StoredFile], path: &str) -> Option<usize>
    ensures { MatchOption result (get (files_of files.now) path.now ≡ None) (λ place.
        (place < length files.now) × (get (files_of (take place files.now)) path.now ≡ None)
        × ((d : StoredFile) → (slice_index_or files.now place d).path ≡ path.now)) }
{
    for (place, file) in files.iter().enumerate() {
        if file.path.as_str() == path {
            return Some(place);
        }
    }
    None
}

/// The bytes of the file at a path.
pub fn bytes_at<'a>(files: &'a [StoredFile], path: &str) -> Option<&'a [u8]>
    ensures { option_copied result ≡ get (files_of files.now) path.now }
{
    let place = place_of(files, path)?;
    Some(files[place].bytes.as_slice())
}

/// Sets the file at a path.
pub fn set_file(alloc: Global, files: &mut Vec<StoredFile>, path: &str, bytes: &[u8]) -> Mem<()>
    ensures ok { OnOk result (files_of files.new.items ≡ insert (files_of files.old.items) path.now bytes.now) }
    ensures err { OnErr result (files.new.items ≡ files.old.items) }
{
    let bytes = Bytes::from_slice(alloc, bytes)?;
    match place_of(files, path) {
        Some(place) => files[place].bytes = bytes,
        None => {
            let path = Text::copy_of(alloc, path)?;
            files.push(StoredFile { path, bytes })?;
        }
    }
    Ok(())
}

/// Appends the bytes of the file at a path, where it has at most `limit`.
pub fn append_file(
    files: &[StoredFile],
    path: &str,
    limit: u64,
    into: &mut Vec<u8>,
) -> Result<Found, TreeError>
    ensures told { IfOk result (λ found.
        AppendsFile (files_of files.now) path.now limit found into.old.items into.new.items) }
    ensures left { Leaves result into.old.items into.new.items }
    ensures kept { OnErr result (into.new.items ≡ into.old.items) }
    ensures memory { IfErr result (λ error. error ≡ TreeError.OutOfMemory) }
{
    let Some(bytes) = bytes_at(files, path) else {
        return Ok(Found::Absent);
    };
    if bytes.len() as u64 > limit {
        return Ok(Found::TooLarge);
    }
    into.extend_from_slice(bytes)?;
    Ok(Found::There)
}
