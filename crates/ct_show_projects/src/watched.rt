//! A tree that writes down its calls.

use ct_outside::{Entry, Found, MemTree, Tree, TreeError};
use std::alloc::Global;

/// A tree that writes down each folder that is listed and each file that is read, behind a bar. One of its
/// reads may find no file. It does not tell its files.
#[derive(Drop)]
pub struct Watched {
    tree: MemTree,
    pub listed: String,
    pub read: String,
    reads: u64,
    /// The read that finds no file, from 1; or 0.
    absent: u64,
}

impl Watched {
    /// A tree of which no call was made.
    pub fn new(alloc: Global, tree: MemTree, absent: u64) -> Watched {
        Watched {
            tree,
            listed: String::new(alloc),
            read: String::new(alloc),
            reads: 0,
            absent,
        }
    }
}

/// Appends a path behind a bar, where memory is there.
fn note(path: &str, into: &mut String) -> bool {
    into.push('|').is_ok() && into.push_str(path).is_ok()
}

impl Tree for Watched {
    ghost use Rattle.std.specs.Prelude.{None};

    ghost files = { λ _. None };

    ghost read_faults = { λ watched. watched.tree.read_faults };

    ghost write_faults = { λ watched. watched.tree.write_faults };

    fn list(
        &mut self,
        alloc: Global,
        folder: &str,
        into: &mut Vec<Entry>,
    ) -> Result<Found, TreeError> {
        if !note(folder, &mut self.listed) {
            return Err(TreeError::OutOfMemory);
        }
        self.tree.list(alloc, folder, into)
    }

    fn read(
        &mut self,
        alloc: Global,
        path: &str,
        limit: u64,
        into: &mut Vec<u8>,
    ) -> Result<Found, TreeError> {
        if !note(path, &mut self.read) {
            return Err(TreeError::OutOfMemory);
        }
        self.reads = self.reads.saturating_add(1);
        if self.reads == self.absent {
            return Ok(Found::Absent);
        }
        self.tree.read(alloc, path, limit, into)
    }

    fn write(&mut self, alloc: Global, path: &str, bytes: &[u8]) -> Result<(), TreeError> {
        self.tree.write(alloc, path, bytes)
    }
}
