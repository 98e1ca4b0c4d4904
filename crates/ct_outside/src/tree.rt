//! A tree of files.

ghost use Rattle.std.specs.Prelude.{◌≡◌, ℕ, ◌+◌, ◌-◌, ◌^◌, ◌≤◌, List, Option, IfOk, IfSome, OnOk, OnErr, vec_len};
ghost use Rattle.ct_outside.specs.Counts.{CountAfter};
ghost use Rattle.ct_outside.specs.Files.{Files, Leaves, ListsFolder, AppendsFile, SetsFile};
ghost use Rattle.ct_outside.specs.declared.tree.TreeError.TheVariants.{OutOfMemory as out_of_memory};

use ct_base::{OutOfMemory, Text};
use std::alloc::{AllocError, Global};

/// An entry of a folder: its name, and whether it is a folder itself.
#[derive(Debug, Drop)]
pub struct Entry {
    pub name: Text,
    pub folder: bool,
}

/// What a call that looks for a file or a folder found.
#[derive(Clone, Copy, Debug, PartialEq, Eq)]
pub enum Found {
    There,
    Absent,
    /// The file is longer than the limit of the call.
    TooLarge,
}

/// Why a call of a tree gave no answer.
#[derive(Clone, Copy, Debug, PartialEq, Eq)]
pub enum TreeError {
    /// The tree failed, and its count of faults rose.
    Failed,
    OutOfMemory,
}

impl From<OutOfMemory> for TreeError {
    ghost from_gives = { λ _ error. error ≡ out_of_memory };

    fn from(_error: OutOfMemory) -> TreeError {
        TreeError::OutOfMemory
    }
}

impl From<AllocError> for TreeError {
    ghost from_gives = { λ _ error. error ≡ out_of_memory };

    fn from(_error: AllocError) -> TreeError {
        TreeError::OutOfMemory
    }
}

/// A tree of files. Paths use `/`, are relative to the tree's root, and have no empty, `.` or `..`
/// component. The root is the empty path.
pub trait Tree {
    /// The files, by their paths, where the tree tells them.
    ghost files: { Self → Option Files };

    /// How often a list or a read has failed. It never falls, and stands still at 2 ^ 64 - 1.
    ghost read_faults: { Self → ℕ };

    /// How often a write has failed. It never falls, and stands still at 2 ^ 64 - 1.
    ghost write_faults: { Self → ℕ };

    /// Appends the direct entries of a folder, each once, in any order. The folder is absent where
    /// no file lies below it.
    fn list(
        &mut self,
        alloc: Global,
        folder: &str,
        into: &mut Vec<Entry>,
    ) -> Result<Found, TreeError>
        ensures told { IfSome (files self.old) (λ told. IfOk result (λ found.
            ListsFolder told folder.now found into.old.items into.new.items)) }
        ensures left { Leaves result into.old.items into.new.items }
        ensures never_large { result ≡ Ok Found.TooLarge → ⊥ }
        ensures same_files { files self.new ≡ files self.old }
        ensures faults { CountAfter result (read_faults self.old) (read_faults self.new) }
        ensures other_faults { write_faults self.new ≡ write_faults self.old }
        ensures bounded { read_faults self.old ≤ 2 ^ 64 - 1 → read_faults self.new ≤ 2 ^ 64 - 1 };

    /// Appends the bytes of a file, where it has at most `limit`.
    fn read(
        &mut self,
        alloc: Global,
        path: &str,
        limit: u64,
        into: &mut Vec<u8>,
    ) -> Result<Found, TreeError>
        ensures told { IfSome (files self.old) (λ told. IfOk result (λ found.
            AppendsFile told path.now limit found into.old.items into.new.items)) }
        ensures left { Leaves result into.old.items into.new.items }
        ensures within { IfOk result (λ _. vec_len into.new ≤ vec_len into.old + limit) }
        ensures same_files { files self.new ≡ files self.old }
        ensures faults { CountAfter result (read_faults self.old) (read_faults self.new) }
        ensures other_faults { write_faults self.new ≡ write_faults self.old }
        ensures bounded { read_faults self.old ≤ 2 ^ 64 - 1 → read_faults self.new ≤ 2 ^ 64 - 1 };

    /// Sets a file to these bytes, and changes no other.
    fn write(&mut self, alloc: Global, path: &str, bytes: &[u8]) -> Result<(), TreeError>
        ensures same_files { OnErr result (files self.new ≡ files self.old) }
        ensures written { OnOk result (SetsFile (files self.old) (files self.new) path.now bytes.now) }
        ensures faults { CountAfter result (write_faults self.old) (write_faults self.new) }
        ensures other_faults { read_faults self.new ≡ read_faults self.old }
        ensures bounded { write_faults self.old ≤ 2 ^ 64 - 1 → write_faults self.new ≤ 2 ^ 64 - 1 };
}
