//! A tree of files in memory.

ghost use Rattle.std.specs.Prelude.{◌≡◌, ◌+◌, ◌≤◌, ◌↔◌, [], Some, Err, IfOk, IsTrue, OnOk, OnErr, vec_len};
ghost use Rattle.std.specs.Option.{option_copied};
ghost use Rattle.std.specs.List.{Contains};
ghost use Rattle.std.specs.FinMap.{empty, get, insert};
ghost use Rattle.ct_outside.specs.Counts.{faults_after, raised};
ghost use Rattle.ct_outside.specs.Files.{Leaves, ListsFolder, AppendsFile};
ghost use Rattle.ct_outside.specs.Stored.{files_of};

use crate::listing::append_entries;
use crate::stored::{StoredFile, append_file, bytes_at, set_file};
use crate::tree::{Entry, Found, Tree, TreeError};
use ct_base::Mem;
use std::alloc::Global;
use std::marker::Model;

/// A kind of call of a tree.
#[derive(Clone, Copy, Debug, PartialEq, Eq)]
pub enum TreeCall {
    List,
    Read,
    Write,
}

/// A tree that keeps its files in memory, and fails at the calls that it was told.
#[derive(Debug, Drop)]
pub struct MemTree {
    alloc: Global,
    files: Vec<StoredFile>,
    failing: Vec<(TreeCall, u64)>,
    lists: u64,
    reads: u64,
    writes: u64,
    read_faults: u64,
    write_faults: u64,
}

impl Model for MemTree {
    ghost use Rattle.std.specs.Coded.{codes};
    ghost use Rattle.ct_outside.specs.TreeState.{TreeState, files_code};
    ghost use Rattle.ct_outside.specs.Stored.{files_of};

    ghost Value = { TreeState };

    ghost coded = { Prim.hlevel (codes, files_code) };

    ghost view = { λ tree. record {
      files = files_of tree.files.items;
      failing = tree.failing.items;
      lists = tree.lists;
      reads = tree.reads;
      writes = tree.writes;
      read_faults = tree.read_faults;
      write_faults = tree.write_faults;
    } };
}

impl MemTree {
    /// A tree with no files. The call (kind, k) in `failing` is the k-th call of that kind, from 1
    /// on, and fails. The numbers of calls stand still at 2 ^ 64 - 1.
    pub fn new(alloc: Global, failing: Vec<(TreeCall, u64)>) -> MemTree
        ensures { result ≡ record {
          files = empty;
          failing = failing.items;
          lists = 0;
          reads = 0;
          writes = 0;
          read_faults = 0;
          write_faults = 0;
        } }
    {
        MemTree {
            alloc,
            files: Vec::new(alloc),
            failing,
            lists: 0,
            reads: 0,
            writes: 0,
            read_faults: 0,
            write_faults: 0,
        }
    }

    /// Sets a file. It is no call of the tree: it is not counted and does not fail.
    pub fn put(&mut self, path: &str, bytes: &[u8]) -> Mem<()>
        ensures ok { OnOk result (self.new ≡ record self.old { files = insert self.old.files path.now bytes.now }) }
        ensures err { OnErr result (self.new ≡ self.old) }
    {
        set_file(self.alloc, &mut self.files, path, bytes)
    }

    /// The bytes of a file. It is no call of the tree.
    pub fn get(&self, path: &str) -> Option<&[u8]>
        ensures { option_copied result ≡ get self.now.files path.now }
    {
        bytes_at(&self.files, path)
    }
}

impl Tree for MemTree {
    ghost files = { λ tree. Some tree.files };

    ghost read_faults = { λ tree. tree.read_faults };

    ghost write_faults = { λ tree. tree.write_faults };

    fn list(
        &mut self,
        alloc: Global,
        folder: &str,
        into: &mut Vec<Entry>,
    ) -> Result<Found, TreeError>
        ensures told { IfOk result (λ found.
            ListsFolder self.old.files folder.now found into.old.items into.new.items) }
        ensures left { Leaves result into.old.items into.new.items }
        ensures kept { OnErr result (into.new.items ≡ into.old.items) }
        ensures failed { (result ≡ Err TreeError.Failed)
            ↔ Contains self.old.failing (TreeCall.List, raised self.old.lists) }
        ensures state { self.new ≡ record self.old {
          lists = raised self.old.lists;
          read_faults = faults_after result self.old.read_faults;
        } }
    {
        self.lists = self.lists.saturating_add(1);
        if is_named(&self.failing, TreeCall::List, self.lists) {
            self.read_faults = self.read_faults.saturating_add(1);
            return Err(TreeError::Failed);
        }
        append_entries(alloc, &self.files, folder, into)
    }

    fn read(
        &mut self,
        _alloc: Global,
        path: &str,
        limit: u64,
        into: &mut Vec<u8>,
    ) -> Result<Found, TreeError>
        ensures told { IfOk result (λ found.
            AppendsFile self.old.files path.now limit found into.old.items into.new.items) }
        ensures left { Leaves result into.old.items into.new.items }
        ensures kept { OnErr result (into.new.items ≡ into.old.items) }
        ensures within { IfOk result (λ _. vec_len into.new ≤ vec_len into.old + limit) }
        ensures failed { (result ≡ Err TreeError.Failed)
            ↔ Contains self.old.failing (TreeCall.Read, raised self.old.reads) }
        ensures state { self.new ≡ record self.old {
          reads = raised self.old.reads;
          read_faults = faults_after result self.old.read_faults;
        } }
    {
        self.reads = self.reads.saturating_add(1);
        if is_named(&self.failing, TreeCall::Read, self.reads) {
            self.read_faults = self.read_faults.saturating_add(1);
            return Err(TreeError::Failed);
        }
        append_file(&self.files, path, limit, into)
    }

    fn write(&mut self, alloc: Global, path: &str, bytes: &[u8]) -> Result<(), TreeError>
        ensures failed { (result ≡ Err TreeError.Failed)
            ↔ Contains self.old.failing (TreeCall.Write, raised self.old.writes) }
        ensures written { OnOk result (self.new ≡ record self.old {
          files = insert self.old.files path.now bytes.now;
          writes = raised self.old.writes;
        }) }
        ensures not_written { OnErr result (self.new ≡ record self.old {
          writes = raised self.old.writes;
          write_faults = faults_after result self.old.write_faults;
        }) }
    {
        self.writes = self.writes.saturating_add(1);
        if is_named(&self.failing, TreeCall::Write, self.writes) {
            self.write_faults = self.write_faults.saturating_add(1);
            return Err(TreeError::Failed);
        }
        set_file(alloc, &mut self.files, path, bytes)?;
        Ok(())
    }
}

/// Whether a call was named as one that fails.
fn is_named(failing: &[(TreeCall, u64)], call: TreeCall, number: u64) -> bool
    ensures { IsTrue result ↔ Contains failing.now (call, number) }
{
    failing.contains(&(call, number))
}
