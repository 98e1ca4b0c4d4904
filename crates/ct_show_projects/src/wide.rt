//! A tree with many files.

use ct_base::{OutOfMemory, Text};
use ct_outside::{Entry, Found, Tree, TreeError};
use ct_show_rows::Row;
use std::alloc::Global;

/// A tree whose lists give these numbers of files, one after another, of which the first ones are headers.
/// One read finds no file, and one ends for want of memory. It does not tell its files.
#[derive(Drop)]
pub struct Wide {
    counts: Vec<u64>,
    headers: u64,
    absent: u64,
    last: u64,
    pub lists: u64,
    pub reads: u64,
}

/// The number that is the value of an option.
fn number_of(row: &Row, word: &str) -> u64 {
    let number = row.value_of(word).and_then(|number| number.parse().ok());
    number.unwrap_or(0)
}

impl Wide {
    /// The tree of the options `lists COUNT ..`, `headers COUNT`, `absent READ` and `memory READ`.
    pub fn of_row(alloc: Global, row: &Row) -> Result<Wide, OutOfMemory> {
        let mut counts = Vec::new(alloc);
        for word in row.value_of("lists").unwrap_or("").split_whitespace() {
            counts.push(word.parse().unwrap_or(0))?;
        }
        Ok(Wide {
            counts,
            headers: number_of(row, "headers"),
            absent: number_of(row, "absent"),
            last: number_of(row, "memory"),
            lists: 0,
            reads: 0,
        })
    }

    /// How many files the next list gives.
    fn next_count(&mut self) -> u64 {
        let place = usize::try_from(self.lists).unwrap_or(usize::MAX);
        self.lists = self.lists.saturating_add(1);
        self.counts.get(place).copied().unwrap_or(0)
    }
}

fn numbered(alloc: Global, count: u64, headers: u64) -> Result<Vec<Entry>, OutOfMemory> {
    let mut entries = Vec::new(alloc);
    for number in 0..count {
        let end = if number < headers { "h" } else { "txt" };
        let name = Text::new(format!(in alloc; "{number}.{end}")?);
        entries.push(Entry {
            name,
            folder: false,
        })?;
    }
    Ok(entries)
}

impl Tree for Wide {
    ghost use Rattle.std.specs.Prelude.{None};

    ghost files = { λ _. None };

    ghost read_faults = { λ _. 0 };

    ghost write_faults = { λ _. 0 };

    fn list(
        &mut self,
        alloc: Global,
        _folder: &str,
        into: &mut Vec<Entry>,
    ) -> Result<Found, TreeError> {
        let count = self.next_count();
        let Ok(mut entries) = numbered(alloc, count, self.headers) else {
            return Err(TreeError::OutOfMemory);
        };
        match into.append(&mut entries) {
            Ok(()) => Ok(Found::There),
            Err(_) => Err(TreeError::OutOfMemory),
        }
    }

    fn read(
        &mut self,
        _alloc: Global,
        _path: &str,
        _limit: u64,
        _into: &mut Vec<u8>,
    ) -> Result<Found, TreeError> {
        self.reads = self.reads.saturating_add(1);
        if self.reads == self.last {
            return Err(TreeError::OutOfMemory);
        }
        if self.reads == self.absent {
            return Ok(Found::Absent);
        }
        Ok(Found::There)
    }

    fn write(&mut self, _alloc: Global, _path: &str, _bytes: &[u8]) -> Result<(), TreeError> {
        Err(TreeError::OutOfMemory)
    }
}
