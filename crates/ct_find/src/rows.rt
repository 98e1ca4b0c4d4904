//! The folders that were listed.

ghost use Rattle.std.specs.Prelude.{◌≡◌, ◌++◌, ◌∷◌, [], MatchOption, OnOk, length};
ghost use Rattle.ct_find.specs.Places.{IsFresh, StandsAt};

use ct_base::{Items, Mem, OutOfMemory, Text};
use ct_outside::Entry;
use std::alloc::Global;
use std::collections::BTreeMap;
use std::marker::Model;

/// A folder that was listed, and its entries.
#[derive(Debug, Drop)]
pub struct Row {
    pub folder: Text,
    pub entries: Items<Entry>,
}

/// The folders that were listed, in this order, and the place of each. Contracts see the list.
#[derive(Debug, Drop)]
pub struct Rows {
    alloc: Global,
    items: Vec<Row>,
    places: BTreeMap<String, usize>,
}

impl Model for Rows {
    ghost use Rattle.std.specs.Prelude.{List};
    ghost use Rattle.ct_find.specs.declared.rows.Row.{Row};
    ghost use Rattle.ct_find.specs.Places.{HavePlaces};

    ghost Value = { List Row };

    ghost view = { λ rows. rows.items.items };

    ghost invariant = { λ rows. HavePlaces rows.items.items rows.places };
}

impl Rows {
    pub fn new(alloc: Global) -> Rows
        ensures { result ≡ [] }
    {
        Rows {
            alloc,
            items: Vec::new(alloc),
            places: BTreeMap::new(alloc),
        }
    }

    pub fn len(&self) -> usize
        ensures { result ≡ length self.now }
    {
        self.items.len()
    }

    pub fn as_slice(&self) -> &[Row]
        ensures { result.now ≡ self.now }
    {
        self.items.as_slice()
    }

    /// The place of a folder that was listed.
    pub fn place_of(&self, folder: &str) -> Option<usize>
        ensures { MatchOption result (IsFresh self.now folder.now) (StandsAt self.now folder.now) }
    {
        self.places.get(folder).copied()
    }

    /// Appends a folder. For want of memory none is appended.
    pub fn push(&mut self, row: Row) -> Mem<()>
        ensures { OnOk result (self.new ≡ self.old ++ row ∷ []) }
    {
        let folder = String::from_str(self.alloc, row.folder.as_str())?;
        let place = self.items.len();
        self.items.push(row)?;
        match self.places.insert(folder, place) {
            Ok(_) => Ok(()),
            Err(_) => {
                let _ = self.items.pop();
                Err(OutOfMemory)
            }
        }
    }
}
