//! Items that are still to be read.

ghost use Rattle.std.specs.Prelude.{◌≡◌, ◌∷◌, ◌++◌, [], List, OnOk, MatchOption};

use ct_base::{Items, Mem};
use std::alloc::Global;
use std::marker::Model;

/// Items that are still to be read. Contracts see the list; the vector has the next one last.
#[derive(Drop)]
pub struct Source<T> {
    items: Vec<T>,
}

impl<T> Model for Source<T> {
    ghost use Rattle.std.specs.Prelude.{List, reverse};
    ghost use Rattle.std.specs.Coded.{coded_list};

    ghost Value = { List T };

    ghost coded = { coded_list T.code };

    ghost view = { λ source. reverse source.items.items };
}

impl<T> Source<T> {
    /// No items.
    pub fn new(alloc: Global) -> Source<T>
        ensures { result ≡ [] }
    {
        Source {
            items: Vec::new(alloc),
        }
    }

    /// Takes the next item.
    pub fn next(&mut self) -> Option<T>
        ensures { MatchOption result ((self.old ≡ []) × (self.new ≡ [])) (λ item. self.old ≡ item ∷ self.new) }
    {
        self.items.pop()
    }

    /// Puts an item before those that are there.
    pub fn push(&mut self, item: T) -> Mem<()>
    where
        T: Drop,
        ensures { OnOk result (self.new ≡ item ∷ self.old) }
    {
        self.items.push(item)?;
        Ok(())
    }

    /// The next item.
    pub fn peek(&self) -> Option<&T>
        ensures { MatchOption result (self.now ≡ []) (λ item. (rest : List T) × (self.now ≡ item.now ∷ rest)) }
    {
        self.items.last()
    }

    /// Gives memory back, where most of it is not used.
    pub fn fit(&mut self)
        ensures { self.new ≡ self.old }
    {
        if self.items.capacity() / 4 > self.items.len() {
            self.items.shrink_to_fit();
        }
    }
}

impl<T: Drop> Source<T> {
    /// Puts items before those that are there.
    pub fn put_front(&mut self, items: Items<T>) -> Mem<()>
        ensures { OnOk result (self.new ≡ items ++ self.old) }
    {
        let mut items = items;
        while let Some(item) = items.pop() {
            self.items.push(item)?;
        }
        Ok(())
    }
}
