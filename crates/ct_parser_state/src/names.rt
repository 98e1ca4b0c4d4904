//! The names in scope.

ghost use Rattle.std.specs.Prelude.{◌≡◌, [], ◌∷◌, OnOk};
ghost use Rattle.std.specs.Map.{set_value};
ghost use Rattle.ct_parser_state.specs.Names.{meaning as spec_meaning, outside, is_key};
ghost use Rattle.ct_parser_state.specs.declared.entries.Entry.TheVariants.{Scope as scope_entry, Name as name_entry};

use crate::entries::Entry;
use ct_base::{Bytes, Mem, OutOfMemory};
use indexmap::IndexMap;
use std::alloc::Global;
use std::marker::Model;

/// What each name means now: whether it is a typedef name, or none where it is declared no more.
type Meanings = IndexMap<Vec<u8>, Option<bool>>;

/// An entry, and what its name meant before it.
#[derive(Drop)]
pub(crate) struct Hiding {
    entry: Entry,
    hidden: Option<bool>,
}

/// The scopes that are open, and the names that are declared in them. A table holds what each name
/// means now, so that no search goes through all names. Contracts see the entries, the latest first.
#[derive(Drop)]
pub struct Names {
    alloc: Global,
    rows: Vec<Hiding>,
    meanings: Meanings,
}

impl Model for Names {
    ghost use Rattle.std.specs.Prelude.{List};
    ghost use Rattle.ct_parser_state.specs.declared.entries.Entry.{Entry};
    ghost use Rattle.ct_parser_state.specs.Table.{latest_first, IsTable};

    ghost Value = { List Entry };

    ghost view = { λ names. latest_first names.rows.items };

    ghost invariant = { λ names. IsTable names.rows.items names.meanings.entries };
}

/// Sets what a name of the table means.
#[tactic(auto, using(crate::proofs::NameRules::set_none))]
fn set_meaning(table: &mut Meanings, name: &[u8], meaning: Option<bool>)
    ensures { table.new.entries ≡ set_value (is_key name.now) table.old.entries meaning }
{
    if let Some(place) = table.get_mut(name) {
        *place = meaning;
    }
}

impl Names {
    /// No names. This takes no memory.
    pub fn new(alloc: Global) -> Names
        ensures { result ≡ [] }
    {
        Names {
            alloc,
            rows: Vec::new(alloc),
            meanings: IndexMap::new(alloc),
        }
    }

    /// Opens a scope.
    pub fn enter(&mut self) -> Mem<()>
        ensures { OnOk result (self.new ≡ scope_entry ∷ self.old) }
    {
        self.rows.push(Hiding {
            entry: Entry::Scope,
            hidden: None,
        })?;
        Ok(())
    }

    /// Leaves the innermost scope: its names mean again what they meant before it.
    #[tactic(auto, using(crate::proofs::NameRules::reverse_last, crate::proofs::NameRules::left_scope, crate::proofs::NameRules::left_name))]
    pub fn leave(&mut self)
        ensures { self.new ≡ outside self.old }
    {
        while let Some(Hiding { entry, hidden }) = self.rows.pop() {
            let Entry::Name(name, _) = entry else {
                return;
            };
            set_meaning(&mut self.meanings, name.as_slice(), hidden);
        }
    }

    /// Declares a name in the innermost scope.
    pub fn declare(&mut self, name: Bytes, is_type: bool) -> Mem<()>
        ensures { OnOk result (self.new ≡ name_entry name is_type ∷ self.old) }
    {
        let key = Vec::from_slice(self.alloc, name.as_slice())?;
        let hidden = self.meaning(name.as_slice());
        let entry = Entry::Name(name, is_type);
        self.rows.push(Hiding { entry, hidden })?;
        match self.meanings.insert(key, Some(is_type)) {
            Ok(_) => Ok(()),
            Err(_) => {
                let _ = self.rows.pop();
                Err(OutOfMemory)
            }
        }
    }

    /// What a name means: whether it is a typedef name, or none where it is not declared.
    pub fn meaning(&self, name: &[u8]) -> Option<bool>
        ensures { result ≡ spec_meaning self.now name.now }
    {
        *self.meanings.get(name)?
    }
}
