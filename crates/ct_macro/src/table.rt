//! The table of macros.

ghost use Rattle.std.specs.Prelude.{◌≡◌, false, Some, None, OnOk, OnErr, MatchOption, IfOk, [], length};
ghost use Rattle.ct_base.specs.declared.memory.Fail.TheVariants.{Fault};
ghost use Rattle.std.specs.Option.{option_copied};
ghost use Rattle.ct_base.specs.Answers.{IfFault};
ghost use Rattle.ct_macro_call.specs.Definition as spec;
ghost use Rattle.ct_macro.specs.Expansion.{placed_macro};
ghost use Rattle.ct_macro.specs.Table.{Refuses};

use crate::faults::{MacroFault, MacroKind};
use ct_base::{Fail, Mem, Out};
use ct_macro_call::Macro;
use indexmap::IndexMap;
use std::alloc::Global;
use std::marker::Model;

/// The macros that are defined at a place of a text, each name once, in the order of their
/// definitions. Contracts see the list.
#[derive(Drop)]
pub struct Macros {
    alloc: Global,
    table: IndexMap<Vec<u8>, Macro>,
}

impl Model for Macros {
    ghost use Rattle.std.specs.Prelude.{List};
    ghost use Rattle.std.specs.HashMap.{values};
    ghost use Rattle.ct_macro_call.specs.declared.definition.Macro.{Macro};
    ghost use Rattle.ct_macro.specs.Table.{IsTable};

    ghost Value = { List Macro };

    ghost view = { λ m. values m.table };

    ghost invariant = { λ m. IsTable m.table.entries };
}

/// The refusal of a definition.
fn refusal(kind: MacroKind, macro_: Macro) -> Fail<MacroFault>
    ensures { result ≡ Fault (record { kind = kind; name = macro_.name; line = 0 }) }
{
    let Macro {
        name,
        parameters: _,
        variadic: _,
        body: _,
    } = macro_;
    Fail::Fault(MacroFault {
        kind,
        name,
        line: 0,
    })
}

impl Macros {
    /// No macros.
    pub fn new(alloc: Global) -> Mem<Macros>
        ensures { IfOk result (λ macros. macros ≡ []) }
    {
        Ok(Macros {
            alloc,
            table: IndexMap::new(alloc),
        })
    }

    /// The macro of a name.
    pub fn get(&self, name: &[u8]) -> Option<&Macro>
        ensures { option_copied result ≡ spec.macro_named name.now self.now }
    {
        self.table.get(name)
    }

    /// How many macros there are.
    pub(crate) fn len(&self) -> usize
        ensures { result ≡ length self.now }
    {
        self.table.len()
    }

    /// The macro of a name, with its place in the table.
    pub(crate) fn place_of(&self, name: &[u8]) -> Option<(usize, &Macro)>
        ensures { MatchOption result (placed_macro 0 name.now self.now ≡ None)
            (λ found. placed_macro 0 name.now self.now ≡ Some (found.0, found.1.now)) }
    {
        let (place, _, found) = self.table.get_full(name)?;
        Some((place, found))
    }

    /// Defines a macro. The same definition may stand already, and stays then (C11 6.10.3p2). A
    /// refusal names the macro and the line 0.
    pub fn define(&mut self, macro_: Macro) -> Out<(), MacroFault>
        ensures ok { OnOk result ((spec.is_malformed macro_ ≡ false) × spec.Defines self.old macro_ self.new) }
        ensures fault { IfFault result (Refuses self.old macro_) }
        ensures unchanged { OnErr result (self.new ≡ self.old) }
    {
        if macro_.is_malformed() {
            return Err(refusal(MacroKind::BadDefinition, macro_));
        }
        if let Some(there) = self.get(macro_.name.as_slice()) {
            if there.is_same(&macro_) {
                return Ok(());
            }
            return Err(refusal(MacroKind::Redefined, macro_));
        }
        let key = Vec::from_slice(self.alloc, macro_.name.as_slice())?;
        self.table.insert(key, macro_)?;
        Ok(())
    }

    /// Takes the definition of a name away, where there is one (C11 6.10.3.5p2).
    pub fn undef(&mut self, name: &[u8])
        ensures { self.new ≡ spec.without name.now self.old }
    {
        let _ = self.table.shift_remove(name);
    }
}
