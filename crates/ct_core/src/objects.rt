//! Objects (C11 3.15) and access to them.

use crate::values::{Cell, Pointer};
use ct_base::Items;
use ct_ctype::IntKind;

/// How long an object lives (C11 6.2.4), and what made it.
#[derive(Clone, Copy, Debug, PartialEq, Eq)]
pub enum Kind {
    /// An object that lives for the whole run.
    Static,
    /// A parameter, or an object of a block.
    Automatic,
    /// A string literal.
    Text,
    /// A block of `malloc` or `calloc`.
    Heap,
    /// A record of a generated mock.
    Arena,
}

/// An object. `name` is the number of its declared name. An object that has ended is not `alive`
/// and has no cells. `constant` is set for a string literal and where the definition has `const`.
#[derive(Debug, Drop)]
pub struct Object {
    pub kind: Kind,
    pub name: u32,
    pub cells: Items<Cell>,
    pub alive: bool,
    pub constant: bool,
}

/// The type of a value that an access reads or writes as a whole.
#[derive(Clone, Copy, Debug, PartialEq, Eq)]
pub enum Scalar {
    Int(IntKind),
}

/// What tells the cells of live objects.
pub trait Look {
    ghost use Rattle.std.specs.Prelude.{Option};
    ghost use Rattle.ct_core.specs.declared.values.Pointer.{Pointer};
    ghost use Rattle.ct_core.specs.declared.values.Cell.{Cell};
    ghost use Rattle.std.specs.Prelude.{◌≡◌};

    /// The cell at a place, where a live object has one.
    ghost cells: { Self → Pointer → Option Cell };

    /// The cell at a place. None is for a place where no live object has a cell.
    fn cell(&self, at: Pointer) -> Option<Cell>
        ensures { result ≡ cells self.now at };
}
