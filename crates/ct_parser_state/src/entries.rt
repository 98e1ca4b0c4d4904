//! Names that are declared.

use ct_base::Bytes;

/// A scope that is open, or a name that is declared in it.
#[derive(Drop)]
pub enum Entry {
    Scope,
    /// A name, and whether it is a typedef name.
    Name(Bytes, bool),
}
