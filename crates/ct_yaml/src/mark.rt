//! What a line says: the entries and items that begin on it, at which columns, and its value.

use crate::node::Node;
use ct_base::{Bytes, Items};

/// A value that stands on the line of its key or of its item's `-`.
#[derive(Debug, Drop)]
pub enum Inline {
    Scalar(Bytes),
    /// A flow list, of scalars.
    Flow(Items<Node>),
    /// `{}`
    Braces,
}

/// A part of a line. A column is that of its first byte, from 0.
#[derive(Debug, Drop)]
pub enum Mark {
    /// The `-` of an item.
    Dash { column: usize },
    /// The key of an entry, and its colon.
    Key { column: usize, key: Bytes },
    /// The value of the key or item before it.
    Value(Inline),
}
