//! The tree of a text.

use ct_base::{Bytes, Items};

/// A value of a project file.
#[derive(Debug, Drop)]
#[cycle(node)]
pub enum Node {
    /// A text, which is empty where nothing stands.
    Scalar(Bytes),
    List(Items<Node>),
    /// The entries in the order of the text. Where a key stands twice, the last counts.
    Map(Items<Entry>),
}

/// A key of a map, and its value.
#[derive(Debug, Drop)]
#[cycle(node)]
pub struct Entry {
    pub key: Bytes,
    pub value: Node,
}
