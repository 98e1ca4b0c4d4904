//! The heads of mocks.

use ct_base::{Bytes, Items, Text};

/// A generated head: its name and its text.
#[derive(Debug, Drop)]
pub struct Head {
    pub name: Text,
    pub text: Bytes,
}

/// What the heads of mocks are. Their names begin with the prefix, and they lie in the folder. In a
/// scan a head is the include of the header that it mocks; else its text is among these.
#[derive(Debug, Drop)]
pub struct Heads {
    pub prefix: Text,
    pub folder: Text,
    pub scan: bool,
    pub texts: Items<Head>,
}
