//! What is outside the form of a test file.

use ct_base::Bytes;

/// The first token of what is neither an include nor a function of the form: its line, from 1, and
/// its bytes.
#[derive(Debug, Drop)]
pub struct Outside {
    pub line: u32,
    pub word: Bytes,
}
