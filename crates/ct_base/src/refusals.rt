//! Why a project is refused.

use crate::texts::{Bytes, Text};

/// A refusal of a project. `kind` is the number of its kind, from 1.
/// `line` counts from 1, and is 0 where no line is named.
#[derive(Debug, Drop)]
pub struct Refusal {
    pub kind: u32,
    pub file: Text,
    pub line: u32,
    pub text: Bytes,
}
