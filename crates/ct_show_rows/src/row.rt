//! Rows of tables.

use ct_base::Mem;
use std::alloc::Global;

/// An option line of a row, and the text that stands behind it.
#[derive(Drop)]
pub struct Part {
    /// What stands behind `? `; it is empty for the text before the first option.
    pub option: String,
    pub text: Vec<u8>,
}

impl Part {
    /// What stands behind a word in the option: `h.h` for the option `file h.h` and the word `file`. It is
    /// empty where the option is the word alone.
    pub fn value_of(&self, word: &str) -> Option<&str> {
        let rest = self.option.strip_prefix(word)?;
        if rest.is_empty() {
            return Some(rest);
        }
        rest.strip_prefix(" ")
    }
}

/// A row: its name, its options and texts in the order in which they stand, and the outcome that it must
/// have.
#[derive(Drop)]
pub struct Row {
    pub name: String,
    pub parts: Vec<Part>,
    pub expected: String,
    /// The line of the file where the row begins.
    pub line: u64,
}

impl Row {
    /// The texts of all parts, joined.
    pub fn input(&self, alloc: Global) -> Mem<Vec<u8>> {
        let mut text = Vec::new(alloc);
        for part in &self.parts {
            text.extend_from_slice(part.text.as_slice())?;
        }
        Ok(text)
    }

    /// The value of the last option that begins with a word.
    pub fn value_of(&self, word: &str) -> Option<&str> {
        let mut found = None;
        for part in &self.parts {
            if let Some(value) = part.value_of(word) {
                found = Some(value);
            }
        }
        found
    }

    /// Whether an option begins with a word.
    pub fn has(&self, word: &str) -> bool {
        self.value_of(word).is_some()
    }
}
