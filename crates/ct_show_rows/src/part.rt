//! The reader of a part of a row.

use crate::escapes::push_unescaped;
use crate::row::Part;
use ct_base::Mem;
use std::alloc::Global;
use std::mem;

/// What reads the lines of a part.
#[derive(Drop)]
pub struct PartReader {
    option: String,
    text: Vec<u8>,
    /// Whether the lines have escapes, and are joined.
    escaped: bool,
    /// Whether the last new-line is left out.
    cut: bool,
}

impl PartReader {
    /// No line was read.
    pub fn new(alloc: Global) -> PartReader {
        PartReader {
            option: String::new(alloc),
            text: Vec::new(alloc),
            escaped: false,
            cut: false,
        }
    }

    /// Takes an option. One that says how the text is written is taken here; for any other the answer is
    /// `false`, since it begins a new part.
    pub fn take_option(&mut self, option: &str) -> Mem<bool> {
        if option == "escaped" {
            self.escaped = true;
            return Ok(true);
        }
        if option == "no final line" {
            self.cut = true;
            return Ok(true);
        }
        match option.strip_prefix("times ") {
            Some(times) => {
                self.repeat(times)?;
                Ok(true)
            }
            None => Ok(false),
        }
    }

    /// Takes a text as often as the number before it says.
    fn repeat(&mut self, line: &str) -> Mem<()> {
        let Some((number, text)) = line.split_once(' ') else {
            return Ok(());
        };
        let times: u32 = number.parse().unwrap_or(0);
        for _ in 0..times {
            self.push(text)?;
        }
        Ok(())
    }

    fn push(&mut self, text: &str) -> Mem<()> {
        if self.escaped {
            return push_unescaped(text.as_bytes(), &mut self.text);
        }
        self.text.extend_from_slice(text.as_bytes())?;
        Ok(())
    }

    /// Takes a line of the text.
    pub fn take_line(&mut self, line: &str) -> Mem<()> {
        self.push(line)?;
        if !self.escaped {
            self.text.push(b'\n')?;
        }
        Ok(())
    }

    /// Ends the part, and begins the next with an option. A part without option and text is none.
    pub fn next(&mut self, alloc: Global, option: String, parts: &mut Vec<Part>) -> Mem<()> {
        let option = mem::replace(&mut self.option, option);
        let mut text = mem::replace(&mut self.text, Vec::new(alloc));
        if mem::replace(&mut self.cut, false) {
            let _ = text.pop();
        }
        if !option.is_empty() || !text.is_empty() {
            parts.push(Part { option, text })?;
        }
        Ok(())
    }
}
