//! The reader of tables.

use crate::part::PartReader;
use crate::row::{Part, Row};
use ct_base::Mem;
use std::alloc::Global;
use std::mem;

/// What reads a table line by line. Before the first row stand comments, of which `# subject: NAME` names
/// what the rows are about. A row is
///
///     == NAME
///     ? OPTION
///     INPUT
///     => EXPECTED
///
/// with any number of lines of the options, of the input and of the expected outcome. An option stands
/// before the input that it governs. White space at the end of the expected outcome does not count.
#[derive(Drop)]
pub struct RowReader {
    alloc: Global,
    subject: String,
    /// The lines that were read.
    count: u64,
    /// The line of the row, or 0 before the first.
    line: u64,
    name: String,
    parts: Vec<Part>,
    part: PartReader,
    expected: String,
    /// Whether the expected outcome is read.
    ending: bool,
}

impl RowReader {
    /// No line was read.
    pub fn new(alloc: Global) -> RowReader {
        RowReader {
            alloc,
            subject: String::new(alloc),
            count: 0,
            line: 0,
            name: String::new(alloc),
            parts: Vec::new(alloc),
            part: PartReader::new(alloc),
            expected: String::new(alloc),
            ending: false,
        }
    }

    /// What the rows are about.
    pub fn subject(&self) -> &str {
        self.subject.as_str()
    }

    /// Takes one more line, and gives the row that it ends.
    pub fn take(&mut self, line: &str) -> Mem<Option<Row>> {
        self.count = self.count.saturating_add(1);
        if let Some(name) = line.strip_prefix("== ") {
            let row = self.end()?;
            self.line = self.count;
            self.name.push_str(name)?;
            return Ok(row);
        }
        if self.line == 0 {
            self.take_comment(line)?;
        } else {
            self.take_inner(line)?;
        }
        Ok(None)
    }

    /// Takes a line before the first row.
    fn take_comment(&mut self, line: &str) -> Mem<()> {
        if let Some(subject) = line.strip_prefix("# subject: ") {
            self.subject = String::new(self.alloc);
            self.subject.push_str(subject)?;
        }
        Ok(())
    }

    /// Takes a line of a row.
    fn take_inner(&mut self, line: &str) -> Mem<()> {
        if self.ending {
            self.expected.push('\n')?;
            self.expected.push_str(line)?;
            return Ok(());
        }
        if let Some(expected) = line.strip_prefix("=>") {
            self.ending = true;
            self.expected
                .push_str(expected.strip_prefix(" ").unwrap_or(expected))?;
            return Ok(());
        }
        match line.strip_prefix("? ") {
            Some(option) => self.take_option(option),
            None => self.part.take_line(line),
        }
    }

    /// Takes an option.
    fn take_option(&mut self, option: &str) -> Mem<()> {
        if self.part.take_option(option)? {
            return Ok(());
        }
        let mut next = String::new(self.alloc);
        next.push_str(option)?;
        self.part.next(self.alloc, next, &mut self.parts)
    }

    /// Ends the last row.
    pub fn end(&mut self) -> Mem<Option<Row>> {
        let alloc = self.alloc;
        self.part.next(alloc, String::new(alloc), &mut self.parts)?;
        self.part = PartReader::new(alloc);
        self.ending = false;
        let name = mem::replace(&mut self.name, String::new(alloc));
        let parts = mem::replace(&mut self.parts, Vec::new(alloc));
        let expected = mem::replace(&mut self.expected, String::new(alloc));
        if self.line == 0 {
            return Ok(None);
        }
        Ok(Some(Row {
            name,
            parts,
            expected,
            line: self.line,
        }))
    }
}
