//! Counts of rows, and the rows whose outcomes differ.

use crate::row::Row;
use ct_base::Mem;
use std::alloc::Global;

/// How many rows a subject has, and how many of them differ.
#[derive(Drop)]
struct Count {
    subject: String,
    rows: u64,
    differing: u64,
}

/// Counts of the rows of subjects, in the order in which the subjects appear.
#[derive(Drop)]
pub struct Counts {
    alloc: Global,
    counts: Vec<Count>,
}

impl Counts {
    /// No row was counted.
    pub fn new(alloc: Global) -> Counts {
        Counts {
            alloc,
            counts: Vec::new(alloc),
        }
    }

    /// Counts a row of a subject.
    pub fn add(&mut self, subject: &str, differs: bool) -> Mem<()> {
        for count in self.counts.iter_mut() {
            if count.subject.as_str() == subject {
                count.add(differs);
                return Ok(());
            }
        }
        let mut name = String::new(self.alloc);
        name.push_str(subject)?;
        let mut count = Count {
            subject: name,
            rows: 0,
            differing: 0,
        };
        count.add(differs);
        self.counts.push(count)?;
        Ok(())
    }

    /// Appends a line for each subject.
    pub fn push_lines(&self, out: &mut String) -> Mem<()> {
        for count in &self.counts {
            count.push_line(self.alloc, out)?;
        }
        Ok(())
    }
}

impl Count {
    fn add(&mut self, differs: bool) {
        self.rows = self.rows.saturating_add(1);
        if differs {
            self.differing = self.differing.saturating_add(1);
        }
    }

    fn push_line(&self, alloc: Global, out: &mut String) -> Mem<()> {
        let subject = self.subject.as_str();
        let line = format!(in alloc;
            "{subject}: {} rows, {} differ\n",
            self.rows, self.differing
        )?;
        out.push_str(line.as_str())?;
        Ok(())
    }
}

/// Appends a row whose outcome is not the expected one, and says whether it is such a row. White space at
/// either end of the two texts does not count.
pub fn push_difference(
    alloc: Global,
    path: &str,
    row: &Row,
    outcome: &str,
    out: &mut String,
) -> Mem<bool> {
    let expected = row.expected.as_str().trim();
    let outcome = outcome.trim();
    if expected == outcome {
        return Ok(false);
    }
    let place = format!(in alloc; "{path}:{}: {}\n", row.line, row.name.as_str())?;
    out.push_str(place.as_str())?;
    out.push_str("  expected: ")?;
    out.push_str(expected)?;
    out.push_str("\n  outcome:  ")?;
    out.push_str(outcome)?;
    out.push('\n')?;
    Ok(true)
}
