//! The rows of a table, compared or shown.

use crate::subjects::outcome;
use ct_base::Mem;
use ct_show_rows::{Counts, Row, RowReader, push_difference};
use std::alloc::Global;

/// Compares the outcome of a row with the expected one.
fn compare_row(
    alloc: Global,
    path: &str,
    subject: &str,
    row: &Row,
    counts: &mut Counts,
    out: &mut String,
) -> Mem<()> {
    let mut text = String::new(alloc);
    outcome(alloc, subject, row, &mut text)?;
    let differs = push_difference(alloc, path, row, text.as_str(), out)?;
    counts.add(subject, differs)
}

/// Compares the outcomes of the rows of a table.
pub fn compare(
    alloc: Global,
    path: &str,
    text: &str,
    counts: &mut Counts,
    out: &mut String,
) -> Mem<()> {
    let mut reader = RowReader::new(alloc);
    for line in text.lines() {
        if let Some(row) = reader.take(line)? {
            compare_row(alloc, path, reader.subject(), &row, counts, out)?;
        }
    }
    if let Some(row) = reader.end()? {
        compare_row(alloc, path, reader.subject(), &row, counts, out)?;
    }
    Ok(())
}

/// Appends the name and the outcome of a row.
fn show_row(alloc: Global, subject: &str, row: &Row, out: &mut String) -> Mem<()> {
    out.push_str(row.name.as_str())?;
    out.push_str(": ")?;
    outcome(alloc, subject, row, out)?;
    out.push('\n')?;
    Ok(())
}

/// Appends the outcomes of the rows of a table.
pub fn show(alloc: Global, subject: &str, text: &str, out: &mut String) -> Mem<()> {
    let mut reader = RowReader::new(alloc);
    for line in text.lines() {
        if let Some(row) = reader.take(line)? {
            show_row(alloc, subject, &row, out)?;
        }
    }
    if let Some(row) = reader.end()? {
        show_row(alloc, subject, &row, out)?;
    }
    Ok(())
}
