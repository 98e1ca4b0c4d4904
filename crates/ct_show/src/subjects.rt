//! The subjects of tables.

use crate::{front, rest};
use ct_base::Mem;
use ct_show_rows::Row;
use std::alloc::Global;

/// Appends the outcome of a row of a subject.
pub fn outcome(alloc: Global, subject: &str, row: &Row, out: &mut String) -> Mem<()> {
    if front::outcome(alloc, subject, row, out)? || rest::outcome(alloc, subject, row, out)? {
        return Ok(());
    }
    out.push_str("no such subject")?;
    Ok(())
}
