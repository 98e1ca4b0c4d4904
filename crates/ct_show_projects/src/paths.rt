//! Patterns of folders, and joined paths.

use ct_base::Mem;
use ct_outside::{join_path, matches};
use ct_show_rows::Row;
use std::alloc::Global;

/// The two texts between quotation marks in the name of a row.
fn quoted(row: &Row) -> Option<(&str, &str)> {
    let mut pieces = row.name.as_str().split('"');
    let first = pieces.nth(1)?;
    let second = pieces.nth(1)?;
    Some((first, second))
}

/// Appends whether a pattern matches a folder, or the path that a folder and what follows it give. The name of
/// the row is `pattern "PATTERN", folder "FOLDER"` or `folder "FOLDER", path "PATH"`.
pub fn path_outcome(alloc: Global, row: &Row, out: &mut String) -> Mem<()> {
    match quoted(row) {
        Some((pattern, folder)) if row.name.as_str().starts_with("pattern ") => {
            push_match(pattern, folder, out)
        }
        Some((folder, rest)) => push_joined(alloc, folder, rest, out),
        None => Ok(out.push_str("no answer")?),
    }
}

fn push_match(pattern: &str, folder: &str, out: &mut String) -> Mem<()> {
    if matches(pattern, folder) {
        out.push_str("matches")?;
    } else {
        out.push_str("does not match")?;
    }
    Ok(())
}

fn push_joined(alloc: Global, folder: &str, rest: &str, out: &mut String) -> Mem<()> {
    match join_path(alloc, folder, rest)? {
        Some(path) => {
            out.push('"')?;
            out.push_str(path.as_str())?;
            out.push('"')?;
            Ok(())
        }
        None => Ok(out.push_str("outside the root")?),
    }
}
