//! The files and the failing calls that a row gives.

use ct_base::Mem;
use ct_outside::{MemTree, TreeCall};
use ct_show_rows::{Part, Row};
use std::alloc::Global;

/// The call of a tree that words name: its kind and its number.
fn call_named(words: &str) -> Option<(TreeCall, u64)> {
    let (kind, number) = words.split_once(' ')?;
    let number = number.parse().ok()?;
    match kind {
        "list" => Some((TreeCall::List, number)),
        "read" => Some((TreeCall::Read, number)),
        "write" => Some((TreeCall::Write, number)),
        _ => None,
    }
}

/// The calls of the tree that fail, by options as `fail read 2`.
fn failing_calls(alloc: Global, row: &Row) -> Mem<Vec<(TreeCall, u64)>> {
    let mut failing = Vec::new(alloc);
    for part in &row.parts {
        if let Some(call) = part.value_of("fail").and_then(call_named) {
            failing.push(call)?;
        }
    }
    Ok(failing)
}

/// The writes of the sink that fail, by options as `fail output 2`.
pub fn failing_writes(alloc: Global, row: &Row) -> Mem<Vec<u64>> {
    let mut failing = Vec::new(alloc);
    for part in &row.parts {
        if let Some(number) = part.value_of("fail output") {
            failing.push(number.parse().unwrap_or(0))?;
        }
    }
    Ok(failing)
}

/// A tree without files, which fails at the calls that a row names.
pub fn empty_tree(alloc: Global, row: &Row) -> Mem<MemTree> {
    Ok(MemTree::new(alloc, failing_calls(alloc, row)?))
}

/// The tree of a row. Its files are those of the options `file PATH`, whose text follows; `files`, which are
/// named on a line each and have one byte; and `many COUNT FRONT BACK BYTES`, whose paths have a number from
/// 10000 on between these two and which have so many blanks.
pub fn tree_of(alloc: Global, row: &Row) -> Mem<MemTree> {
    let mut tree = empty_tree(alloc, row)?;
    for part in &row.parts {
        take(alloc, part, &mut tree)?;
    }
    Ok(tree)
}

fn take(alloc: Global, part: &Part, tree: &mut MemTree) -> Mem<()> {
    if let Some(path) = part.value_of("file") {
        return tree.put(path, part.text.as_slice());
    }
    if part.value_of("files").is_some() {
        return put_named(part.text.as_slice(), tree);
    }
    match part.value_of("many") {
        Some(words) => put_many(alloc, words, tree),
        None => Ok(()),
    }
}

fn put_named(text: &[u8], tree: &mut MemTree) -> Mem<()> {
    for path in str::from_utf8(text).unwrap_or("").lines() {
        tree.put(path, "x".as_bytes())?;
    }
    Ok(())
}

fn put_many(alloc: Global, words: &str, tree: &mut MemTree) -> Mem<()> {
    let words: Vec<&str> = words.split_whitespace().collect(alloc)?;
    match words.as_slice() {
        [count, front, back, bytes] => {
            let mut text = Vec::new(alloc);
            text.resize(bytes.parse().unwrap_or(0), b' ')?;
            let count = count.parse().unwrap_or(0);
            put_numbered(alloc, count, front, back, text.as_slice(), tree)
        }
        _ => Ok(()),
    }
}

fn put_numbered(
    alloc: Global,
    count: u32,
    front: &str,
    back: &str,
    text: &[u8],
    tree: &mut MemTree,
) -> Mem<()> {
    for number in 0..count {
        let number = number.saturating_add(10000);
        let path = format!(in alloc; "{front}{number}{back}")?;
        tree.put(path.as_str(), text)?;
    }
    Ok(())
}
