//! What the parser makes of a text.

use crate::items::push_item;
use crate::places::push_places;
use ct_base::{Fail, LimitKind, Mem, OutOfMemory};
use ct_parser::{SyntaxFault, parse};
use ct_print::print;
use ct_show_preprocessor::words_of;
use ct_show_rows::Row;
use ct_syntax::Tree;
use std::alloc::Global;

/// Appends what is shown of the tree of a row, or its refusal. By the option `show` these are the `places` of
/// the declarations and of what stands in functions, the `count` of declarations, or the outline of each.
pub fn tree_outcome(alloc: Global, row: &Row, out: &mut String) -> Mem<()> {
    match tree_of(alloc, row, out)? {
        Some(tree) => match row.value_of("show") {
            Some("places") => push_places(alloc, &tree, out),
            Some("count") => push_count(alloc, &tree, out),
            _ => push_tree(alloc, &tree, out),
        },
        None => Ok(()),
    }
}

/// Appends the text in which the tree of a row is printed, behind the value of the option `behind`; or its
/// refusal.
pub fn printed_outcome(alloc: Global, row: &Row, out: &mut String) -> Mem<()> {
    let Some(tree) = tree_of(alloc, row, out)? else {
        return Ok(());
    };
    let before = row.value_of("behind").unwrap_or("");
    let mut text = Vec::from_slice(alloc, before.as_bytes())?;
    print(alloc, &tree, &mut text)?;
    match str::from_utf8(text.as_slice()) {
        Ok(text) => Ok(out.push_str(text)?),
        Err(_) => Ok(out.push_str("no text")?),
    }
}

/// The tree of the text of a row; the refusal is appended.
fn tree_of(alloc: Global, row: &Row, out: &mut String) -> Mem<Option<Tree>> {
    let text = row.input(alloc)?;
    let Some(words) = words_of(alloc, text.as_slice())? else {
        out.push_str("an open comment")?;
        return Ok(None);
    };
    match parse(alloc, words.as_slice()) {
        Ok(tree) => Ok(Some(tree)),
        Err(Fail::Fault(fault)) => {
            push_fault(alloc, fault, out)?;
            Ok(None)
        }
        Err(Fail::OutOfMemory) => Err(OutOfMemory),
    }
}

fn push_count(alloc: Global, tree: &Tree, out: &mut String) -> Mem<()> {
    let count = format!(in alloc; "{}", tree.items.len())?;
    out.push_str(count.as_str())?;
    Ok(())
}

/// Appends the outline of each external declaration on a line.
fn push_tree(alloc: Global, tree: &Tree, out: &mut String) -> Mem<()> {
    for item in &tree.items {
        let mut line = String::new(alloc);
        push_item(item, &mut line)?;
        out.push_str(line.as_str().trim())?;
        out.push('\n')?;
    }
    Ok(())
}

/// Appends a refusal: its line, and the limit that a deeper tree passes.
fn push_fault(alloc: Global, fault: SyntaxFault, out: &mut String) -> Mem<()> {
    let line = fault.span.line;
    let kind = match fault.limit {
        None => "Syntax",
        Some(LimitKind::ExpressionDepth) => "Limit ExpressionDepth",
        Some(LimitKind::DeclaratorDepth) => "Limit DeclaratorDepth",
        Some(LimitKind::StatementDepth) => "Limit StatementDepth",
        Some(_) => "Limit",
    };
    let text = format!(in alloc; "{line}: {kind}")?;
    out.push_str(text.as_str())?;
    Ok(())
}
