//! Texts of project files as trees.

use ct_base::{Fail, Mem, OutOfMemory};
use ct_show_rows::{Row, push_escaped};
use ct_yaml::{Node, YamlFault, read};
use std::alloc::Global;

/// Appends the tree of the text of a row: `<scalar>`, `[item,item,]` and `{key=value;key=value;}`; or the line
/// that is refused.
pub fn yaml_outcome(alloc: Global, row: &Row, out: &mut String) -> Mem<()> {
    let text = row.input(alloc)?;
    match read(alloc, text.as_slice()) {
        Ok(node) => push_node(&node, out),
        Err(Fail::Fault(fault)) => push_refusal(alloc, &fault, out),
        Err(Fail::OutOfMemory) => Err(OutOfMemory),
    }
}

/// Appends the line that is refused.
pub fn push_refusal(alloc: Global, fault: &YamlFault, out: &mut String) -> Mem<()> {
    let line = format!(in alloc; "line {}", fault.line)?;
    out.push_str(line.as_str())?;
    Ok(())
}

fn push_node(node: &Node, out: &mut String) -> Mem<()> {
    match node {
        Node::Scalar(text) => {
            out.push('<')?;
            push_escaped(text.as_slice(), out)?;
            out.push('>')?;
        }
        Node::List(items) => {
            out.push('[')?;
            for item in items.as_slice() {
                push_node(item, out)?;
                out.push(',')?;
            }
            out.push(']')?;
        }
        Node::Map(entries) => {
            out.push('{')?;
            for entry in entries.as_slice() {
                push_escaped(entry.key.as_slice(), out)?;
                out.push('=')?;
                push_node(&entry.value, out)?;
                out.push(';')?;
            }
            out.push('}')?;
        }
    }
    Ok(())
}
