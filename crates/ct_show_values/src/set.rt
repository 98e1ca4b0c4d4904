//! What project files set.

use crate::yaml::push_refusal;
use ct_base::{Bytes, Fail, Mem, OutOfMemory};
use ct_settings::{Pattern, ProjectSettings, SettingKind, WhenPtr, settings};
use ct_show_rows::{Row, push_escaped};
use ct_yaml::{Node, read};
use std::alloc::Global;

/// The parts of settings that are shown where a row names none.
const PARTS: [&str; 12] = [
    "root", "prefix", "test", "source", "include", "support", "defines", "mock", "plugins",
    "strict", "when", "count",
];

/// Appends what the project file of a row sets: the part that the option `show` names, or each part on a line.
/// The option `more PART` shows the part once the text behind the option follows the file; and `scalar`
/// takes the text for a tree that is no map. A refusal is shown in place of the part.
pub fn setting_outcome(alloc: Global, row: &Row, out: &mut String) -> Mem<()> {
    let mut file = Vec::new(alloc);
    let mut longer = false;
    for part in &row.parts {
        match part.value_of("more") {
            Some(shown) => {
                longer = true;
                push_longer(alloc, file.as_slice(), part.text.as_slice(), shown, out)?;
            }
            None => file.extend_from_slice(part.text.as_slice())?,
        }
    }
    if longer {
        return Ok(());
    }
    if row.has("scalar") {
        let node = Node::Scalar(Bytes::from_slice(alloc, file.as_slice())?);
        return push_tree(alloc, &node, row.value_of("show"), out);
    }
    push_file(alloc, file.as_slice(), row.value_of("show"), out)
}

/// Appends what a file sets with a text behind it, behind the first line of that text.
fn push_longer(alloc: Global, file: &[u8], more: &[u8], part: &str, out: &mut String) -> Mem<()> {
    let mut text = Vec::from_slice(alloc, file)?;
    text.extend_from_slice(more)?;
    let first = more.split(|byte| *byte == b'\n').next().unwrap_or(more);
    push_escaped(first, out)?;
    out.push_str(" -> ")?;
    push_file(alloc, text.as_slice(), Some(part), out)?;
    out.push('\n')?;
    Ok(())
}

/// Appends what a file sets, or its refusal.
fn push_file(alloc: Global, text: &[u8], part: Option<&str>, out: &mut String) -> Mem<()> {
    match read(alloc, text) {
        Ok(node) => push_tree(alloc, &node, part, out),
        Err(Fail::Fault(fault)) => push_refusal(alloc, &fault, out),
        Err(Fail::OutOfMemory) => Err(OutOfMemory),
    }
}

/// Appends what the tree of a project file sets, or its refusal.
fn push_tree(alloc: Global, node: &Node, part: Option<&str>, out: &mut String) -> Mem<()> {
    match settings(alloc, node) {
        Ok(settings) => push_settings(&settings, part, out),
        Err(Fail::Fault(fault)) => {
            out.push_str(fault.key.as_str())?;
            out.push(' ')?;
            Ok(out.push_str(kind_name(fault.kind))?)
        }
        Err(Fail::OutOfMemory) => Err(OutOfMemory),
    }
}

fn kind_name(kind: SettingKind) -> &'static str {
    match kind {
        SettingKind::NotMap => "NotMap",
        SettingKind::NotText => "NotText",
        SettingKind::NotList => "NotList",
        SettingKind::NotBool => "NotBool",
        SettingKind::BadValue => "BadValue",
    }
}

/// Appends a part of settings, or each on a line.
fn push_settings(settings: &ProjectSettings, part: Option<&str>, out: &mut String) -> Mem<()> {
    if let Some(part) = part {
        return push_part(settings, part, out);
    }
    for part in PARTS {
        out.push_str(part)?;
        out.push_str(": ")?;
        push_part(settings, part, out)?;
        out.push('\n')?;
    }
    Ok(())
}

/// Appends a part of settings, by its name.
fn push_part(settings: &ProjectSettings, part: &str, out: &mut String) -> Mem<()> {
    match part {
        "root" => out.push_str(settings.build_root.as_str())?,
        "prefix" => out.push_str(settings.test_prefix.as_str())?,
        "test" => push_patterns(settings.test.as_slice(), out)?,
        "source" => push_patterns(settings.source.as_slice(), out)?,
        "include" => push_patterns(settings.include.as_slice(), out)?,
        "support" => push_patterns(settings.support.as_slice(), out)?,
        "defines" => push_defines(settings, out)?,
        "mock" => out.push_str(settings.cmock.mock_prefix.as_str())?,
        "plugins" => push_plugins(settings, out)?,
        "strict" => out.push_str(truth_name(settings.cmock.strict))?,
        "when" => out.push_str(when_ptr_name(settings.cmock.when_ptr))?,
        "count" => out.push_str(truth_name(settings.cmock.callback_count))?,
        _ => out.push_str("accepted")?,
    }
    Ok(())
}

/// Appends patterns, each with `+` or `-` before it and a comma behind it.
fn push_patterns(patterns: &[Pattern], out: &mut String) -> Mem<()> {
    for pattern in patterns {
        out.push(if pattern.add { '+' } else { '-' })?;
        out.push_str(pattern.path.as_str())?;
        out.push(',')?;
    }
    Ok(())
}

fn push_defines(settings: &ProjectSettings, out: &mut String) -> Mem<()> {
    for define in settings.defines.as_slice() {
        push_escaped(define.name.as_slice(), out)?;
        out.push('=')?;
        push_escaped(define.text.as_slice(), out)?;
        out.push(',')?;
    }
    Ok(())
}

fn push_plugins(settings: &ProjectSettings, out: &mut String) -> Mem<()> {
    let cmock = &settings.cmock;
    let plugins = [
        (cmock.ignore, "ignore,"),
        (cmock.ignore_arg, "ignore_arg,"),
        (cmock.array, "array,"),
        (cmock.callback, "callback,"),
        (cmock.return_thru_ptr, "return_thru_ptr,"),
        (cmock.expect_any_args, "expect_any_args,"),
    ];
    for (on, name) in plugins {
        if on {
            out.push_str(name)?;
        }
    }
    Ok(())
}

fn truth_name(truth: bool) -> &'static str {
    if truth { "true" } else { "false" }
}

fn when_ptr_name(when_ptr: WhenPtr) -> &'static str {
    match when_ptr {
        WhenPtr::CompareData => "data",
        WhenPtr::ComparePtr => "pointers",
        WhenPtr::Smart => "smart",
    }
}
