//! The search for the files of a project.

use crate::given::tree_of;
use crate::shown::{push_line, push_number};
use crate::watched::Watched;
use crate::wide::Wide;
use ct_base::{Fail, Items, LimitKind, Mem, Out, Text};
use ct_find::{Files, FindFault, find};
use ct_outside::Finder;
use ct_settings::{Cmock, Pattern, ProjectSettings, WhenPtr};
use ct_show_rows::{Row, push_escaped};
use std::alloc::Global;

/// Appends what the search over the files of a row finds. The option `patterns` has a pattern on each line:
/// the letter of its group, `t`, `s`, `i` or `p` for test, source, include and support folders, and then `+`
/// before a pattern that adds or `-` before one that removes. With `show calls` the listed folders and the read
/// files follow, and with `text PATH` the text of a file. The option `lists` makes a tree with many files.
pub fn search_outcome(alloc: Global, row: &Row, out: &mut String) -> Mem<()> {
    let settings = settings_of(alloc, row)?;
    if row.has("lists") {
        let mut tree = Wide::of_row(alloc, row)?;
        push_answer(row, find(alloc, &mut tree, &settings), out)?;
        push_number(alloc, tree.lists, out)?;
        out.push_str(" lists, ")?;
        push_number(alloc, tree.reads, out)?;
        return push_line(" reads", out);
    }
    let mut tree = Watched::new(alloc, tree_of(alloc, row)?, 0);
    push_answer(row, find(alloc, &mut tree, &settings), out)?;
    if row.has("show calls") {
        push_entry("listed: ", tree.listed.as_str(), out)?;
        push_entry("read: ", tree.read.as_str(), out)?;
    }
    Ok(())
}

/// Appends a word and a text on a line.
fn push_entry(word: &str, text: &str, out: &mut String) -> Mem<()> {
    out.push_str(word)?;
    push_line(text, out)
}

/// The patterns of a group.
fn group(alloc: Global, patterns: &str, letter: char) -> Mem<Items<Pattern>> {
    let mut group = Items::new(alloc);
    for line in patterns.lines() {
        if let Some(signed) = line.strip_prefix(letter) {
            let add = signed.starts_with('+');
            let path = signed.strip_prefix('-').unwrap_or(signed);
            let path = Text::copy_of(alloc, path.strip_prefix('+').unwrap_or(path))?;
            group.push(Pattern { add, path })?;
        }
    }
    Ok(group)
}

/// The lines of the option `patterns`.
fn patterns_of(row: &Row) -> &str {
    for part in &row.parts {
        if part.value_of("patterns").is_some() {
            return str::from_utf8(part.text.as_slice()).unwrap_or("");
        }
    }
    ""
}

/// The settings of a project with the patterns of a row.
fn settings_of(alloc: Global, row: &Row) -> Mem<ProjectSettings> {
    let patterns = patterns_of(row);
    Ok(ProjectSettings {
        build_root: Text::copy_of(alloc, "build")?,
        test_prefix: Text::copy_of(alloc, "test_")?,
        test: group(alloc, patterns, 't')?,
        source: group(alloc, patterns, 's')?,
        include: group(alloc, patterns, 'i')?,
        support: group(alloc, patterns, 'p')?,
        defines: Items::new(alloc),
        cmock: cmock(alloc)?,
    })
}

fn cmock(alloc: Global) -> Mem<Cmock> {
    Ok(Cmock {
        mock_prefix: Text::copy_of(alloc, "mock_")?,
        ignore: false,
        ignore_arg: false,
        array: false,
        callback: false,
        return_thru_ptr: false,
        expect_any_args: false,
        strict: false,
        when_ptr: WhenPtr::Smart,
        callback_count: true,
    })
}

/// Appends what was found, or why the search ended.
fn push_answer(row: &Row, answer: Out<Files, FindFault>, out: &mut String) -> Mem<()> {
    match answer {
        Ok(found) => push_found(row, &found, out),
        Err(Fail::OutOfMemory) => push_line("out of memory", out),
        Err(Fail::Fault(FindFault::Read)) => push_line("a call of the tree failed", out),
        Err(Fail::Fault(FindFault::Limit { kind, path })) => {
            out.push_str("Limit ")?;
            out.push_str(limit_name(kind))?;
            out.push(' ')?;
            push_line(path.as_str(), out)
        }
    }
}

fn limit_name(kind: LimitKind) -> &'static str {
    match kind {
        LimitKind::FileBytes => "FileBytes",
        LimitKind::AllBytes => "AllBytes",
        LimitKind::Files => "Files",
        LimitKind::Entries => "Entries",
        LimitKind::FolderDepth => "FolderDepth",
        _ => "of another kind",
    }
}

/// Appends the lists of files, or that files were found where a row shows calls.
fn push_found(row: &Row, found: &Files, out: &mut String) -> Mem<()> {
    if row.has("show") {
        return push_line("found", out);
    }
    push_items("tests: ", &found.tests, out)?;
    push_items("sources: ", &found.sources, out)?;
    push_items("headers: ", &found.headers, out)?;
    push_items("folders: ", &found.folders, out)?;
    for part in &row.parts {
        if let Some(path) = part.value_of("text") {
            push_file_text(found, path, out)?;
        }
    }
    Ok(())
}

/// Appends the items of a list, each behind a bar.
fn push_items(word: &str, items: &Items<Text>, out: &mut String) -> Mem<()> {
    out.push_str(word)?;
    for item in items.as_slice() {
        out.push('|')?;
        out.push_str(item.as_str())?;
    }
    out.push('\n')?;
    Ok(())
}

/// Appends the text of a file.
fn push_file_text(found: &Files, path: &str, out: &mut String) -> Mem<()> {
    out.push_str(path)?;
    out.push_str(" -> ")?;
    match found.get(path) {
        Some(text) => push_escaped(text, out)?,
        None => out.push_str("none")?,
    }
    out.push('\n')?;
    Ok(())
}
