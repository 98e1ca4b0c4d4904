//! Trees of files and sinks in memory.

use crate::given::empty_tree;
use crate::sinks::{push_taken, sink_of, write_piece};
use ct_base::Mem;
use ct_outside::{Entry, Found, MemSink, MemTree, Tree, TreeError};
use ct_show_rows::{Row, push_escaped};
use std::alloc::Global;

/// Appends the answers to the commands that are the lines of a row: `put PATH TEXT`, `get PATH`,
/// `write PATH TEXT`, `read PATH LIMIT TEXT`, whose bytes follow the text, `list FOLDER ..`, which lists
/// folders into one list and takes `/` for the root, `sink TEXT`, or `taken`. Behind each command stands its
/// answer.
pub fn file_outcome(alloc: Global, row: &Row, out: &mut String) -> Mem<()> {
    let mut tree = empty_tree(alloc, row)?;
    let mut sink = sink_of(alloc, row)?;
    let input = row.input(alloc)?;
    for line in str::from_utf8(input.as_slice()).unwrap_or("").lines() {
        out.push_str(line.trim())?;
        out.push_str(" -> ")?;
        let mut answered = String::new(alloc);
        answer(alloc, line, &mut tree, &mut sink, &mut answered)?;
        out.push_str(answered.as_str().trim())?;
        out.push('\n')?;
    }
    Ok(())
}

/// A command, and the two words or the word and the text behind it.
fn words_of(line: &str) -> (&str, &str, &str) {
    let (command, rest) = line.split_once(' ').unwrap_or((line, ""));
    let (first, text) = rest.split_once(' ').unwrap_or((rest, ""));
    (command, first, text)
}

fn answer(
    alloc: Global,
    line: &str,
    tree: &mut MemTree,
    sink: &mut MemSink,
    out: &mut String,
) -> Mem<()> {
    let (command, path, text) = words_of(line);
    match command {
        "put" => {
            tree.put(path, text.as_bytes())?;
            Ok(out.push_str("put")?)
        }
        "get" => push_file(tree.get(path), out),
        "write" => push_written(tree.write(alloc, path, text.as_bytes()), out),
        "read" => read(alloc, path, text, tree, out),
        "list" => list(alloc, line, tree, out),
        "sink" => write_piece(alloc, path, sink, out),
        "taken" => push_taken(sink, out),
        _ => Ok(out.push_str("no answer")?),
    }
}

fn push_file(file: Option<&[u8]>, out: &mut String) -> Mem<()> {
    match file {
        Some(bytes) => push_quoted(bytes, out),
        None => Ok(out.push_str("none")?),
    }
}

fn push_quoted(bytes: &[u8], out: &mut String) -> Mem<()> {
    out.push('"')?;
    push_escaped(bytes, out)?;
    out.push('"')?;
    Ok(())
}

fn push_written(answer: Result<(), TreeError>, out: &mut String) -> Mem<()> {
    match answer {
        Ok(()) => Ok(out.push_str("written")?),
        Err(error) => Ok(out.push_str(error_name(error))?),
    }
}

fn error_name(error: TreeError) -> &'static str {
    match error {
        TreeError::Failed => "failed",
        TreeError::OutOfMemory => "out of memory",
    }
}

fn answer_name(answer: Result<Found, TreeError>) -> &'static str {
    match answer {
        Ok(Found::There) => "there",
        Ok(Found::Absent) => "absent",
        Ok(Found::TooLarge) => "too large",
        Err(error) => error_name(error),
    }
}

/// Reads a file behind what stands in a list of bytes.
fn read(alloc: Global, path: &str, words: &str, tree: &mut MemTree, out: &mut String) -> Mem<()> {
    let (limit, front) = words.split_once(' ').unwrap_or((words, ""));
    let mut bytes = Vec::from_slice(alloc, front.as_bytes())?;
    let answer = tree.read(alloc, path, limit.parse().unwrap_or(0), &mut bytes);
    out.push_str(answer_name(answer))?;
    out.push(' ')?;
    push_quoted(bytes.as_slice(), out)
}

/// Lists folders into one list. A folder is shown with `/` behind its name.
fn list(alloc: Global, line: &str, tree: &mut MemTree, out: &mut String) -> Mem<()> {
    let mut entries = Vec::new(alloc);
    for folder in line.split_whitespace().skip(1) {
        let folder = if folder == "/" { "" } else { folder };
        let answer = tree.list(alloc, folder, &mut entries);
        out.push_str(answer_name(answer))?;
        out.push(' ')?;
    }
    let names = names_of(alloc, entries.as_slice())?;
    for name in &names {
        out.push_str(name.as_str())?;
        out.push(' ')?;
    }
    Ok(())
}

/// The names of entries, sorted.
fn names_of(alloc: Global, entries: &[Entry]) -> Mem<Vec<String>> {
    let mut names = Vec::new(alloc);
    for entry in entries {
        let mut name = String::from_str(alloc, entry.name.as_str())?;
        if entry.folder {
            name.push('/')?;
        }
        names.push(name)?;
    }
    names.sort()?;
    Ok(names)
}
