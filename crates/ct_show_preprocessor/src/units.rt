//! What preprocessing makes of small projects.

use crate::faults::push_fault;
use crate::kinds::{name_of_kind, push_text};
use crate::project::{Project, Shown};
use ct_base::{Fail, Mem, OutOfMemory, Text, Token};
use ct_outside::Finder;
use ct_preproc::{SourceUnit, unit};
use ct_show_rows::Row;
use std::alloc::Global;

/// Appends what is to be shown of the unit of a row, or its refusal.
pub fn unit_outcome(alloc: Global, row: &Row, out: &mut String) -> Mem<()> {
    let project = Project::of_row(alloc, row)?;
    match &project.path {
        Some(path) if project.files.get(path.as_str()).is_some() => {
            push_unit(alloc, &project, path.as_str(), out)
        }
        _ => Ok(out.push_str("no file")?),
    }
}

/// Appends the unit of the file at a path, or its refusal.
fn push_unit(alloc: Global, project: &Project, path: &str, out: &mut String) -> Mem<()> {
    if project.files.get(path).is_none() {
        return Ok(());
    }
    let answer = unit(
        alloc,
        &project.files,
        project.folders.as_slice(),
        &project.heads,
        project.defines.as_slice(),
        path,
        false,
    );
    match answer {
        Ok(unit) => push_shown(alloc, project.shown, &unit, out),
        Err(Fail::Fault(fault)) => push_fault(alloc, &fault, out),
        Err(Fail::OutOfMemory) => Err(OutOfMemory),
    }
}

/// Appends what is to be shown of a unit.
fn push_shown(alloc: Global, shown: Shown, unit: &SourceUnit, out: &mut String) -> Mem<()> {
    match shown {
        Shown::Tokens => push_tokens(unit.tokens.as_slice(), out),
        Shown::Places => push_places(alloc, unit, out),
        Shown::Includes => push_includes(alloc, unit, out),
        Shown::Definitions => push_definitions(unit, out),
        Shown::Count => push_number(alloc, unit.tokens.len() as u64, out),
    }
}

fn push_number(alloc: Global, number: u64, out: &mut String) -> Mem<()> {
    let text = format!(in alloc; "{number}")?;
    out.push_str(text.as_str())?;
    Ok(())
}

fn push_tokens(tokens: &[Token], out: &mut String) -> Mem<()> {
    for token in tokens {
        push_text(token.text.as_slice(), out)?;
        out.push(' ')?;
    }
    Ok(())
}

/// The path of a file of a unit.
fn path_of(files: &[Text], number: u32) -> &str {
    match files.get(number as usize) {
        Some(path) => path.as_str(),
        None => "?",
    }
}

/// Appends each token with its file, its line and its kind.
fn push_places(alloc: Global, unit: &SourceUnit, out: &mut String) -> Mem<()> {
    for token in unit.tokens.as_slice() {
        let path = path_of(unit.files.as_slice(), token.span.file);
        let line = token.span.line;
        let kind = name_of_kind(token.kind);
        let place = format!(in alloc; "{path}:{line} {kind} ")?;
        out.push_str(place.as_str())?;
        push_text(token.text.as_slice(), out)?;
        out.push('\n')?;
    }
    Ok(())
}

/// Appends each include: its depth, its line, its name and its path.
fn push_includes(alloc: Global, unit: &SourceUnit, out: &mut String) -> Mem<()> {
    for include in unit.includes.as_slice() {
        let place = format!(in alloc; "{}:{} ", include.depth, include.line)?;
        out.push_str(place.as_str())?;
        push_text(include.name.as_slice(), out)?;
        out.push_str(" is ")?;
        out.push_str(include.path.as_str())?;
        out.push('\n')?;
    }
    Ok(())
}

/// Appends each definition of a macro: its name and its file, and whether that is a built-in header.
fn push_definitions(unit: &SourceUnit, out: &mut String) -> Mem<()> {
    for definition in unit.definitions.as_slice() {
        push_text(definition.name.as_slice(), out)?;
        out.push_str(" in ")?;
        out.push_str(definition.path.as_str())?;
        if definition.built_in {
            out.push_str(", built in")?;
        }
        out.push('\n')?;
    }
    Ok(())
}
