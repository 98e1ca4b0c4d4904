//! The starts of the groups.

ghost use Rattle.std.specs.Prelude.{◌≡◌, ◌++◌, List, IfOk, OnOk};
ghost use Rattle.ct_find.specs.declared.starts.Start.{Start};
ghost use Rattle.ct_find.specs.Order.{AreStarts, IsWhole};

use crate::starts::{Start, is_deep_start, start_paths};
use ct_base::{Mem, Text};
use ct_settings::{Pattern, ProjectSettings};
use std::alloc::Global;

/// Appends the starts of a group, sorted.
fn add_starts(alloc: Global, patterns: &[Pattern], into: &mut Vec<Start>) -> Mem<()>
    ensures { OnOk result ((group : List Start) × (into.new.items ≡ into.old.items ++ group) × AreStarts patterns.now group) }
{
    let paths = start_paths(alloc, patterns)?;
    for path in paths.as_slice() {
        let deep = is_deep_start(alloc, patterns, path.as_str())?;
        let path = Text::copy_of(alloc, path.as_str())?;
        into.push(Start { path, deep })?;
    }
    Ok(())
}

/// The starts of all groups: test, source, include, support.
pub fn starts(alloc: Global, settings: &ProjectSettings) -> Mem<Vec<Start>>
    ensures { IfOk result (λ starts. IsWhole settings.now starts.items) }
{
    let mut starts = Vec::new(alloc);
    add_starts(alloc, settings.test.as_slice(), &mut starts)?;
    add_starts(alloc, settings.source.as_slice(), &mut starts)?;
    add_starts(alloc, settings.include.as_slice(), &mut starts)?;
    add_starts(alloc, settings.support.as_slice(), &mut starts)?;
    Ok(starts)
}
