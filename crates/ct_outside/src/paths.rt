//! Paths by their components.

ghost use Rattle.std.specs.Prelude.{◌≡◌, ◌+◌, ◌<◌, ◌≤◌, ◌↔◌, [], ◌∷◌, IfOk, IfSome, IsNone, OnOk, MatchOption, length, string_bytes, vec_len};
ghost use Rattle.std.specs.Bool.{MatchBool};
ghost use Rattle.ct_outside.specs.Paths.{IsJoined, Leads, LeavesRoot, Steps, components_of, joined_components, parent, path_of};

use ct_base::{Mem, Text};
use std::alloc::Global;

/// The first component of a path and what follows it, where the path has a component.
pub fn first_component(path: &str) -> Option<(&str, &str)>
    ensures { MatchOption result (components_of path.now ≡ []) (λ found.
        (components_of path.now ≡ found.0.now ∷ components_of found.1.now) × (length found.1.now < length path.now)) }
{
    let mut rest = path;
    while let Some((piece, behind)) = rest.split_once('/') {
        if !piece.is_empty() {
            return Some((piece, behind));
        }
        rest = behind;
    }
    if rest.is_empty() {
        None
    } else {
        Some((rest, ""))
    }
}

/// Follows a component from a folder, whose components are given. False where it is `..` and the
/// folder is the root.
fn step(alloc: Global, component: &str, folder: &mut Vec<Text>) -> Mem<bool>
    ensures { IfOk result (λ inside. MatchBool inside (Steps component.now folder.old.items folder.new.items)
        ((component.now ≡ parent) × (folder.old.items ≡ []))) }
{
    match component {
        "." => Ok(true),
        ".." => Ok(folder.pop().is_some()),
        _ => {
            folder.push(Text::copy_of(alloc, component)?)?;
            Ok(true)
        }
    }
}

/// Follows the components of a path from a folder. False where a `..` leaves the root.
fn follow(alloc: Global, path: &str, folder: &mut Vec<Text>) -> Mem<bool>
    ensures { IfOk result (λ inside. MatchBool inside (Leads (components_of path.now) folder.old.items folder.new.items)
        (LeavesRoot (components_of path.now) folder.old.items)) }
{
    let mut rest = path;
    while let Some((component, behind)) = first_component(rest) {
        if !step(alloc, component, folder)? {
            return Ok(false);
        }
        rest = behind;
    }
    Ok(true)
}

/// The path with these components.
pub fn joined(alloc: Global, components: &[Text]) -> Mem<String>
    ensures { IfOk result (λ path. string_bytes path ≡ path_of components.now) }
{
    let mut path = String::new(alloc);
    for (place, component) in components.iter().enumerate() {
        if place > 0 {
            path.push('/')?;
        }
        path.push_str(component.as_str())?;
    }
    Ok(path)
}

/// Joins the path of a folder and what follows it, and removes `.` and `..`. None exactly where a
/// `..` would leave the root.
pub fn join_path(alloc: Global, folder: &str, rest: &str) -> Mem<Option<String>>
    ensures path { IfOk result (λ found. IfSome found (λ path. IsJoined folder.now rest.now (string_bytes path))) }
    ensures root { IfOk result (λ found. IsNone found ↔ LeavesRoot (joined_components folder.now rest.now) []) }
{
    let mut components = Vec::new(alloc);
    if !follow(alloc, folder, &mut components)? {
        return Ok(None);
    }
    if !follow(alloc, rest, &mut components)? {
        return Ok(None);
    }
    Ok(Some(joined(alloc, components.as_slice())?))
}
