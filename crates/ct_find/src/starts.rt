//! Where the listing starts.

ghost use Rattle.std.specs.Prelude.{◌≡◌, ◌↔◌, ◌++◌, [], List, IfOk, IsTrue, OnOk, string_bytes, not, take_while};
ghost use Rattle.ct_outside.specs.Paths.{components_of};
ghost use Rattle.ct_find.specs.Order.{IsDeepStart, IsStart, StartsDeep, has_wildcard, is_deep, start_of};
ghost use Rattle.ct_find.specs.Sets.{AreSorted};

use crate::sets::sorted_once;
use ct_base::{Items, Mem, Text};
use ct_outside::{first_component, joined};
use ct_settings::Pattern;
use std::alloc::Global;

/// A folder at which the listing starts, and whether all that lie below are listed too.
#[derive(Debug, Drop)]
pub struct Start {
    pub path: Text,
    pub deep: bool,
}

/// Whether `*` or `?` stands in a component.
fn has_wildcard(component: &str) -> bool
    ensures { result ≡ has_wildcard component.now }
{
    component.bytes().any(|byte| byte == b'*' || byte == b'?')
}

/// Whether a pattern has a wildcard.
fn is_deep(pattern: &str) -> bool
    ensures { result ≡ is_deep pattern.now }
{
    let mut rest = pattern;
    while let Some((component, behind)) = first_component(rest) {
        if has_wildcard(component) {
            return true;
        }
        rest = behind;
    }
    false
}

/// The components of a pattern before the first with a wildcard.
fn fixed_front(alloc: Global, pattern: &str) -> Mem<Items<Text>>
    ensures { IfOk result (λ front. front ≡ take_while (λ component. not (has_wildcard component)) (components_of pattern.now)) }
{
    let mut front = Items::new(alloc);
    let mut rest = pattern;
    while let Some((component, behind)) = first_component(rest) {
        if has_wildcard(component) {
            return Ok(front);
        }
        front.push(Text::copy_of(alloc, component)?)?;
        rest = behind;
    }
    Ok(front)
}

/// The folder named by the components of a pattern before the first with a wildcard.
fn start_of(alloc: Global, pattern: &str) -> Mem<String>
    ensures { IfOk result (λ path. string_bytes path ≡ start_of pattern.now) }
{
    let front = fixed_front(alloc, pattern)?;
    joined(alloc, front.as_slice())
}

/// Whether a pattern adds, has a wildcard and starts at a folder.
fn starts_deep(alloc: Global, pattern: &Pattern, folder: &str) -> Mem<bool>
    ensures { IfOk result (λ deep. IsTrue deep ↔ StartsDeep pattern.now folder.now) }
{
    if !pattern.add || !is_deep(pattern.path.as_str()) {
        return Ok(false);
    }
    let start = start_of(alloc, pattern.path.as_str())?;
    Ok(start.as_str() == folder)
}

/// Whether some adding pattern with a wildcard starts at a folder.
pub fn is_deep_start(alloc: Global, patterns: &[Pattern], folder: &str) -> Mem<bool>
    ensures { IfOk result (λ deep. IsTrue deep ↔ IsDeepStart patterns.now folder.now) }
{
    for pattern in patterns {
        if starts_deep(alloc, pattern, folder)? {
            return Ok(true);
        }
    }
    Ok(false)
}

/// The starts of the adding patterns of a group.
pub fn start_paths(alloc: Global, patterns: &[Pattern]) -> Mem<Items<Text>>
    ensures { IfOk result (λ paths. AreSorted (IsStart patterns.now) paths) }
{
    let mut paths = Vec::new(alloc);
    for pattern in patterns {
        if pattern.add {
            paths.push(start_of(alloc, pattern.path.as_str())?)?;
        }
    }
    sorted_once(alloc, paths)
}
