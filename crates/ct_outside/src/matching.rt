//! Patterns of folders.

ghost use Rattle.std.specs.Prelude.{◌≡◌, ℕ, ◌<◌, ◌≤◌, ◌↔◌, false, List, [], ◌∷◌, IsTrue, MatchOption, length};
ghost use Rattle.ct_outside.specs.Matching.{FitsByte, MatchesFolder, MatchesName, double_star, is_double_star, is_star};
ghost use Rattle.ct_outside.specs.Skipping.{IsSkipped, MatchesEnd};
ghost use Rattle.ct_outside.specs.Paths.{components_of};

use crate::paths::first_component;

/// Whether a byte of a pattern is no `*` and fits a byte.
fn fits(part: u8, byte: u8) -> bool
    ensures { IsTrue result ↔ ((is_star part ≡ false) × FitsByte part byte) }
{
    part != b'*' && (part == b'?' || part == byte)
}

/// What is left of a pattern and a name behind the bytes that match one to one, up to a `*`.
fn skip_bytes<'a>(pattern: &'a [u8], name: &'a [u8]) -> (&'a [u8], &'a [u8])
    ensures skipped { IsSkipped is_star FitsByte pattern.now name.now result.0.now result.1.now }
    ensures shorter { (length result.0.now ≤ length pattern.now) × (length result.1.now ≤ length name.now) }
{
    let mut parts = pattern;
    let mut bytes = name;
    loop {
        let Some((part, more_parts)) = parts.split_first() else {
            return (parts, bytes);
        };
        let Some((byte, more_bytes)) = bytes.split_first() else {
            return (parts, bytes);
        };
        if !fits(*part, *byte) {
            return (parts, bytes);
        }
        parts = more_parts;
        bytes = more_bytes;
    }
}

/// What stands behind a `*`, where a pattern begins with one.
fn behind_star(pattern: &[u8]) -> Option<&[u8]>
    ensures { MatchOption result ((part : ℕ) (more : List ℕ) → pattern.now ≡ part ∷ more → is_star part ≡ false)
        (λ behind. pattern.now ≡ 42 ∷ behind.now) }
{
    match pattern.split_first() {
        Some((b'*', behind)) => Some(behind),
        _ => None,
    }
}

fn are_empty(pattern: &[u8], name: &[u8]) -> bool
    ensures { IsTrue result ↔ ((pattern.now ≡ []) × (name.now ≡ [])) }
{
    pattern.is_empty() && name.is_empty()
}

/// Whether what stands behind a `*` matches some end of a name.
fn matches_end_of_name(pattern: &[u8], name: &[u8]) -> bool
    ensures { IsTrue result ↔ MatchesEnd is_star FitsByte pattern.now name.now }
{
    let mut behind = pattern;
    let mut from = name;
    loop {
        let (parts, bytes) = skip_bytes(behind, from);
        if let Some(more) = behind_star(parts) {
            behind = more;
            from = bytes;
        } else if are_empty(parts, bytes) {
            return true;
        } else if let Some((_, more)) = from.split_first() {
            from = more;
        } else {
            return false;
        }
    }
}

/// Whether a component of a pattern matches a component of a folder.
fn matches_name(pattern: &[u8], name: &[u8]) -> bool
    ensures { IsTrue result ↔ MatchesName pattern.now name.now }
{
    let (parts, bytes) = skip_bytes(pattern, name);
    match behind_star(parts) {
        Some(behind) => matches_end_of_name(behind, bytes),
        None => are_empty(parts, bytes),
    }
}

/// What is left of a pattern and a folder behind the components that match one to one, up to a
/// `**`.
fn skip_components<'a>(pattern: &'a str, folder: &'a str) -> (&'a str, &'a str)
    ensures skipped { IsSkipped is_double_star MatchesName (components_of pattern.now) (components_of folder.now)
        (components_of result.0.now) (components_of result.1.now) }
    ensures shorter { (length result.0.now ≤ length pattern.now) × (length result.1.now ≤ length folder.now) }
{
    let mut parts = pattern;
    let mut names = folder;
    loop {
        let Some((part, more_parts)) = first_component(parts) else {
            return (parts, names);
        };
        let Some((name, more_names)) = first_component(names) else {
            return (parts, names);
        };
        if part == "**" {
            return (parts, names);
        }
        if !matches_name(part.as_bytes(), name.as_bytes()) {
            return (parts, names);
        }
        parts = more_parts;
        names = more_names;
    }
}

/// What stands behind a `**`, where a pattern begins with one.
fn behind_double_star(pattern: &str) -> Option<&str>
    ensures { MatchOption result
        ((part : List ℕ) (more : List (List ℕ)) → components_of pattern.now ≡ part ∷ more → is_double_star part ≡ false)
        (λ behind. (components_of pattern.now ≡ double_star ∷ components_of behind.now) × (length behind.now < length pattern.now)) }
{
    match first_component(pattern) {
        Some(("**", behind)) => Some(behind),
        _ => None,
    }
}

fn have_no_component(pattern: &str, folder: &str) -> bool
    ensures { IsTrue result ↔ ((components_of pattern.now ≡ []) × (components_of folder.now ≡ [])) }
{
    first_component(pattern).is_none() && first_component(folder).is_none()
}

/// Whether what stands behind a `**` matches some end of a folder.
fn matches_end_of_folder(pattern: &str, folder: &str) -> bool
    ensures { IsTrue result ↔ MatchesEnd is_double_star MatchesName (components_of pattern.now) (components_of folder.now) }
{
    let mut behind = pattern;
    let mut from = folder;
    loop {
        let (parts, names) = skip_components(behind, from);
        if let Some(more) = behind_double_star(parts) {
            behind = more;
            from = names;
        } else if have_no_component(parts, names) {
            return true;
        } else if let Some((_, more)) = first_component(from) {
            from = more;
        } else {
            return false;
        }
    }
}

/// Whether a pattern matches a folder, component by component: `*` matches any run of bytes in a
/// component, `?` one byte, and a component `**` no component, one or more.
pub fn matches(pattern: &str, folder: &str) -> bool
    ensures { IsTrue result ↔ MatchesFolder pattern.now folder.now }
{
    let (parts, names) = skip_components(pattern, folder);
    match behind_double_star(parts) {
        Some(behind) => matches_end_of_folder(behind, names),
        None => have_no_component(parts, names),
    }
}
