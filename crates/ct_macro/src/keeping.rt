//! What a `defined` keeps in a condition.

ghost use Rattle.std.specs.Prelude.{◌≡◌, ◌++◌, IfOk, OnOk, take, drop};
ghost use Rattle.ct_macro.specs.Expansion as spec;

use ct_base::{Items, Mem};
use ct_macro_call::{Marked, Source, is_name, is_open, is_operator};

/// Whether a name comes next.
fn begins_with_name(rest: &Source<Marked>) -> bool
    ensures { result ≡ spec.begins_with_name rest.now }
{
    match rest.peek() {
        Some(next) => is_name(&next.token),
        None => false,
    }
}

/// How many tokens stay as they stand behind a `defined` in a condition.
fn modified(rest: &mut Source<Marked>) -> Mem<usize>
    ensures { IfOk result (λ count. (count ≡ spec.modified rest.old) × (rest.new ≡ rest.old)) }
{
    let Some(first) = rest.next() else {
        return Ok(0);
    };
    let in_parentheses = is_open(&first.token) && begins_with_name(rest);
    let count = if is_name(&first.token) {
        1
    } else if in_parentheses {
        3
    } else {
        0
    };
    rest.push(first)?;
    Ok(count)
}

/// How many tokens stay behind a token that stays.
pub fn stay_behind(condition: bool, first: &Marked, rest: &mut Source<Marked>) -> Mem<usize>
    ensures { IfOk result (λ count. (count ≡ spec.stay_behind condition first.now rest.old) × (rest.new ≡ rest.old)) }
{
    if condition && is_operator(&first.token) {
        return modified(rest);
    }
    Ok(0)
}

/// Moves so many of the next tokens, or all.
pub fn move_front(from: &mut Source<Marked>, into: &mut Items<Marked>, count: usize) -> Mem<()>
    ensures { OnOk result ((into.new ≡ into.old ++ take count from.old) × (from.new ≡ drop count from.old)) }
{
    let mut left = count;
    while left > 0 {
        let Some(token) = from.next() else {
            return Ok(());
        };
        into.push(token)?;
        left -= 1;
    }
    Ok(())
}
