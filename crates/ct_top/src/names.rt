//! The names of test files.

ghost use Rattle.std.specs.Prelude.{◌≡◌, [], ◌∷◌, List, ℕ, MatchOption, OnOk, map};
ghost use Rattle.ct_base.specs.Answers.{IfFault};
ghost use Rattle.ct_outside.specs.Files.{EachOnce};
ghost use Rattle.ct_top.specs.Project as spec;

use crate::refusing::same_test;
use ct_base::{Fail, Out, Refusal, Text, first_of};
use std::alloc::Global;
use std::collections::BTreeSet;

/// What stands behind the last slash of a path.
#[tactic(auto, using(crate::proofs::NameLemmas::own_name))]
pub fn base_name(path: &[u8]) -> &[u8]
    ensures { result.now ≡ spec.base_name path.now }
{
    let mut name = path;
    let mut rest = path;
    while let Some((byte, more)) = first_of(rest) {
        if byte == b'/' {
            name = more;
        }
        rest = more;
    }
    name
}

/// Refuses the first of these paths whose base name an earlier one has.
pub fn check_names(alloc: Global, paths: &[Text]) -> Out<(), Refusal>
    ensures ok { OnOk result (EachOnce (map spec.base_name paths.now)) }
    ensures refused { IfFault result (λ refusal. (path : List ℕ) × spec.IsSameTest paths.now path × (refusal ≡ spec.same_test path)) }
{
    let mut names = BTreeSet::new(alloc);
    for path in paths {
        match names.insert(base_name(path.as_str().as_bytes())) {
            Ok(true) => {}
            Ok(false) => return Err(Fail::Fault(same_test(alloc, path.as_str())?)),
            Err(_) => return Err(Fail::OutOfMemory),
        }
    }
    Ok(())
}
