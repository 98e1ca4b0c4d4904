//! How deep a tree nests.

ghost use Rattle.std.specs.Prelude.{◌≡◌, IfOk, ◌∷◌, Some, is_none, if◌then◌else◌};
ghost use Rattle.ct_syntax.specs.Depths.{Room, Left, all_room};
ghost use Rattle.ct_parser_parts.specs.Reach.{Depth, expressions_of, declarators_of, statements_of, both, nested as spec_nested, passed_by, is_within as spec_within, kind_of};
ghost use Rattle.ct_parser_parts.specs.Taking.{Takes, Counted};

use ct_base::{Items, LimitKind, Mem};
use std::alloc::Global;

/// A construct that counts towards a limit of depth.
#[derive(Clone, Copy, Debug, PartialEq, Eq)]
pub enum Nest {
    Expression,
    /// A part of a declarator, a member list, or braces of an initialiser.
    Declarator,
    Statement,
}

/// What is reached in a part as it is read: each entry says that one more construct of its sort is open there than
/// anywhere before.
pub type Reach = Items<Nest>;

/// A number of constructs of each sort.
#[derive(Clone, Copy, Debug, PartialEq, Eq)]
pub struct Counts {
    pub expressions: usize,
    pub declarators: usize,
    pub statements: usize,
}

fn limit_of(nest: Nest) -> LimitKind
    ensures { result ≡ kind_of nest }
{
    match nest {
        Nest::Expression => LimitKind::ExpressionDepth,
        Nest::Declarator => LimitKind::DeclaratorDepth,
        Nest::Statement => LimitKind::StatementDepth,
    }
}

/// One construct less, if there is one.
fn take(counts: &mut Counts, nest: Nest) -> bool
    ensures { Takes counts.old nest result counts.new }
{
    match nest {
        Nest::Expression => {
            if counts.expressions == 0 {
                return false;
            }
            counts.expressions -= 1;
            true
        }
        Nest::Declarator => {
            if counts.declarators == 0 {
                return false;
            }
            counts.declarators -= 1;
            true
        }
        Nest::Statement => {
            if counts.statements == 0 {
                return false;
            }
            counts.statements -= 1;
            true
        }
    }
}

fn counted(steps: &[Nest]) -> Counts
    ensures { Counted result steps.now }
{
    let mut counts = Counts {
        expressions: 0,
        declarators: 0,
        statements: 0,
    };
    for step in steps {
        match step {
            Nest::Expression => counts.expressions += 1,
            Nest::Declarator => counts.declarators += 1,
            Nest::Statement => counts.statements += 1,
        }
    }
    counts
}

/// What is reached in two parts, one behind the other.
pub fn joined(first: Reach, second: &Reach) -> Mem<Reach>
    ensures { IfOk result (λ r. r ≡ both first second.now) }
{
    let mut counts = counted(first.as_slice());
    let mut all = first;
    for step in second.as_slice() {
        if !take(&mut counts, *step) {
            all.push(*step)?;
        }
    }
    Ok(all)
}

/// What is reached in a construct round its parts.
pub fn nested(alloc: Global, nest: Nest, parts: &Reach) -> Mem<Reach>
    ensures { IfOk result (λ r. r ≡ spec_nested nest parts.now) }
{
    let mut counts = Counts {
        expressions: 65,
        declarators: 33,
        statements: 33,
    };
    let mut all = Items::new(alloc);
    if take(&mut counts, nest) {
        all.push(nest)?;
    }
    for step in parts.as_slice() {
        if take(&mut counts, *step) {
            all.push(*step)?;
        }
    }
    Ok(all)
}

/// The limit of depth that is passed first.
pub fn passed(reach: &Reach) -> Option<LimitKind>
    ensures { result ≡ passed_by all_room reach.now }
{
    let mut counts = Counts {
        expressions: 64,
        declarators: 32,
        statements: 32,
    };
    for step in reach.as_slice() {
        if !take(&mut counts, *step) {
            return Some(limit_of(*step));
        }
    }
    None
}

/// Whether no limit of depth is passed.
pub fn is_within(reach: &Reach) -> bool
    ensures { result ≡ spec_within reach.now }
{
    passed(reach).is_none()
}
