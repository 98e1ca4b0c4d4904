//! Values that stand on one line, read from the front of bytes.

ghost use Rattle.std.specs.Prelude.{map};
ghost use Rattle.ct_yaml.specs.Gives.{Gives};
ghost use Rattle.ct_yaml.specs.Reading as reading;
ghost use Rattle.ct_yaml.specs.declared.node.Node.TheVariants.{Scalar};

use crate::chars::{Unspelled, skip};
use crate::mark::Inline;
use crate::node::Node;
use crate::scalars::{flow_scalar, scalar};
use ct_base::{Bytes, Fail, Items, Out, first_of};
use std::alloc::Global;

/// The next scalar of a flow list, whether it is the last, and the bytes behind the comma or
/// bracket that follows it.
#[tactic(auto, unfolding(crate::specs::Reading::element_at))]
fn element(alloc: Global, bytes: &[u8]) -> Out<(Bytes, bool, &[u8]), Unspelled>
    ensures { Gives (λ found. (found.0, found.1, found.2.now)) result (reading.element_at bytes.now) }
{
    let (text, behind) = flow_scalar(alloc, skip(bytes))?;
    let Some((byte, more)) = first_of(skip(behind)) else {
        return Err(Fail::Fault(Unspelled));
    };
    match byte {
        b']' => Ok((text, true, more)),
        b',' => Ok((text, false, more)),
        _ => Err(Fail::Fault(Unspelled)),
    }
}

/// The scalars of a flow list, up to its closing bracket, and the bytes behind it.
#[tactic(auto, using(crate::proofs::Onto::onto_rules, crate::proofs::Onto::element_rules))]
fn elements(alloc: Global, bytes: &[u8]) -> Out<(Items<Node>, &[u8]), Unspelled>
    ensures { Gives (λ found. (found.0, found.1.now)) result
        (reading.nodes_of (reading.elements_at bytes.now bytes.now)) }
{
    let mut items = Items::new(alloc);
    let mut rest = bytes;
    for _ in bytes {
        let (text, is_last, more) = element(alloc, rest)?;
        items.push(Node::Scalar(text))?;
        if is_last {
            return Ok((items, more));
        }
        rest = more;
    }
    Err(Fail::Fault(Unspelled))
}

/// The flow list behind its opening bracket, and the bytes behind it.
#[tactic(auto, unfolding(crate::specs::Reading::flow_at))]
fn flow(alloc: Global, bytes: &[u8]) -> Out<(Items<Node>, &[u8]), Unspelled>
    ensures { Gives (λ found. (found.0, found.1.now)) result (reading.nodes_of (reading.flow_at bytes.now)) }
{
    let Some((byte, more)) = first_of(skip(bytes)) else {
        return Err(Fail::Fault(Unspelled));
    };
    if byte == b']' {
        return Ok((Items::new(alloc), more));
    }
    elements(alloc, bytes)
}

/// The bytes behind a closing brace.
fn braces(bytes: &[u8]) -> Out<&[u8], Unspelled>
    ensures { Gives (λ rest. rest.now) result (reading.brace_from (reading.skip bytes.now)) }
{
    match first_of(skip(bytes)) {
        Some((b'}', more)) => Ok(more),
        _ => Err(Fail::Fault(Unspelled)),
    }
}

/// The value at the front, and the bytes behind it.
#[tactic(auto, unfolding(crate::specs::Reading::inline_at))]
pub fn inline(alloc: Global, bytes: &[u8]) -> Out<(Inline, &[u8]), Unspelled>
    ensures { Gives (λ found. (found.0, found.1.now)) result (reading.inline_at bytes.now) }
{
    let Some((byte, more)) = first_of(bytes) else {
        return Err(Fail::Fault(Unspelled));
    };
    match byte {
        b'[' => {
            let (items, rest) = flow(alloc, more)?;
            Ok((Inline::Flow(items), rest))
        }
        b'{' => {
            let rest = braces(more)?;
            Ok((Inline::Braces, rest))
        }
        _ => {
            let (text, rest) = scalar(alloc, bytes)?;
            Ok((Inline::Scalar(text), rest))
        }
    }
}
