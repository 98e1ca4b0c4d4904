//! What is built of the operands of a construct.

ghost use Rattle.std.specs.Prelude.{◌≡◌, IfOk, Some, option_map};
ghost use Rattle.ct_parser_parts.specs.Parts.{kept, option_pair};
ghost use Rattle.ct_parser_parts.specs.Reach.{both, nested as spec_nested, is_within as spec_within};

use crate::{Built, Nest, is_within, joined, nested};
use ct_base::Mem;
use std::alloc::Global;

/// Two parts, one behind the other.
pub(crate) fn pair<A: Drop, B: Drop>(first: Built<A>, second: Built<B>) -> Mem<Built<(A, B)>>
    ensures { IfOk result (λ r. (r.reach ≡ both first.reach second.reach) × (r.tree ≡ option_pair first.tree second.tree)) }
{
    let Built { tree, reach } = first;
    let Built {
        tree: other,
        reach: further,
    } = second;
    let reach = joined(reach, &further)?;
    let Some(one) = tree else {
        return Ok(Built { tree: None, reach });
    };
    let Some(other) = other else {
        return Ok(Built { tree: None, reach });
    };
    Ok(Built {
        tree: Some((one, other)),
        reach,
    })
}

/// What is built of the parts of a construct, if it passes no limit of depth.
pub(crate) fn enclosed<A: Drop>(alloc: Global, nest: Nest, parts: Built<A>) -> Mem<Built<A>>
    ensures { IfOk result (λ r. (r.reach ≡ spec_nested nest parts.reach) × (r.tree ≡ kept (spec_within (spec_nested nest parts.reach)) parts.tree)) }
{
    let reach = nested(alloc, nest, &parts.reach)?;
    if !is_within(&reach) {
        return Ok(Built { tree: None, reach });
    }
    Ok(Built {
        tree: parts.tree,
        reach,
    })
}

/// A part that is there, where there may be none.
pub(crate) fn given<A: Drop>(part: Built<A>) -> Built<Option<A>>
    ensures { (result.reach ≡ part.reach) × (result.tree ≡ option_map Some part.tree) }
{
    let Built { tree, reach } = part;
    let Some(tree) = tree else {
        return Built { tree: None, reach };
    };
    Built {
        tree: Some(Some(tree)),
        reach,
    }
}
