//! From tokens to the tree of a unit.

ghost use Rattle.std.specs.Prelude.{◌≡◌, map, IfOk};
ghost use Rattle.ct_base.specs.Answers.{IfFault};
ghost use Rattle.ct_parser.specs.Parses.{Parsed, Refused, items_after, deep_after};
ghost use Rattle.ct_parser_parts.specs.Views.{items_part};
ghost use Rattle.ct_syntax.specs.UnitViews.{view_item};

use crate::items::read_item;
use ct_base::{Fail, LimitKind, Mem, Out, Span, Token};
use ct_parser_parts::{Built, passed};
use ct_parser_state::ParserState;
use ct_syntax::{Item, Tree};
use std::alloc::Global;
use thiserror::Error;

/// Where no tree within the limits of depth spells the tokens, and the limit that a deeper one passes, if one spells
/// them.
#[derive(Clone, Copy, Debug, PartialEq, Eq, Error)]
#[error("the tokens are no translation unit")]
pub struct SyntaxFault {
    pub span: Span,
    pub limit: Option<LimitKind>,
}

/// One item more behind those before: none is kept once one has passed a limit of depth, of which the place and the
/// limit are told.
#[tactic(auto, using(crate::proofs::OneMore::items_joined))]
fn with_item(
    all: &mut Vec<Item>,
    deep: Option<(usize, LimitKind)>,
    place: usize,
    built: Built<Vec<Item>>,
) -> Mem<Option<(usize, LimitKind)>>
    ensures items { IfOk result (λ more. map view_item all.new.items ≡ items_after deep (map view_item all.old.items) (items_part built)) }
    ensures deep { IfOk result (λ more. more ≡ deep_after deep place (items_part built)) }
{
    if deep.is_some() {
        return Ok(deep);
    }
    let Built { tree, reach } = built;
    let Some(mut items) = tree else {
        return Ok(passed(&reach).map(|kind| (place, kind)));
    };
    all.append(&mut items)?;
    Ok(None)
}

/// The tree of a unit whose tokens these are, without the ends of lines (C11 6.9).
#[tactic(auto, using(crate::proofs::OneMore::found_at, crate::proofs::OneMore::at_first, crate::proofs::OneMore::item_more, crate::proofs::OneMore::no_more, crate::proofs::OneMore::finished, crate::proofs::OneMore::deep_finished, crate::proofs::OneMore::deep_within))]
pub fn parse(alloc: Global, tokens: &[Token]) -> Out<Tree, SyntaxFault>
    ensures parsed { IfOk result (λ tree. Parsed tokens.now (map view_item tree.items.items)) }
    ensures refused { IfFault result (λ fault. Refused tokens.now fault.span fault.limit) }
{
    let mut state = ParserState::new(alloc);
    let mut items = Vec::new(alloc);
    let mut deep = None;
    let mut place = 0;
    while place < tokens.len() {
        let Some(read) = read_item(alloc, &mut state, tokens, place)? else {
            return Err(Fail::Fault(SyntaxFault {
                span: tokens[place].span,
                limit: None,
            }));
        };
        let next = read.next;
        deep = with_item(&mut items, deep, place, read.built)?;
        place = next;
    }
    match deep {
        None => Ok(Tree { items }),
        Some((place, kind)) => Err(Fail::Fault(SyntaxFault {
            span: tokens[place].span,
            limit: Some(kind),
        })),
    }
}
