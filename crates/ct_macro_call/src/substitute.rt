//! What a call puts in its place.

ghost use Rattle.std.specs.Prelude.{◌≡◌, ◌∷◌, ◌++◌, [], List, IfOk, MatchOption, map, filter};
ghost use Rattle.std.specs.Option.{option_copied};
ghost use Rattle.ct_macro_call.specs.declared.call.Call as declared;
ghost use Rattle.ct_macro_call.specs.declared.marked.Marked.{Marked};
ghost use Rattle.ct_macro_call.specs.Spelled as spelled;
ghost use Rattle.ct_macro_call.specs.Substitution as spec;

use crate::call::{Call, Operand, argument_of};
use crate::marked::{HideSet, Marked, copy_token, push_copies};
use crate::paste::{paste, respaced};
use crate::source::Source;
use crate::stringize::string_of;
use ct_base::{Bytes, Items, Mem, Token, TokenKind};
use ct_token::one_tokenization;
use std::alloc::Global;
use std::mem;

/// One token.
fn only(alloc: Global, marked: Marked) -> Mem<Items<Marked>>
    ensures { IfOk result (λ items. items ≡ marked ∷ []) }
{
    let mut items = Items::new(alloc);
    items.push(marked)?;
    Ok(items)
}

/// A copy of an argument in the place of its parameter.
fn placed(alloc: Global, place: &Token, argument: &[Marked]) -> Mem<Items<Marked>>
    ensures { IfOk result (λ items. items ≡ spec.placed place.now argument.now) }
{
    let mut items = Items::new(alloc);
    if let Some((first, rest)) = argument.split_first() {
        let first = first.copy(alloc)?;
        items.push(respaced(place.spaced, first))?;
        push_copies(alloc, &mut items, rest)?;
    }
    Ok(items)
}

/// A placemarker in the place of a parameter (C11 6.10.3.3p2).
fn placemarker(alloc: Global, place: &Token) -> Marked
    ensures { result ≡ spelled.placemarker place.now }
{
    Marked {
        token: Token {
            kind: TokenKind::Other,
            text: Bytes::new(alloc),
            span: place.span,
            spaced: place.spaced,
        },
        hidden: HideSet::new(alloc),
    }
}

/// A token of the body as it stands.
fn plain(alloc: Global, token: &Token) -> Mem<Items<Marked>>
    ensures { IfOk result (λ items. items ≡ spec.unmarked token.now ∷ []) }
{
    let token = copy_token(alloc, token)?;
    only(alloc, Marked::unmarked(alloc, token))
}

/// The string literal of `#` and an argument.
fn string_at(alloc: Global, hash: &Token, argument: Option<&[Marked]>) -> Mem<Items<Marked>>
    ensures { IfOk result (λ items. items ≡ spec.string_at hash.now (option_copied argument.entry)) }
{
    let string = match argument {
        Some(tokens) => string_of(alloc, hash, tokens)?,
        None => string_of(alloc, hash, &[])?,
    };
    only(alloc, string)
}

/// The tokens of an operand away from `#` and `##`.
fn full_at(alloc: Global, token: &Token, argument: Option<&[Marked]>) -> Mem<Items<Marked>>
    ensures { IfOk result (λ items. items ≡ spec.full_at token.now (option_copied argument.entry)) }
{
    match argument {
        Some(tokens) => placed(alloc, token, tokens),
        None => plain(alloc, token),
    }
}

/// The tokens of an operand beside `##`.
fn raw_at(alloc: Global, token: &Token, argument: Option<&[Marked]>) -> Mem<Items<Marked>>
    ensures { IfOk result (λ items. items ≡ spec.raw_at token.now (option_copied argument.entry)) }
{
    match argument {
        Some([]) => only(alloc, placemarker(alloc, token)),
        Some(tokens) => placed(alloc, token, tokens),
        None => plain(alloc, token),
    }
}

/// Two lists in which the last token of one and the first of the other are pasted, where they make a
/// token.
#[tactic(none)]
fn join(alloc: Global, left: Items<Marked>, right: Items<Marked>) -> Mem<Option<Items<Marked>>>
    ensures { IfOk result (λ found. MatchOption found ((joint : List Marked) → spelled.Joins left right joint → ⊥)
        (λ joint. spelled.Joins left right joint)) }
{
    let mut joint = left;
    let Some(last) = joint.pop() else {
        return Ok(None);
    };
    if right.is_empty() {
        return Ok(None);
    }
    let mut back = right;
    let first = back.remove(0);
    let Some(pasted) = paste(alloc, last, first)? else {
        return Ok(None);
    };
    joint.push(pasted)?;
    joint.append(back)?;
    Ok(Some(joint))
}

impl Call {
    /// The tokens of an operand.
    fn tokens_at(
        &self,
        alloc: Global,
        operand: &Operand,
        fulls: &[Items<Marked>],
    ) -> Mem<Items<Marked>>
        ensures { IfOk result (λ items. items ≡ spec.tokens_at self.now.names self.now.raws fulls.now operand.now) }
    {
        let text = operand.token.text.as_slice();
        let names = self.names.as_slice();
        let raws = self.raws.as_slice();
        if let Some(hash) = &operand.hash {
            return string_at(alloc, hash, argument_of(text, names, raws));
        }
        if operand.behind_paste || operand.before_paste {
            return raw_at(alloc, &operand.token, argument_of(text, names, raws));
        }
        full_at(alloc, &operand.token, argument_of(text, names, fulls))
    }

    /// The tokens of the body, with what `#` and `##` make, where each `##` makes one token.
    #[tactic(none)]
    fn tokens(&self, alloc: Global, fulls: &[Items<Marked>]) -> Mem<Option<Items<Marked>>>
        ensures { IfOk result (λ found. MatchOption found
            ((tokens : List Marked) → spec.Puts (spec.tokens_at self.now.names self.now.raws fulls.now) [] self.now.body tokens → ⊥)
            (λ tokens. spec.Puts (spec.tokens_at self.now.names self.now.raws fulls.now) [] self.now.body tokens)) }
    {
        one_tokenization();
        let mut done = Items::new(alloc);
        let mut left = Items::new(alloc);
        let mut rest = self.body.as_slice();
        while let Some((operand, more)) = rest.split_first() {
            let tokens = self.tokens_at(alloc, operand, fulls)?;
            let before = mem::replace(&mut left, Items::new(alloc));
            if operand.behind_paste {
                let Some(joint) = join(alloc, before, tokens)? else {
                    return Ok(None);
                };
                left = joint;
            } else {
                done.append(before)?;
                left = tokens;
            }
            rest = more;
        }
        done.append(left)?;
        Ok(Some(done))
    }

    /// A token with the place of the replaced name, and with the macros that join its set.
    fn dressed(&self, alloc: Global, marked: Marked) -> Mem<Marked>
        ensures { IfOk result (λ whole. whole ≡ spec.dressed self.now marked) }
    {
        let hidden = marked.hidden.joined(alloc, &self.added)?;
        let Marked { token, hidden: _ } = marked;
        let mut token = token;
        token.span = self.name.token.span;
        Ok(Marked { token, hidden })
    }

    /// The tokens without placemarkers, as the replacement has them.
    #[tactic(none)]
    fn dress(&self, alloc: Global, tokens: Items<Marked>) -> Mem<Items<Marked>>
        ensures { IfOk result (λ put. put
            ≡ spec.placed self.now.name.token (map (spec.dressed self.now) (filter spec.has_bytes tokens))) }
    {
        let mut source = Source::new(alloc);
        source.put_front(tokens)?;
        let mut put = Items::new(alloc);
        while let Some(marked) = source.next() {
            if !marked.token.text.is_empty() {
                let whole = self.dressed(alloc, marked)?;
                if put.is_empty() {
                    put.push(respaced(self.name.token.spaced, whole))?;
                } else {
                    put.push(whole)?;
                }
            }
        }
        Ok(put)
    }

    /// What the call puts, once the arguments that are to be expanded are so, where each `##` makes
    /// one token.
    pub fn put(&self, alloc: Global, fulls: &[Items<Marked>]) -> Mem<Option<Items<Marked>>>
        ensures { IfOk result (λ found. MatchOption found ((put : List Marked) → spec.IsReplacement self.now fulls.now put → ⊥)
            (λ put. spec.IsReplacement self.now fulls.now put)) }
    {
        let Some(tokens) = self.tokens(alloc, fulls)? else {
            return Ok(None);
        };
        let put = self.dress(alloc, tokens)?;
        Ok(Some(put))
    }
}

/// A call puts one list of tokens at most, once its arguments are expanded.
pub fn one_replacement()
    ensures { (call : declared.Call) (fulls : List (List Marked)) (a b : List Marked) → spec.IsReplacement call fulls a → spec.IsReplacement call fulls b → a ≡ b }
{
    one_tokenization();
}
