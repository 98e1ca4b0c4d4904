//! Tokens with the macros that may not expand them.

ghost use Rattle.std.specs.Prelude.{◌≡◌, ◌∷◌, ◌++◌, [], IfOk, OnOk};
ghost use Rattle.ct_macro_call.specs.Sets as spec;
ghost use Rattle.ct_macro_call.specs.Substitution.{unmarked};

use ct_base::{Bytes, Items, Mem, Token};
use smallvec::SmallVec;
use std::alloc::Global;
use std::marker::Model;

/// The macros that may not expand a token, by their places in the table. Contracts see the list.
#[derive(Drop)]
pub struct HideSet {
    places: SmallVec<usize, 4>,
}

impl Model for HideSet {
    ghost use Rattle.std.specs.Prelude.{List, ℕ};

    ghost Value = { List ℕ };

    ghost view = { λ set. set.places.items };
}

impl HideSet {
    /// No macros.
    pub fn new(alloc: Global) -> HideSet
        ensures { result ≡ [] }
    {
        HideSet {
            places: SmallVec::new(alloc),
        }
    }

    /// Whether a macro is in the set.
    pub fn contains(&self, place: usize) -> bool
        ensures { result ≡ spec.is_in place self.now }
    {
        self.places.as_slice().iter().any(|other| place == *other)
    }

    /// A copy of the set.
    pub fn copy(&self, alloc: Global) -> Mem<HideSet>
        ensures { IfOk result (λ set. set ≡ self.now) }
    {
        let places = SmallVec::from_slice(alloc, self.places.as_slice())?;
        Ok(HideSet { places })
    }

    /// Adds a macro.
    pub fn push(&mut self, place: usize) -> Mem<()>
        ensures { OnOk result (self.new ≡ self.old ++ place ∷ []) }
    {
        self.places.push(place)?;
        Ok(())
    }

    /// The macros of both sets together.
    pub fn joined(&self, alloc: Global, other: &HideSet) -> Mem<HideSet>
        ensures { IfOk result (λ set. set ≡ spec.joined self.now other.now) }
    {
        let mut set = self.copy(alloc)?;
        let mut rest = other.places.as_slice();
        while let Some((place, more)) = rest.split_first() {
            if !self.contains(*place) {
                set.push(*place)?;
            }
            rest = more;
        }
        Ok(set)
    }

    /// The macros that are in both sets.
    pub fn common(&self, alloc: Global, other: &HideSet) -> Mem<HideSet>
        ensures { IfOk result (λ set. set ≡ spec.common self.now other.now) }
    {
        let mut set = HideSet::new(alloc);
        let mut rest = self.places.as_slice();
        while let Some((place, more)) = rest.split_first() {
            if other.contains(*place) {
                set.push(*place)?;
            }
            rest = more;
        }
        Ok(set)
    }
}

/// A copy of a token.
pub fn copy_token(alloc: Global, token: &Token) -> Mem<Token>
    ensures { IfOk result (λ copy. copy ≡ token.now) }
{
    let text = Bytes::from_slice(alloc, token.text.as_slice())?;
    Ok(Token {
        kind: token.kind,
        text,
        span: token.span,
        spaced: token.spaced,
    })
}

/// A token with the macros that may not expand it (C11 6.10.3.4).
#[derive(Drop)]
pub struct Marked {
    pub token: Token,
    pub hidden: HideSet,
}

impl Marked {
    /// A token that every macro may expand.
    pub fn unmarked(alloc: Global, token: Token) -> Marked
        ensures { result ≡ unmarked token }
    {
        Marked {
            token,
            hidden: HideSet::new(alloc),
        }
    }

    /// A copy.
    pub fn copy(&self, alloc: Global) -> Mem<Marked>
        ensures { IfOk result (λ copy. copy ≡ self.now) }
    {
        let token = copy_token(alloc, &self.token)?;
        let hidden = self.hidden.copy(alloc)?;
        Ok(Marked { token, hidden })
    }
}

/// Appends copies of tokens.
pub fn push_copies(alloc: Global, into: &mut Items<Marked>, tokens: &[Marked]) -> Mem<()>
    ensures { OnOk result (into.new ≡ into.old ++ tokens.now) }
{
    let mut rest = tokens;
    while let Some((token, more)) = rest.split_first() {
        let token = token.copy(alloc)?;
        into.push(token)?;
        rest = more;
    }
    Ok(())
}

/// A copy of tokens.
pub fn copy_all(alloc: Global, tokens: &[Marked]) -> Mem<Items<Marked>>
    ensures { IfOk result (λ copy. copy ≡ tokens.now) }
{
    let mut copy = Items::new(alloc);
    push_copies(alloc, &mut copy, tokens)?;
    Ok(copy)
}
