//! Structs and the layout of types.

ghost use Rattle.std.specs.Prelude.{◌≡◌, ℕ, ◌-◌, ◌+◌, ◌<◌, ◌≤◌, ◌^◌, ◌++◌, ◌∷◌, [], List, map, length, Some, None, IfOk, IfSome, is_some, unwrap_or, slice_get, OnOk, OnErr, option_map};
ghost use Rattle.std.specs.Int.{next_multiple_of};
ghost use Rattle.std.specs.Option.{option_copied};
ghost use Rattle.ct_ctype.specs.Ranges.{largest_alignment};
ghost use Rattle.ct_ctype.specs.declared.types.CType.{CType};
ghost use Rattle.ct_ctype.specs.declared.types.Extent.{Extent};
ghost use Rattle.ct_ctype.specs.declared.types.StructLayout.{StructLayout};
ghost use Rattle.ct_ctype.specs.Layout as spec;
ghost use Rattle.ct_ctype.specs.Sizes.{HasExtent, HaveExtents, limited, offsets};

use crate::kinds::{IntKind, POINTER_BYTES};
use crate::types::{CType, Extent, Member, StructLayout};
use ct_base::{Items, Mem};
use std::alloc::Global;
use std::marker::Model;

/// The structs of a unit, by their numbers. A struct that is declared but not complete has no
/// layout. Contracts see the list of their layouts.
#[derive(Debug, Drop)]
pub struct Structs {
    layouts: Items<Option<StructLayout>>,
}

impl Model for Structs {
    ghost use Rattle.std.specs.Prelude.{List, Option};
    ghost use Rattle.ct_ctype.specs.declared.types.StructLayout.{StructLayout};
    ghost use Rattle.ct_ctype.specs.contracts.types.CType as ctype;
    ghost use Rattle.std.specs.Coded.{codes};

    ghost Value = { List (Option StructLayout) };

    ghost coded = { Prim.hlevel (codes, ctype.the_row.coded) };

    ghost use Rattle.ct_ctype.specs.Layout.{IsSound};

    ghost view = { λ s. s.layouts };

    ghost invariant = { λ s. IsSound s.layouts };
}

impl Structs {
    /// No structs. This takes no memory.
    pub fn new(alloc: Global) -> Structs
        ensures { result ≡ [] }
    {
        Structs {
            layouts: Items::new(alloc),
        }
    }

    /// Adds a struct without members, and gives its number. For want of memory nothing is added.
    pub fn declare(&mut self) -> Mem<u32>
        requires { length self.old < 2 ^ 32 - 1 }
        ensures number { IfOk result (λ number. number ≡ length self.old) }
        ensures ok { OnOk result (self.new ≡ self.old ++ None ∷ []) }
        ensures err { OnErr result (self.new ≡ self.old) }
    {
        let number = self.layouts.len() as u32;
        self.layouts.push(None)?;
        Ok(number)
    }

    /// How many structs there are. Their table is sound: each complete struct has the layout that its members have, and
    /// no struct holds itself, also through others.
    pub fn count(&self) -> usize
        ensures count { result ≡ length self.now }
        ensures sound { spec.IsSound self.now }
    {
        self.layouts.len()
    }

    /// Gives a struct its members, and sets their offsets (C11 6.7.2.1p14 to p17). This is false,
    /// and changes nothing, exactly where there is no such struct, it is complete already, or a
    /// member has no size.
    /// The struct itself has none yet, so no struct holds itself.
    pub fn complete(&mut self, which: u32, members: Vec<Member>) -> bool
        ensures answer { result ≡ is_some (spec.completed self.old which members.items) }
        ensures after { self.new ≡ unwrap_or (spec.completed self.old which members.items) self.old }
    {
        if !self.is_open(which) {
            return false;
        }
        match laid_out(self, members) {
            Some(layout) => {
                self.layouts.set(which as usize, Some(layout));
                true
            }
            None => false,
        }
    }

    /// Whether there is such a struct, without members.
    fn is_open(&self, which: u32) -> bool
        ensures { result ≡ spec.is_open (slice_get self.now which) }
    {
        matches!(self.layouts.get(which as usize), Some(None))
    }

    /// The layout of a struct, where it is complete. It is that which its members have, and no
    /// struct holds itself, also through others.
    pub fn layout(&self, which: u32) -> Option<&StructLayout>
        ensures value { option_copied result ≡ spec.layout_of self.now which }
        ensures kept { IfSome result (λ layout. spec.IsKept self.now layout.now) }
        ensures acyclic { spec.IsAcyclic self.now }
    {
        self.layouts.get(which as usize)?.as_ref()
    }
}

/// The bytes of an object of the type (C11 6.5.3.4). None is for a type that is incomplete, `void`
/// or a function. A size past 1,048,576 is given as 1,048,577.
pub fn size_of(t: &CType, s: &Structs) -> Option<u64>
    ensures { result ≡ option_map (λ e. e.size) (spec.extent_of s.now t.now) }
{
    Some(extent(t, s)?.size)
}

/// The number of bytes of which the place of an object of the type is a multiple (C11 6.2.8).
/// None is for a type that is incomplete, `void` or a function.
pub fn align_of(t: &CType, s: &Structs) -> Option<u64>
    ensures { result ≡ option_map (λ e. e.alignment) (spec.extent_of s.now t.now) }
{
    Some(extent(t, s)?.alignment)
}

/// The bytes before a member of a struct (C11 6.7.2.1p15). None is for a member that is not
/// there, and for a struct that is not there or not complete. An offset past 1,048,576 is given
/// as 1,048,577.
pub fn offset_of(s: &Structs, which: u32, member: &[u8]) -> Option<u64>
    ensures { result ≡ spec.offset_in s.now which member.now }
{
    find_member(s.layout(which)?.members.as_slice(), member)
}

/// Sizes and offsets are limited at the end alone: they are those without a limit, given as
/// 1,048,577 where they are past 1,048,576.
pub fn exact_sizes()
    ensures sized { (s : spec.Table) → spec.IsSound s → (t : CType) (e : Extent) → spec.extent_of s t ≡ Some e → (x : Extent) × HasExtent s t x × (e ≡ limited x) }
    ensures no_size { (s : spec.Table) (t : CType) → spec.extent_of s t ≡ None → (x : Extent) → HasExtent s t x → ⊥ }
    ensures one { (s : spec.Table) (t : CType) (x y : Extent) → HasExtent s t x → HasExtent s t y → x ≡ y }
    ensures offsets { (s : spec.Table) → spec.IsSound s → (which : ℕ) (layout : StructLayout) → spec.layout_of s which ≡ Some layout → (extents : List Extent) × HaveExtents s layout.members extents × (map (λ member. member.offset) layout.members ≡ map spec.capped (offsets 0 extents)) }
{}

/// The offset of the first member of a name.
fn find_member(members: &[Member], name: &[u8]) -> Option<u64>
    ensures { result ≡ spec.member_offset name.now members.now }
{
    let member = members.iter().find(|m| m.name.as_slice() == name)?;
    Some(member.offset)
}

/// The extent of a type, where it has one.
#[tactic(auto, unfolding(crate::specs::Layout::extent_of))]
fn extent(t: &CType, s: &Structs) -> Option<Extent>
    ensures value { result ≡ spec.extent_of s.now t.now }
    ensures kept { IfSome result spec.IsExtent }
{
    match t {
        CType::Void | CType::Function(_) | CType::Array(_, None) => None,
        CType::Int(k) => Some(scalar(bytes_of(*k))),
        CType::Pointer(_, _) => Some(scalar(POINTER_BYTES)),
        CType::Array(element, Some(count)) => Some(repeated(*count, extent(element.get(), s)?)),
        CType::Struct(which) => Some(s.layout(*which)?.extent),
    }
}

/// The layout of members in order, where each of them has a size: each stands at the next
/// multiple of its alignment, and the size is rounded up to the largest alignment.
fn laid_out(s: &Structs, mut members: Vec<Member>) -> Option<StructLayout>
    ensures value { result ≡ spec.laid_out s.now members.items }
    ensures kept { IfSome result (λ layout. spec.IsExtent layout.extent) }
{
    let mut end = 0;
    let mut alignment = 1;
    for i in 0..members.len() {
        let extent = extent(&members[i].kind, s)?;
        let offset = capped(aligned(end, extent.alignment));
        members[i].offset = offset;
        end = capped(offset + extent.size);
        alignment = alignment.max(extent.alignment);
    }
    let size = capped(aligned(end, alignment));
    Some(StructLayout {
        members: Items::from_vec(members),
        extent: Extent { size, alignment },
    })
}

/// The least multiple of an alignment that is not below a place.
fn aligned(place: u64, alignment: u64) -> u64
    requires place { place ≤ 1048577 }
    requires some { 0 < alignment }
    requires alignment { alignment ≤ largest_alignment }
    ensures value { result ≡ next_multiple_of place alignment }
    ensures bound { result < place + largest_alignment }
{
    place + (alignment - place % alignment) % alignment
}

/// The extent of a scalar, which aligns at its size.
fn scalar(bytes: u64) -> Extent
    ensures { result ≡ spec.scalar bytes }
{
    Extent {
        size: bytes,
        alignment: bytes,
    }
}

/// The bytes of 8 bits that an integer takes.
fn bytes_of(k: IntKind) -> u64
    ensures { result ≡ spec.bytes_of k }
{
    u64::from(k.width()).div_ceil(8)
}

/// The extent of an array.
fn repeated(count: u32, element: Extent) -> Extent
    ensures { result ≡ spec.repeated count element }
{
    Extent {
        size: capped(u64::from(count).saturating_mul(element.size)),
        alignment: element.alignment,
    }
}

/// A size or an offset past 1 MiB is given as one more than that.
fn capped(bytes: u64) -> u64
    ensures { result ≡ spec.capped bytes }
{
    bytes.min(1_048_577)
}
