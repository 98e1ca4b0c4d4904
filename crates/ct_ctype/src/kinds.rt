//! The kinds of integers, their ranges and their bits.

/// The bytes of a pointer.
pub(crate) const POINTER_BYTES: u64 = 8;

/// The kinds of integers (C11 6.2.5p4, 6.2.5p6 and 6.2.5p15). Plain `char` is signed.
#[derive(Clone, Copy, Debug, PartialEq, Eq)]
pub enum IntKind {
    /// `_Bool`, which holds 0 and 1.
    Bool,
    Char,
    SignedChar,
    UnsignedChar,
    Short,
    UnsignedShort,
    Int,
    UnsignedInt,
    Long,
    UnsignedLong,
    LongLong,
    UnsignedLongLong,
}

impl IntKind {
    ghost use Rattle.std.specs.Prelude.{◌≡◌, ◌^◌, ◌↔◌, pos, IsTrue};
    ghost use Rattle.ct_ctype.specs.Ranges as ranges;

    /// Whether the kind holds negative numbers (C11 6.2.5p4 and 6.2.5p6).
    pub fn is_signed(self) -> bool
        ensures { result ≡ ranges.is_signed self }
    {
        match self {
            IntKind::Char
            | IntKind::SignedChar
            | IntKind::Short
            | IntKind::Int
            | IntKind::Long
            | IntKind::LongLong => true,
            IntKind::Bool
            | IntKind::UnsignedChar
            | IntKind::UnsignedShort
            | IntKind::UnsignedInt
            | IntKind::UnsignedLong
            | IntKind::UnsignedLongLong => false,
        }
    }

    /// How many bits its numbers take, the sign among them (C11 6.2.6.2p6): 1 for `_Bool`.
    pub fn width(self) -> u32
        ensures { result ≡ ranges.width self }
    {
        match self {
            IntKind::Bool => 1,
            IntKind::Char | IntKind::SignedChar | IntKind::UnsignedChar => 8,
            IntKind::Short | IntKind::UnsignedShort => 16,
            IntKind::Int | IntKind::UnsignedInt => 32,
            IntKind::Long | IntKind::UnsignedLong | IntKind::LongLong | IntKind::UnsignedLongLong =>
                64,
        }
    }

    /// The least number that it holds, in two's complement (C11 6.2.6.2).
    pub fn least(self) -> i128
        ensures { result ≡ ranges.least self }
    {
        match self {
            IntKind::Char | IntKind::SignedChar => -0x80,
            IntKind::Short => -0x8000,
            IntKind::Int => -0x8000_0000,
            IntKind::Long | IntKind::LongLong => -0x8000_0000_0000_0000,
            IntKind::Bool
            | IntKind::UnsignedChar
            | IntKind::UnsignedShort
            | IntKind::UnsignedInt
            | IntKind::UnsignedLong
            | IntKind::UnsignedLongLong => 0,
        }
    }

    /// The greatest number that it holds (C11 6.2.6.2).
    pub fn greatest(self) -> i128
        ensures { result ≡ ranges.greatest self }
    {
        match self {
            IntKind::Bool => 1,
            IntKind::Char | IntKind::SignedChar => 0x7f,
            IntKind::UnsignedChar => 0xff,
            IntKind::Short => 0x7fff,
            IntKind::UnsignedShort => 0xffff,
            IntKind::Int => 0x7fff_ffff,
            IntKind::UnsignedInt => 0xffff_ffff,
            IntKind::Long | IntKind::LongLong => 0x7fff_ffff_ffff_ffff,
            IntKind::UnsignedLong | IntKind::UnsignedLongLong => 0xffff_ffff_ffff_ffff,
        }
    }

    /// How many numbers it holds, 2 to its width.
    pub fn count(self) -> i128
        ensures { result ≡ pos (2 ^ ranges.width self) }
    {
        match self {
            IntKind::Bool => 2,
            IntKind::Char | IntKind::SignedChar | IntKind::UnsignedChar => 0x100,
            IntKind::Short | IntKind::UnsignedShort => 0x1_0000,
            IntKind::Int | IntKind::UnsignedInt => 0x1_0000_0000,
            IntKind::Long | IntKind::UnsignedLong | IntKind::LongLong | IntKind::UnsignedLongLong =>
                0x1_0000_0000_0000_0000,
        }
    }

    /// Whether a number is in the range of the kind (C11 6.2.6.2).
    pub fn holds(self, v: i128) -> bool
        ensures value { result ≡ ranges.is_in_range self v }
        ensures in_range { IsTrue result ↔ ranges.InRange self v }
    {
        self.least() <= v && v <= self.greatest()
    }
}
