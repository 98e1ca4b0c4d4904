//! Conversions between kinds of integers (C11 6.3.1).

ghost use Rattle.std.specs.Prelude.{◌≡◌, ◌≢◌, ◌<◌, ◌^◌};
ghost use Rattle.ct_ctype.specs.Ranges.{InRange, width, low_bits as spec_low_bits, value_of_bits as spec_value_of_bits, wrapped};
ghost use Rattle.ct_ctype.specs.Conversion as spec;

use crate::kinds::IntKind;

/// The integer promotions (C11 6.3.1.1p2).
pub fn promote(k: IntKind) -> IntKind
    ensures { result ≡ spec.promoted k }
{
    match k {
        IntKind::Bool
        | IntKind::Char
        | IntKind::SignedChar
        | IntKind::UnsignedChar
        | IntKind::Short
        | IntKind::UnsignedShort => IntKind::Int,
        IntKind::Int
        | IntKind::UnsignedInt
        | IntKind::Long
        | IntKind::UnsignedLong
        | IntKind::LongLong
        | IntKind::UnsignedLongLong => k,
    }
}

/// The common kind of two operands, by the usual arithmetic conversions (C11 6.3.1.8p1).
pub fn common(a: IntKind, b: IntKind) -> IntKind
    ensures { result ≡ spec.common_kind a b }
{
    balance(promote(a), promote(b))
}

/// The common kind of two promoted kinds.
fn balance(a: IntKind, b: IntKind) -> IntKind
    ensures { result ≡ spec.balanced a b }
{
    match (a.is_signed(), b.is_signed()) {
        (true, false) => balance_signs(a, b),
        (false, true) => balance_signs(b, a),
        _ => { if rank(a) < rank(b) { b } else { a } }
    }
}

/// The common kind of a signed and an unsigned one.
fn balance_signs(signed: IntKind, unsigned: IntKind) -> IntKind
    ensures { result ≡ spec.balanced_signs signed unsigned }
{
    if rank(signed) <= rank(unsigned) {
        unsigned
    } else if unsigned.greatest() <= signed.greatest() {
        signed
    } else {
        unsigned_of(signed)
    }
}

/// The conversion rank (C11 6.3.1.1p1).
fn rank(k: IntKind) -> u8
    ensures { result ≡ spec.rank k }
{
    match k {
        IntKind::Bool => 0,
        IntKind::Char | IntKind::SignedChar | IntKind::UnsignedChar => 1,
        IntKind::Short | IntKind::UnsignedShort => 2,
        IntKind::Int | IntKind::UnsignedInt => 3,
        IntKind::Long | IntKind::UnsignedLong => 4,
        IntKind::LongLong | IntKind::UnsignedLongLong => 5,
    }
}

/// The unsigned kind that corresponds to a signed one (C11 6.2.5p6).
fn unsigned_of(k: IntKind) -> IntKind
    ensures { result ≡ spec.unsigned_of k }
{
    match k {
        IntKind::Bool => IntKind::Bool,
        IntKind::Char | IntKind::SignedChar | IntKind::UnsignedChar => IntKind::UnsignedChar,
        IntKind::Short | IntKind::UnsignedShort => IntKind::UnsignedShort,
        IntKind::Int | IntKind::UnsignedInt => IntKind::UnsignedInt,
        IntKind::Long | IntKind::UnsignedLong => IntKind::UnsignedLong,
        IntKind::LongLong | IntKind::UnsignedLongLong => IntKind::UnsignedLongLong,
    }
}

/// The value of a number after its conversion (C11 6.3.1.2 and 6.3.1.3). To a signed kind it
/// keeps the low bits.
pub fn convert(v: i128, to: IntKind) -> i128
    ensures value { result ≡ spec.converted v to }
    ensures in_range { InRange to result }
    ensures same { InRange to v → result ≡ v }
    ensures low { to ≢ IntKind.Bool → spec_low_bits to result ≡ spec_low_bits to v }
{
    match to {
        IntKind::Bool => i128::from(v != 0),
        _ => wrap(to, v),
    }
}

/// The number of the kind's range that differs from `v` by a multiple of its count.
pub(crate) fn wrap(k: IntKind, v: i128) -> i128
    ensures value { result ≡ wrapped k v }
    ensures in_range { InRange k result }
    ensures same { InRange k v → result ≡ v }
    ensures low { spec_low_bits k result ≡ spec_low_bits k v }
{
    number_of(k, low_bits(k, v))
}

/// The low bits of a number, as many as the kind has.
pub(crate) fn low_bits(k: IntKind, v: i128) -> u128
    ensures value { result ≡ spec_low_bits k v }
    ensures below { result < 2 ^ width k }
{
    v.rem_euclid(k.count()) as u128
}

/// The number that these bits stand for.
pub(crate) fn number_of(k: IntKind, bits: u128) -> i128
    requires { bits < 2 ^ width k }
    ensures value { result ≡ spec_value_of_bits k bits }
    ensures in_range { InRange k result }
    ensures low { spec_low_bits k result ≡ bits }
{
    let number = bits as i128;
    if number <= k.greatest() {
        number
    } else {
        number - k.count()
    }
}
