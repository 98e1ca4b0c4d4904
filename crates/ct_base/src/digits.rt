//! Numbers as text.

ghost use Rattle.std.specs.Prelude.{◌≡◌, ◌++◌, OnOk, OnErr};
ghost use Rattle.std.specs.Fmt.{signed_decimal};

use crate::memory::Mem;
use std::alloc::Global;

/// Appends the decimal digits of a number, with a `-` before them where it is negative. For
/// want of memory nothing is appended.
pub fn decimal(alloc: Global, n: i128, into: &mut Vec<u8>) -> Mem<()>
    ensures ok { OnOk result (into.new.items ≡ into.old.items ++ signed_decimal n) }
    ensures err { OnErr result (into.new.items ≡ into.old.items) }
{
    let digits = format!(in alloc; "{n}")?;
    into.extend_from_slice(digits.as_bytes())?;
    Ok(())
}
