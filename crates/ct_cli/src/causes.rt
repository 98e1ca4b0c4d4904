//! What an error of the system means.

ghost use Rattle.std.specs.Prelude.{◌≡◌, ◌+◌, ◌-◌, ◌^◌, min};
ghost use Rattle.ct_cli.specs.Systems.{cause_at, cause_of_kind};

use std::io::{self, ErrorKind};

/// What an error of the system means for a call on a path.
#[derive(Clone, Copy, Debug, PartialEq, Eq)]
pub enum Cause {
    /// Nothing of the asked kind lies at the path.
    Missing,
    OutOfMemory,
    /// The system failed.
    System,
}

/// The number of the system's error for a path that is too long, `ENAMETOOLONG`.
const NAME_TOO_LONG: i32 = 36;

/// What an error of a kind means.
fn cause_of_kind(kind: ErrorKind) -> Cause
    ensures { result ≡ cause_of_kind kind }
{
    match kind {
        ErrorKind::NotFound | ErrorKind::NotADirectory | ErrorKind::IsADirectory => Cause::Missing,
        ErrorKind::OutOfMemory => Cause::OutOfMemory,
        _ => Cause::System,
    }
}

/// What an error of the system means.
pub fn cause_of(error: &io::Error) -> Cause
    ensures { result ≡ cause_at error.now }
{
    match error.raw_os_error() {
        Some(NAME_TOO_LONG) => Cause::Missing,
        _ => cause_of_kind(error.kind()),
    }
}

/// Counts a fault, up to 2 ^ 64 - 1.
pub fn raise(count: &mut u64)
    ensures { count.new ≡ min (count.old + 1) (2 ^ 64 - 1) }
{
    *count = count.saturating_add(1);
}
