//! Answers of calls that may want memory.

ghost use Rattle.ct_base.specs.declared.memory.Fail.{Fail};
ghost use Rattle.ct_base.specs.declared.memory.Fail.TheVariants.{OutOfMemory as out_of_memory};
ghost use Rattle.std.specs.Prelude.{◌≡◌};

use std::alloc::{AllocError, AllocFailed};

/// Memory ran out.
#[derive(Clone, Copy, Debug, PartialEq, Eq)]
pub struct OutOfMemory;

/// The answer of a call that can fail only for want of memory.
pub type Mem<T> = Result<T, OutOfMemory>;

/// Why a call failed: memory ran out, or a named fault of its own.
#[derive(Clone, Copy, Debug, PartialEq, Eq)]
pub enum Fail<F> {
    OutOfMemory,
    Fault(F),
}

/// The answer of a call that can fail for want of memory or with a fault of its own.
pub type Out<T, F> = Result<T, Fail<F>>;

impl From<AllocError> for OutOfMemory {
    fn from(_error: AllocError) -> OutOfMemory {
        OutOfMemory
    }
}

impl<T: Drop> From<AllocFailed<T>> for OutOfMemory {
    fn from(_error: AllocFailed<T>) -> OutOfMemory {
        OutOfMemory
    }
}

impl<F> From<OutOfMemory> for Fail<F> {
    ghost from_gives = { λ _ fail. fail ≡ out_of_memory };

    fn from(_error: OutOfMemory) -> Fail<F> {
        Fail::OutOfMemory
    }
}

impl<F> From<AllocError> for Fail<F> {
    ghost from_gives = { λ _ fail. fail ≡ out_of_memory };

    fn from(_error: AllocError) -> Fail<F> {
        Fail::OutOfMemory
    }
}

impl<T: Drop, F> From<AllocFailed<T>> for Fail<F> {
    ghost from_gives = { λ _ fail. fail ≡ out_of_memory };

    fn from(_error: AllocFailed<T>) -> Fail<F> {
        Fail::OutOfMemory
    }
}
