//! Why a run stops before its report.

ghost use Rattle.std.specs.Prelude.{◌≡◌};
ghost use Rattle.ct_top.specs.declared.stops.Stop.TheVariants.{OutOfMemory as out_of_memory};

use ct_base::{Fail, Refusal};
use ct_outside::TreeError;
use std::alloc::{AllocError, AllocFailed};

/// Why a run stops before its report.
#[derive(Debug, Drop)]
pub enum Stop {
    /// A list or a read of the tree failed.
    ReadFault,
    OutOfMemory,
    /// The project is refused.
    Refused(Refusal),
}

impl From<ct_base::OutOfMemory> for Stop {
    ghost from_gives = { λ _ stop. stop ≡ out_of_memory };

    fn from(_error: ct_base::OutOfMemory) -> Stop {
        Stop::OutOfMemory
    }
}

impl From<AllocError> for Stop {
    ghost from_gives = { λ _ stop. stop ≡ out_of_memory };

    fn from(_error: AllocError) -> Stop {
        Stop::OutOfMemory
    }
}

impl<T: Drop> From<AllocFailed<T>> for Stop {
    ghost from_gives = { λ _ stop. stop ≡ out_of_memory };

    fn from(_error: AllocFailed<T>) -> Stop {
        Stop::OutOfMemory
    }
}

impl From<TreeError> for Stop {
    ghost use Rattle.ct_top.specs.Stops.{IsStopFor};

    ghost from_gives = { IsStopFor };

    fn from(error: TreeError) -> Stop {
        match error {
            TreeError::Failed => Stop::ReadFault,
            TreeError::OutOfMemory => Stop::OutOfMemory,
        }
    }
}

impl From<Fail<Refusal>> for Stop {
    ghost use Rattle.ct_top.specs.Stops.{IsStopOf};

    ghost from_gives = { IsStopOf };

    fn from(fail: Fail<Refusal>) -> Stop {
        match fail {
            Fail::Fault(refusal) => Stop::Refused(refusal),
            Fail::OutOfMemory => Stop::OutOfMemory,
        }
    }
}
