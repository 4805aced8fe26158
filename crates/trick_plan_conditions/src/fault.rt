ghost use Rattle.std.specs.Prelude.{◌≡◌};
ghost use Rattle.trick_plan_conditions.specs.declared.fault.ConditionFault.TheVariants.{OutOfMemory};

use std::alloc::{AllocError, AllocFailed};
use thiserror::Error;

/// Why a condition is not resolved.
#[derive(Clone, Copy, Debug, PartialEq, Eq, Error)]
pub enum ConditionFault {
    /// A place that is no enum item and no cell.
    #[error("an unknown name in a condition")]
    UnknownName,
    /// There was no memory left.
    #[error("out of memory")]
    OutOfMemory,
}

impl From<AllocError> for ConditionFault {
    ghost from_gives = { λ _ fault. fault ≡ OutOfMemory };

    fn from(_: AllocError) -> ConditionFault {
        ConditionFault::OutOfMemory
    }
}

impl<T: Drop> From<AllocFailed<T>> for ConditionFault {
    ghost from_gives = { λ _ fault. fault ≡ OutOfMemory };

    fn from(_: AllocFailed<T>) -> ConditionFault {
        ConditionFault::OutOfMemory
    }
}
