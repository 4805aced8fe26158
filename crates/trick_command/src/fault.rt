ghost use Rattle.std.specs.Prelude.{◌≡◌};
ghost use Rattle.trick_command.specs.declared.fault.ActionFault.TheVariants.{OutOfMemory};

use std::alloc::{AllocError, AllocFailed};
use thiserror::Error;

/// Why a text says no actions.
#[derive(Clone, Copy, Debug, PartialEq, Eq, Error)]
pub enum ActionFault {
    /// It is no action, nor several with one `;` between two of them.
    #[error("no action")]
    BadAction,
    /// There was no memory left.
    #[error("out of memory")]
    OutOfMemory,
}

impl From<AllocError> for ActionFault {
    ghost from_gives = { λ _ fault. fault ≡ OutOfMemory };

    fn from(_: AllocError) -> ActionFault {
        ActionFault::OutOfMemory
    }
}

impl<T: Drop> From<AllocFailed<T>> for ActionFault {
    ghost from_gives = { λ _ fault. fault ≡ OutOfMemory };

    fn from(_: AllocFailed<T>) -> ActionFault {
        ActionFault::OutOfMemory
    }
}
