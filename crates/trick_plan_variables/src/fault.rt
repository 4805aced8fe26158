ghost use Rattle.std.specs.Prelude.{◌≡◌};
ghost use Rattle.trick_plan_variables.specs.declared.fault.DeclareFault.TheVariants.{OutOfMemory};

use std::alloc::{AllocError, AllocFailed};
use thiserror::Error;

/// Why a variable is not declared.
#[derive(Clone, Copy, Debug, PartialEq, Eq, Error)]
pub enum DeclareFault {
    /// The text is no declaration.
    #[error("the text is no declaration")]
    BadDeclaration,
    /// The name is that of an object or of a declared variable.
    #[error("the name is taken")]
    Taken,
    /// There would be more than 65,536 cells. The count stands still at 2^64 - 1.
    #[error("there would be {count} cells")]
    TooManyCells { count: u64 },
    /// There was no memory left.
    #[error("out of memory")]
    OutOfMemory,
}

impl From<AllocError> for DeclareFault {
    ghost from_gives = { λ _ fault. fault ≡ OutOfMemory };

    fn from(_: AllocError) -> DeclareFault {
        DeclareFault::OutOfMemory
    }
}
