ghost use Rattle.std.specs.Prelude.{◌≡◌};
ghost use Rattle.trick_plan_draft.specs.declared.fault.LineFault.TheVariants.{OutOfMemory};

use std::alloc::{AllocError, AllocFailed};
use thiserror::Error;

/// Why a line of an input is refused. The page FORMATS of the documents has the tests of each line,
/// which go in this order.
#[derive(Clone, Copy, Debug, PartialEq, Eq, Error)]
pub enum LineFault {
    /// A variable that is not bound, or stands for something else, or a name that is no cell's.
    #[error("an unknown name")]
    UnknownName,
    /// No job that the line can name has this name and instance.
    #[error("an unknown job")]
    UnknownJob,
    /// A number that its cell cannot hold, a cycle of 0, or an action's number above 15.
    #[error("a number out of range")]
    OutOfRange,
    /// A variable, a name, a condition or an action for the second time.
    #[error("named twice")]
    TwiceNamed,
    /// A text that does not read, a condition that could fault, or an action that cannot be done.
    #[error("a bad action")]
    BadAction,
    /// One more than the limit.
    #[error("more than {limit}")]
    TooMany { limit: u64 },
    /// There was no memory left.
    #[error("out of memory")]
    OutOfMemory,
}

impl From<AllocError> for LineFault {
    ghost from_gives = { λ _ fault. fault ≡ OutOfMemory };

    fn from(_: AllocError) -> LineFault {
        LineFault::OutOfMemory
    }
}

impl<T: Drop> From<AllocFailed<T>> for LineFault {
    ghost from_gives = { λ _ fault. fault ≡ OutOfMemory };

    fn from(_: AllocFailed<T>) -> LineFault {
        LineFault::OutOfMemory
    }
}
