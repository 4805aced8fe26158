ghost use Rattle.std.specs.Prelude.{◌≡◌};
ghost use Rattle.trick_check_names.specs.declared.fault.NameFault.TheVariants.{OutOfMemory};

use std::alloc::{AllocError, AllocFailed};
use trick_base::Word;

/// Why the names of a file do not resolve.
#[derive(Drop)]
pub enum NameFault {
    /// This name is given twice.
    Twice(Word),
    /// The name in this line is that of nothing that could stand there.
    Unknown(u32),
    /// What is named in this line is no scalar, or cannot be assigned, or is no value of an `int`.
    NotScalar(u32),
    /// There was no memory left.
    OutOfMemory,
}

impl From<AllocError> for NameFault {
    ghost from_gives = { λ _ fault. fault ≡ OutOfMemory };

    fn from(_: AllocError) -> NameFault {
        NameFault::OutOfMemory
    }
}

impl<T: Drop> From<AllocFailed<T>> for NameFault {
    ghost from_gives = { λ _ fault. fault ≡ OutOfMemory };

    fn from(_: AllocFailed<T>) -> NameFault {
        NameFault::OutOfMemory
    }
}
