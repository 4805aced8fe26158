ghost use Rattle.std.specs.Prelude.{◌≡◌};
ghost use Rattle.trick_check.specs.declared.fault.CheckFault.TheVariants.{OutOfMemory};

use std::alloc::{AllocError, AllocFailed};
use trick_base::Word;

/// Why a file names no program. The page FORMATS of the documents says which place each is told of.
#[derive(Debug, Drop, PartialEq, Eq)]
pub enum CheckFault {
    /// This name is given twice.
    Twice { name: Word },
    /// The name in this line, from 1, is that of nothing that could stand there.
    Unknown { line: u32 },
    /// What is named in this line, from 1, is no scalar, or cannot be assigned, or is no value of an
    /// `int`.
    NotScalar { line: u32 },
    /// The first method of the file that reaches itself by calls, by its own name alone.
    Recursive { method: Word },
    /// There would be this many cells, at most 2^64 - 1, which are more than 65,536.
    TooManyCells { count: u64 },
    /// There would be this many jobs, at most 2^64 - 1, which are more than 512.
    TooManyJobs { count: u64 },
    /// The first job that has more than 1,000,000 static steps: its name, which is that of its object,
    /// a dot and that of its method, and its instance, from 1.
    TooManySteps { job: Word, instance: u32 },
    /// There was no memory left.
    OutOfMemory,
}

impl From<AllocError> for CheckFault {
    ghost from_gives = { λ _ fault. fault ≡ OutOfMemory };

    fn from(_: AllocError) -> CheckFault {
        CheckFault::OutOfMemory
    }
}

impl<T: Drop> From<AllocFailed<T>> for CheckFault {
    ghost from_gives = { λ _ fault. fault ≡ OutOfMemory };

    fn from(_: AllocFailed<T>) -> CheckFault {
        CheckFault::OutOfMemory
    }
}
