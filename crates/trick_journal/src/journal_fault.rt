ghost use Rattle.std.specs.Prelude.{◌≡◌};
ghost use Rattle.trick_journal.specs.declared.journal_fault.JournalFault.TheVariants.{OutOfMemory};

use std::alloc::{AllocError, AllocFailed};

/// Why a text is no journal. Lines are counted from 1.
#[derive(Clone, Copy, Debug, PartialEq, Eq)]
pub enum JournalFault {
    /// Memory ran out.
    OutOfMemory,
    /// The line has no form, or not that of its place, or the journal begins after the start.
    BadLine { line: usize },
    /// Its turn is too low, or it stands after a publication that it must come before.
    NotRising { line: usize },
    /// A session joins that is not above all earlier ones, or one speaks or leaves that is not there.
    NotJoined { line: usize },
    /// A thread publishes that is not asynchronous.
    NotAsync { line: usize },
    /// All lines are right, and the end is missing, which would be this line.
    NoEnd { line: usize },
}

impl From<AllocError> for JournalFault {
    ghost from_gives = { λ _ e. e ≡ OutOfMemory };

    fn from(_: AllocError) -> JournalFault {
        JournalFault::OutOfMemory
    }
}

impl<T: Drop> From<AllocFailed<T>> for JournalFault {
    ghost from_gives = { λ _ e. e ≡ OutOfMemory };

    fn from(_: AllocFailed<T>) -> JournalFault {
        JournalFault::OutOfMemory
    }
}
