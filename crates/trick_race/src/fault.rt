ghost use Rattle.std.specs.Prelude.{◌≡◌};
ghost use Rattle.trick_race.specs.declared.fault.PlanFault.TheVariants.{OutOfMemory};

use std::alloc::AllocError;
use trick_lang::{Cell, JobId};

/// Why a plan is not accepted: the first case of the first condition that does not hold. The
/// conditions are asked in this order. `docs/RULES.md` has them.
#[derive(Clone, Copy, Debug, PartialEq, Eq)]
pub enum PlanFault {
    /// The input names this thread for a process type or a cycle, but it is thread 0, or has no job.
    NoThread { thread: u8 },
    /// A job of another class than scheduled is on a child thread.
    ClassOnChild { job: JobId },
    /// The target waits for a job whose key is not smaller than its own.
    Backwards { target: JobId, depended: JobId },
    /// Scheduled jobs of two threads may write the cell, and one of the threads is must-finish or
    /// asynchronous. `thread` is the smaller number.
    SharedWriter { cell: Cell, thread: u8, other: u8 },
    /// The group, by its number from 0, records a cell that asynchronous work may reach.
    AsyncRecorded { group: usize, cell: Cell },
    /// The condition of the event, by its number from 0, has a cell that asynchronous work may reach.
    AsyncEvent { event: usize },
    /// Both jobs are due at the tic, on two scheduled threads; one may write what the other may read
    /// or write, and no pair orders them. `job` has the smaller key.
    Race { job: JobId, other: JobId, tic: u64 },
    /// There was no memory left.
    OutOfMemory,
}

impl From<AllocError> for PlanFault {
    ghost from_gives = { λ _ fault. fault ≡ OutOfMemory };

    fn from(_: AllocError) -> PlanFault {
        PlanFault::OutOfMemory
    }
}
