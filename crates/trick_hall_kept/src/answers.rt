//! What the calls of a chief and of a hand answer.
ghost use Rattle.std.specs.Prelude.{◌≡◌};
ghost use Rattle.trick_hall_kept.specs.Answers.{as_tried, gives_memory, job_committed, job_taken};

use trick_lang::{Cell, JobId};
use trick_phase_board::Closed;

/// What a hand's take comes to.
#[derive(Clone, Copy, Debug, PartialEq, Eq)]
pub enum HandTook {
    /// The thread's next due job is in the bench.
    Took,
    /// The thread's next due job, and the least of its predecessors that are not committed. Where the thread's last due
    /// job is in flight, both are that job.
    NotYet { job: JobId, waits_for: JobId },
    /// All due jobs of the thread are committed.
    ThreadDone,
    /// The hall was shut.
    Shut,
    /// No tic is open. The phase is that of the last one, and 0 before the first.
    Closed { phase: u64 },
    /// The pass with this number had the turn. Only a call that waits for nobody answers so.
    Busy { found: u64 },
}

/// What a hand's commit comes to.
#[derive(Clone, Copy, Debug, PartialEq, Eq)]
pub enum HandCommit {
    /// What the job makes of its inputs is stored, and the bench is empty.
    Committed,
    /// A cell that the job reads, with the number that it has and the one that the bench was given.
    Stale { cell: Cell, kept: i64, given: i64 },
    /// The phase of the board, and the one of the bench, which is another.
    Gone { phase: u64, given: u64 },
    /// The board does not hold the job in flight.
    NotTaken { job: JobId },
    /// The hall was shut.
    Shut,
    /// No tic is open. The phase is that of the last one, and 0 before the first.
    Closed { phase: u64 },
    /// The pass with this number had the turn. Only a call that waits for nobody answers so.
    Busy { found: u64 },
}

/// What an open that waits for nobody comes to.
#[derive(Drop)]
pub enum TryOpen<M> {
    /// The tic is open.
    Opened,
    /// The pass with this number had the turn. The memory comes back.
    Busy { found: u64, memory: M },
}

/// What a close that waits for nobody comes to.
#[derive(Drop)]
pub enum TryClose<M> {
    /// The memory after the due jobs.
    Memory(M),
    /// So many due jobs are not committed. The tic stays open.
    Left { count: u32 },
    /// The pass with this number had the turn.
    Busy { found: u64 },
}

impl HandTook {
    /// The job that was taken, if one was: the one that is then in the bench.
    pub fn job_taken(&self, in_bench: Option<JobId>) -> Option<JobId>
        ensures { result ≡ job_taken in_bench self.now }
    {
        match self {
            HandTook::Took => in_bench,
            _ => None,
        }
    }
}

impl HandCommit {
    /// The job that was committed, if one was: the one that was in the bench.
    pub fn job_committed(&self, in_bench: Option<JobId>) -> Option<JobId>
        ensures { result ≡ job_committed in_bench self.now }
    {
        match self {
            HandCommit::Committed => in_bench,
            _ => None,
        }
    }
}

/// Whether a close gives the memory.
pub fn is_memory<M>(closed: &Closed<M>) -> bool
    ensures { result ≡ gives_memory closed.now }
{
    matches!(closed, Closed::Memory(_))
}

impl<M> TryClose<M> {
    /// What a close comes to that had the turn.
    pub fn from_closed(closed: Closed<M>) -> TryClose<M>
        ensures { result ≡ as_tried closed }
    {
        match closed {
            Closed::Memory(memory) => TryClose::Memory(memory),
            Closed::Left { count } => TryClose::Left { count },
        }
    }
}
