use trick_lang::{Cell, JobId};

/// What a take comes to.
#[derive(Clone, Copy, Debug, PartialEq, Eq)]
pub enum Took {
    /// The thread's next due job is in the bench.
    Took,
    /// The thread's next due job, and the least of its predecessors that are not committed. Where the
    /// thread's last due job is in flight, both are that job.
    NotYet { job: JobId, waits_for: JobId },
    /// All due jobs of the thread are committed.
    ThreadDone,
}

/// What a run of a thread's next job comes to.
#[derive(Clone, Copy, Debug, PartialEq, Eq)]
pub enum Ran {
    /// The thread's next due job, which is committed.
    Done { job: JobId },
    /// The thread's next due job, and the least of its predecessors that are not committed. Where the
    /// thread's last due job is in flight, both are that job.
    NotYet { job: JobId, waits_for: JobId },
    /// All due jobs of the thread are committed.
    ThreadDone,
}

/// What a commit comes to.
#[derive(Clone, Copy, Debug, PartialEq, Eq)]
pub enum Commit {
    /// What the job makes of its inputs is stored, and the bench is empty.
    Committed,
    /// A cell that the job reads, with the number that it has and the one that the bench was given.
    /// It never comes for what a take of the open phase filled.
    Stale { cell: Cell, kept: i64, given: i64 },
    /// The phase of the board, and the one of the bench, which is another.
    Gone { phase: u64, given: u64 },
    /// The board does not hold the job in flight.
    NotTaken { job: JobId },
}

/// What a close comes to.
#[derive(Drop)]
pub enum Closed<M> {
    /// The memory after the due jobs.
    Memory(M),
    /// So many due jobs are not committed. The board stays open.
    Left { count: u32 },
}
