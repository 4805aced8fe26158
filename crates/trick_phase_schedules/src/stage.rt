use trick_lang::JobFault;

/// How far a job is in a tic.
#[derive(Clone, Copy, Debug, PartialEq, Eq)]
pub enum Stage {
    /// It is not due.
    Idle,
    /// It is due, and not yet taken.
    Waiting,
    /// It is taken, and not yet committed.
    InFlight,
    /// It is committed, with the fault that it adds.
    Done(Option<JobFault>),
}
