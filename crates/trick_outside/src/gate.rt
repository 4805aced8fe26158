/// What a worker passes between the take of a job and its commit. Workers of several threads pass one
/// gate, maybe at the same time.
pub trait Gate {
    /// The worker of this thread has taken this job of this tic, has run it, and has not committed it yet.
    fn between(&self, thread: u8, tic: u64, job: u32);
}

/// The gate of the program, which does nothing.
#[derive(Clone, Copy, Debug)]
pub struct NoGate;

impl Gate for NoGate {
    fn between(&self, _thread: u8, _tic: u64, _job: u32) {}
}
