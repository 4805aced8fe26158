//! How far the work of a thread is.

/// How far the work of a thread is.
#[derive(Clone, Copy, Debug, PartialEq, Eq)]
pub enum Stage {
    /// Nothing was handed over.
    Idle,
    /// What was handed over waits for the thread's clerk.
    Waiting,
    /// The clerk has it.
    Working,
    /// What it came to waits for the desk.
    Ready,
}
