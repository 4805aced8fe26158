//! The entries of the history.
use trick_model::Taken;
use trick_post_work::Job1;

/// What one turn at a post did. The first number is the pass's, and the second is the thread's. Only proofs have such a
/// value.
pub enum Event {
    /// The desk handed a thread this record and this work.
    Start(u64, u8, Taken, Job1),
    /// A clerk took up what its thread was handed.
    Pick(u64, u8),
    /// The clerk put back what that came to.
    Back(u64, u8),
    /// The desk took it, to publish it.
    Finish(u64, u8),
    /// The desk shut the post.
    Shut(u64),
}
