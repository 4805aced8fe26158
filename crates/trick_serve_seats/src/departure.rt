//! What the caller tells the acceptor.

/// What the caller puts into the queue to the acceptor.
#[derive(Clone, Copy)]
pub enum Departure {
    /// The session of this number left, so its place is free.
    Session(u32),
    /// The run is over, and no client is wanted any more.
    Run,
}
