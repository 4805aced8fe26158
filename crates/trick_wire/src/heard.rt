//! What crosses the queues of a session.

use crate::FedLine;
use trick_base::Items;

/// A message to a client: bytes of any kind.
pub type Message = Items<u8>;

/// What a reader puts into its inbox: the lines of its client, and after them at most one of the others, which says
/// why no line comes any more.
#[derive(Drop)]
pub enum Heard {
    /// A line.
    Line(FedLine),
    /// The link has no byte left.
    End,
    /// 4,097 bytes came without a line feed.
    LongLine,
    /// The link failed.
    LinkFault,
    /// There was no memory for the bytes of the next line.
    OutOfMemory,
}

/// Why a reader stopped.
#[derive(Clone, Copy, Debug, PartialEq, Eq)]
pub enum ReadStop {
    /// The link had no byte left.
    End,
    /// 4,097 bytes came without a line feed.
    LongLine,
    /// The link failed.
    LinkFault,
    /// There was no memory for the bytes of the next line.
    OutOfMemory,
    /// The inbox was full, and it was closed.
    Closed,
}

/// Why a writer stopped.
#[derive(Clone, Copy, Debug, PartialEq, Eq)]
pub enum WriteStop {
    /// The outbox was closed and empty, so all that it held was written.
    Closed,
    /// The link failed.
    LinkFault,
    /// The link had no memory.
    OutOfMemory,
}
