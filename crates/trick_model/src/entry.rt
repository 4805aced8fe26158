use trick_base::Line;

/// Why a session left.
#[derive(Clone, Copy, Debug, PartialEq, Eq)]
pub enum Cause {
    Exit,
    HungUp,
    LinkFault,
    LongLine,
    Slow,
    NoThread,
    OutOfMemory,
}

/// What a turn is given.
#[derive(Debug, Drop)]
pub enum Entry {
    /// A client joins, under a number from 1 to 4294967295.
    Join { session: u32 },
    /// A client's line, of at most 4,096 bytes and without a line feed.
    Said { session: u32, line: Line },
    /// A session ends.
    Leave { session: u32, cause: Cause },
    /// The round of an asynchronous thread, from 1 to 15, is published.
    Publish { thread: u8 },
}
