use thiserror::Error;
use trick_text::{TextFault, TimeFault};

/// Why a text is no simulation definition. Lines are counted from 1. The page FORMATS of the documents
/// says which token each is told of.
#[derive(Clone, Copy, Debug, PartialEq, Eq, Error)]
pub enum SdefFault {
    /// A fault of the text before it is read.
    #[error("{0}")]
    Text(TextFault),
    /// A token with which nothing goes on.
    #[error("line {line}: not expected")]
    Expected { line: u32 },
    /// A part of the language that the profile leaves out.
    #[error("line {line}: not in the profile")]
    NotInProfile { line: u32 },
    /// A `for` of another form, or an assignment to the name of a loop round it.
    #[error("line {line}: the loop is not bounded")]
    LoopBound { line: u32 },
    /// A list or a nesting beyond its limit.
    #[error("line {line}: more than {limit} items or levels")]
    LongList { line: u32, limit: u32 },
    /// A number of seconds that is no time.
    #[error("{0}")]
    Time(TimeFault),
    /// There was no memory left.
    #[error("out of memory")]
    OutOfMemory,
}
