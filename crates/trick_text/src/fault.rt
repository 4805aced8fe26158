ghost use Rattle.std.specs.Prelude.{◌≡◌};
ghost use Rattle.trick_text.specs.declared.fault.TextFault.TheVariants.{OutOfMemory};

use std::alloc::{AllocError, AllocFailed};
use thiserror::Error;

/// Why a text has no tokens. Places are counted in bytes from 0.
#[derive(Clone, Copy, Debug, PartialEq, Eq, Error)]
pub enum TextFault {
    /// The text has more bytes than the limit.
    #[error("the text has more than {limit} bytes")]
    LongText { limit: u32 },
    /// A byte that begins no token, a quote without its end, or the 65th byte of a name.
    #[error("the byte at {at} cannot stand there")]
    BadByte { at: usize },
    /// A `/*` without its `*/`.
    #[error("the comment at {at} has no end")]
    OpenComment { at: usize },
    /// A whole number above two to the power of 63, or a decimal number of more than 40 bytes.
    #[error("the number at {at} is too long")]
    LongNumber { at: usize },
    /// There was no memory left for the tokens.
    #[error("out of memory")]
    OutOfMemory,
}

/// The first fault of a text that is not too long, with the place and the line of the piece that
/// is at fault: of a name of more than 64 bytes, where the name begins.
#[derive(Clone, Copy, Debug, PartialEq, Eq)]
pub struct FirstFault {
    /// A bad byte, an open comment or a long number.
    pub fault: TextFault,
    /// The place of the piece's first byte, from 0.
    pub start: usize,
    /// The line of that byte, from 1.
    pub line: u32,
}

impl From<AllocError> for TextFault {
    ghost from_gives = { λ _ fault. fault ≡ OutOfMemory };

    fn from(_: AllocError) -> TextFault {
        TextFault::OutOfMemory
    }
}

impl<T: Drop> From<AllocFailed<T>> for TextFault {
    ghost from_gives = { λ _ fault. fault ≡ OutOfMemory };

    fn from(_: AllocFailed<T>) -> TextFault {
        TextFault::OutOfMemory
    }
}

/// Why a number of seconds is no time.
#[derive(Clone, Copy, Debug, PartialEq, Eq, Error)]
pub enum TimeFault {
    /// It is no whole number of tics.
    #[error("line {line}: the time is no whole number of microseconds")]
    InexactTime { line: u32 },
    /// It is above the limit of tics.
    #[error("line {line}: the time is above 1000000000 seconds")]
    TimeTooLarge { line: u32 },
}
