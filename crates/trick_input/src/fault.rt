ghost use Rattle.std.specs.Prelude.{◌≡◌};
ghost use Rattle.trick_input.specs.declared.fault.InputFault.TheVariants.{OutOfMemory};

use std::alloc::{AllocError, AllocFailed};
use thiserror::Error;
use trick_text::TextFault;

/// Why a text is no input. Lines are counted from 1. The page FORMATS of the documents says which token
/// each is told of.
#[derive(Clone, Copy, Debug, PartialEq, Eq, Error)]
pub enum InputFault {
    /// A fault of the text before it is read.
    #[error("{0}")]
    Text(TextFault),
    /// A token with which no form goes on.
    #[error("line {line}: not expected")]
    Expected { line: u32 },
    /// A word of Python, or a call of `trick`, that the profile leaves out.
    #[error("line {line}: not in the profile")]
    NotInProfile { line: u32 },
    /// Something else where a literal is due.
    #[error("line {line}: a number is expected")]
    BadLiteral { line: u32 },
    /// There was no memory left.
    #[error("out of memory")]
    OutOfMemory,
}

impl From<AllocError> for InputFault {
    ghost from_gives = { λ _ fault. fault ≡ OutOfMemory };

    fn from(_: AllocError) -> InputFault {
        InputFault::OutOfMemory
    }
}

impl<T: Drop> From<AllocFailed<T>> for InputFault {
    ghost from_gives = { λ _ fault. fault ≡ OutOfMemory };

    fn from(_: AllocFailed<T>) -> InputFault {
        InputFault::OutOfMemory
    }
}
