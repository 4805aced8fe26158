ghost use Rattle.std.specs.Prelude.{◌≡◌};
ghost use Rattle.trick_plan_lines.specs.Drafted.{at_line};
ghost use Rattle.trick_plan_lines.specs.declared.fault.JoinFault.TheVariants.{OutOfMemory};

use std::alloc::AllocError;
use thiserror::Error;
use trick_plan_draft::LineFault;
use trick_text::TimeFault;

/// Why an input does not join with a program: the first refusal, at the first line that is refused.
/// Lines are counted from 1. The page FORMATS of the documents has the tests of each line, which go in
/// this order.
#[derive(Clone, Copy, Debug, PartialEq, Eq, Error)]
pub enum JoinFault {
    /// A number of seconds that is no time.
    #[error("{0}")]
    Time(TimeFault),
    /// A variable that is not bound, or stands for something else, or a name that is no cell's.
    #[error("line {line}: an unknown name")]
    UnknownName { line: u32 },
    /// No job that the line can name has this name and instance.
    #[error("line {line}: an unknown job")]
    UnknownJob { line: u32 },
    /// A number that its cell cannot hold, a number of a thread or of actions above 15, a cycle or a
    /// frame of 0, or a frame above 10^9 tics.
    #[error("line {line}: a number out of range")]
    OutOfRange { line: u32 },
    /// A variable, a name, a condition or actions for the second time.
    #[error("line {line}: named twice")]
    TwiceNamed { line: u32 },
    /// A text that does not read, a condition that could fault, or an action that cannot be done.
    #[error("line {line}: a bad action")]
    BadAction { line: u32 },
    /// One more than the limit.
    #[error("line {line}: more than {limit}")]
    TooMany { line: u32, limit: u64 },
    /// There was no memory left.
    #[error("out of memory")]
    OutOfMemory,
}

impl From<AllocError> for JoinFault {
    ghost from_gives = { λ _ fault. fault ≡ OutOfMemory };

    fn from(_: AllocError) -> JoinFault {
        JoinFault::OutOfMemory
    }
}

// A refusal with its line.
pub(crate) fn at_line(line: u32, fault: LineFault) -> JoinFault
    ensures { result ≡ at_line line fault }
{
    match fault {
        LineFault::UnknownName => JoinFault::UnknownName { line },
        LineFault::UnknownJob => JoinFault::UnknownJob { line },
        LineFault::OutOfRange => JoinFault::OutOfRange { line },
        LineFault::TwiceNamed => JoinFault::TwiceNamed { line },
        LineFault::BadAction => JoinFault::BadAction { line },
        LineFault::TooMany { limit } => JoinFault::TooMany { line, limit },
        LineFault::OutOfMemory => JoinFault::OutOfMemory,
    }
}
