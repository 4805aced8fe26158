ghost use Rattle.std.specs.Prelude.{◌≡◌};
ghost use Rattle.trick_command.specs.declared.feed_fault.FeedFault.TheVariants.{OutOfMemory};

use std::alloc::AllocError;
use thiserror::Error;

/// Why a client's bytes are not taken.
#[derive(Clone, Copy, Debug, PartialEq, Eq, Error)]
pub enum FeedFault {
    /// 4,097 bytes came without a line feed.
    #[error("a line has more than 4096 bytes")]
    LongLine,
    /// There was no memory left.
    #[error("out of memory")]
    OutOfMemory,
}

impl From<AllocError> for FeedFault {
    ghost from_gives = { λ _ fault. fault ≡ OutOfMemory };

    fn from(_: AllocError) -> FeedFault {
        FeedFault::OutOfMemory
    }
}
