ghost use Rattle.std.specs.Prelude.{◌≡◌};
ghost use Rattle.trick_codes.specs.declared.stop.LineStop.TheVariants.{Memory};

use crate::kind::Kind;
use std::alloc::{AllocError, AllocFailed};

/// Why reading lines stopped.
#[derive(Debug, Drop)]
pub enum LineStop<'a> {
    /// Memory ran out.
    Memory,
    /// The text ends, and is a prefix of a right one.
    Cut,
    /// The line with which this rest begins is wrong so.
    Wrong(Kind, &'a [u8]),
}

impl<'a> From<AllocError> for LineStop<'a> {
    ghost from_gives = { λ _ e. e ≡ Memory };

    fn from(_: AllocError) -> LineStop<'a> {
        LineStop::Memory
    }
}

impl<'a, T: Drop> From<AllocFailed<T>> for LineStop<'a> {
    ghost from_gives = { λ _ e. e ≡ Memory };

    fn from(_: AllocFailed<T>) -> LineStop<'a> {
        LineStop::Memory
    }
}
