//! Laws of the cells that a job may read and write, for every program, job and memory. A function that
//! calls one of them may rest on what it says; the call itself does nothing.

ghost use Rattle.trick_access.specs.Laws.{ReadsSettle, StaysWithin};

/// Memories that agree on the ranges of what a job may read give it the same effect.
pub fn frame_law()
    ensures { ReadsSettle }
{
    trick_lang::laws::frame_law();
}

/// A job stores only within the ranges of what it may write.
pub fn write_law()
    ensures { StaysWithin }
{
    trick_lang::laws::write_law();
}
