//! Laws of what bodies do, for every program, job and memory. A function that calls one of them may
//! rest on what it says; the call itself does nothing.

ghost use Rattle.trick_lang.specs.Laws.{BlocksHold, OverwritesRight, SameEffect, StaysInCells, StoresByCell, StoresInRange, WrapsRight, WritesOnly};

/// What a store leaves of a number is the one number of the type's range that equals it modulo two
/// to the power of the type's bits; a `bool` holds 0 or 1.
pub fn wrap_law()
    ensures { WrapsRight }
{}

/// Memories that agree on what a job may read give it the same effect.
pub fn frame_law()
    ensures { SameEffect }
{}

/// A job stores only to cells that it may write.
pub fn write_law()
    ensures { WritesOnly }
{}

/// What a job stores is in the range of its cell's type.
pub fn range_law()
    ensures { StoresInRange }
{}

/// An effect has one entry for each cell.
pub fn length_law()
    ensures { StoresByCell }
{}

/// What a job may read and write are cells of its program.
pub fn cell_law()
    ensures { StaysInCells }
{}

/// A memory that is overwritten by an effect has as many numbers as before: in each cell the number
/// stored to it, or else its own, and all in their ranges.
pub fn overwrite_law()
    ensures { OverwritesRight }
{}

/// A block does what its statements do, reads and writes what they do, and has their steps; it keeps
/// the rules on local variables where they do.
pub fn block_law()
    ensures { BlocksHold }
{}
