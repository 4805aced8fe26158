//! The lines of what a checkpoint is refused for.

ghost use Rattle.std.specs.Prelude.{◌≡◌, IfOk};
ghost use Rattle.trick_top_refusals.specs.Checkpoint.{checkpoint_line as line_of};

use crate::line::{out_of_memory, refused_at};
use crate::name::CHECKPOINT;
use std::alloc::{AllocError, Global};
use trick_codes::LoadFault;

/// The line of a checkpoint that is not loaded, with its line feed: `refused`, the code, `checkpoint`, and
/// the line of the fault; for a text that is cut off or goes on its place. Refuses for want of memory
/// alone.
pub fn checkpoint_line(alloc: Global, fault: LoadFault) -> Result<Vec<u8>, AllocError>
    ensures { IfOk result (λ line. line.items ≡ line_of fault) }
{
    match fault {
        LoadFault::BadLine { line } => refused_at(alloc, b"BadLine", CHECKPOINT, line as u64),
        LoadFault::WrongPlan { line } => refused_at(alloc, b"WrongPlan", CHECKPOINT, line as u64),
        LoadFault::OutOfRange { line } => refused_at(alloc, b"OutOfRange", CHECKPOINT, line as u64),
        LoadFault::Truncated { at } => refused_at(alloc, b"Truncated", CHECKPOINT, at as u64),
        LoadFault::Trailing { at } => refused_at(alloc, b"Trailing", CHECKPOINT, at as u64),
        LoadFault::OutOfMemory => out_of_memory(alloc),
    }
}
