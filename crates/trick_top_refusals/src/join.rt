//! The lines of what the join of a program and an input is refused for.

ghost use Rattle.std.specs.Prelude.{◌≡◌, IfOk};
ghost use Rattle.trick_top_refusals.specs.Join.{join_line as line_of};

use crate::line::{out_of_memory, refused_above, refused_at};
use crate::name::INPUT;
use crate::text::time_line;
use std::alloc::{AllocError, Global};
use trick_plan_lines::JoinFault;

/// The line of an input that makes no plan of a program, with its line feed: `refused`, the code, `input`,
/// and the line of the fault; and for one too many its limit after the line. Refuses for want of memory
/// alone.
pub fn join_line(alloc: Global, fault: JoinFault) -> Result<Vec<u8>, AllocError>
    ensures { IfOk result (λ line. line.items ≡ line_of fault) }
{
    match fault {
        JoinFault::Time(fault) => time_line(alloc, INPUT, fault),
        JoinFault::UnknownName { line } => {
            refused_at(alloc, b"UnknownName", INPUT, u64::from(line))
        }
        JoinFault::UnknownJob { line } => {
            refused_at(alloc, b"UnknownJob", INPUT, u64::from(line))
        }
        JoinFault::OutOfRange { line } => {
            refused_at(alloc, b"OutOfRange", INPUT, u64::from(line))
        }
        JoinFault::TwiceNamed { line } => {
            refused_at(alloc, b"TwiceNamed", INPUT, u64::from(line))
        }
        JoinFault::BadAction { line } => refused_at(alloc, b"BadAction", INPUT, u64::from(line)),
        JoinFault::TooMany { line, limit } => {
            refused_above(alloc, b"TooMany", INPUT, u64::from(line), limit)
        }
        JoinFault::OutOfMemory => out_of_memory(alloc),
    }
}
