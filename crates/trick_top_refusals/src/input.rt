//! The lines of what an input is refused for.

ghost use Rattle.std.specs.Prelude.{◌≡◌, IfOk};
ghost use Rattle.trick_top_refusals.specs.Input.{input_line as line_of};

use crate::line::{out_of_memory, refused_at};
use crate::name::INPUT;
use crate::text::text_line;
use std::alloc::{AllocError, Global};
use trick_input::InputFault;

/// The line of an input that is not read, with its line feed: `refused`, the code, `input`, and the line of
/// the fault; for a fault of the text itself its place, or the limit of a text that is too long. Refuses
/// for want of memory alone.
pub fn input_line(alloc: Global, fault: InputFault) -> Result<Vec<u8>, AllocError>
    ensures { IfOk result (λ line. line.items ≡ line_of fault) }
{
    match fault {
        InputFault::Text(fault) => text_line(alloc, INPUT, fault),
        InputFault::Expected { line } => refused_at(alloc, b"Expected", INPUT, u64::from(line)),
        InputFault::NotInProfile { line } => {
            refused_at(alloc, b"NotInProfile", INPUT, u64::from(line))
        }
        InputFault::BadLiteral { line } => {
            refused_at(alloc, b"BadLiteral", INPUT, u64::from(line))
        }
        InputFault::OutOfMemory => out_of_memory(alloc),
    }
}
