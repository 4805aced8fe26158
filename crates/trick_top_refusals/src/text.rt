//! The lines of the faults of a text before it is read, and of times. `source` names the text.

ghost use Rattle.std.specs.Prelude.{◌≡◌, IfOk};
ghost use Rattle.trick_top_refusals.specs.Texts.{text_line as text_line_of, time_line as time_line_of};

use crate::line::{out_of_memory, refused_at};
use std::alloc::{AllocError, Global};
use trick_text::{TextFault, TimeFault};

/// The line of a text that is no list of tokens.
pub(crate) fn text_line(
    alloc: Global,
    source: &[u8],
    fault: TextFault,
) -> Result<Vec<u8>, AllocError>
    ensures { IfOk result (λ line. line.items ≡ text_line_of source.now fault) }
{
    match fault {
        TextFault::LongText { limit } => {
            refused_at(alloc, b"LongText", source, u64::from(limit))
        }
        TextFault::BadByte { at } => refused_at(alloc, b"BadByte", source, at as u64),
        TextFault::OpenComment { at } => refused_at(alloc, b"OpenComment", source, at as u64),
        TextFault::LongNumber { at } => refused_at(alloc, b"LongNumber", source, at as u64),
        TextFault::OutOfMemory => out_of_memory(alloc),
    }
}

/// The line of a number of seconds that is no time.
pub(crate) fn time_line(
    alloc: Global,
    source: &[u8],
    fault: TimeFault,
) -> Result<Vec<u8>, AllocError>
    ensures { IfOk result (λ line. line.items ≡ time_line_of source.now fault) }
{
    match fault {
        TimeFault::InexactTime { line } => {
            refused_at(alloc, b"InexactTime", source, u64::from(line))
        }
        TimeFault::TimeTooLarge { line } => {
            refused_at(alloc, b"TimeTooLarge", source, u64::from(line))
        }
    }
}
