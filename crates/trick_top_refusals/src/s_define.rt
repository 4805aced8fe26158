//! The lines of what an S_define is refused for.

ghost use Rattle.std.specs.Prelude.{◌≡◌, IfOk};
ghost use Rattle.trick_top_refusals.specs.SDefine.{s_define_line as line_of};

use crate::line::{out_of_memory, refused_above, refused_at};
use crate::name::S_DEFINE;
use crate::text::{text_line, time_line};
use std::alloc::{AllocError, Global};
use trick_sdef::SdefFault;

/// The line of an S_define that is not read, with its line feed: `refused`, the code, `S_define`, and the
/// line of the fault; for a fault of the text itself its place, or the limit of a text that is too long;
/// and for a long list its limit after the line. Refuses for want of memory alone.
pub fn s_define_line(alloc: Global, fault: SdefFault) -> Result<Vec<u8>, AllocError>
    ensures { IfOk result (λ line. line.items ≡ line_of fault) }
{
    match fault {
        SdefFault::Text(fault) => text_line(alloc, S_DEFINE, fault),
        SdefFault::Expected { line } => {
            refused_at(alloc, b"Expected", S_DEFINE, u64::from(line))
        }
        SdefFault::NotInProfile { line } => {
            refused_at(alloc, b"NotInProfile", S_DEFINE, u64::from(line))
        }
        SdefFault::LoopBound { line } => {
            refused_at(alloc, b"LoopBound", S_DEFINE, u64::from(line))
        }
        SdefFault::LongList { line, limit } => refused_above(
            alloc,
            b"LongList",
            S_DEFINE,
            u64::from(line),
            u64::from(limit),
        ),
        SdefFault::Time(fault) => time_line(alloc, S_DEFINE, fault),
        SdefFault::OutOfMemory => out_of_memory(alloc),
    }
}
