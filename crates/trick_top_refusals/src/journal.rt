//! The lines of what a journal is refused for.

ghost use Rattle.std.specs.Prelude.{◌≡◌, IfOk};
ghost use Rattle.trick_top_refusals.specs.Journal.{journal_line as line_of, length_line as line_of_length};

use crate::field::Field;
use crate::line::{out_of_memory, refused, refused_at};
use crate::name::JOURNAL;
use std::alloc::{AllocError, Global};
use trick_journal::JournalFault;

/// The line of a journal that is not read, with its line feed: `refused`, the code, `journal`, and the line
/// of the fault. Refuses for want of memory alone.
pub fn journal_line(alloc: Global, fault: JournalFault) -> Result<Vec<u8>, AllocError>
    ensures { IfOk result (λ line. line.items ≡ line_of fault) }
{
    match fault {
        JournalFault::BadLine { line } => refused_at(alloc, b"BadLine", JOURNAL, line as u64),
        JournalFault::NotRising { line } => refused_at(alloc, b"NotRising", JOURNAL, line as u64),
        JournalFault::NotJoined { line } => refused_at(alloc, b"NotJoined", JOURNAL, line as u64),
        JournalFault::NotAsync { line } => refused_at(alloc, b"NotAsync", JOURNAL, line as u64),
        JournalFault::NoEnd { line } => refused_at(alloc, b"NoEnd", JOURNAL, line as u64),
        JournalFault::OutOfMemory => out_of_memory(alloc),
    }
}

/// The line of a journal that does not fit its run, with its line feed: `refused`, `JournalLength`, the turn
/// at which the journal ends, and that at which the run would. Refuses for want of memory alone.
pub fn length_line(alloc: Global, kept: u64, given: u64) -> Result<Vec<u8>, AllocError>
    ensures { IfOk result (λ line. line.items ≡ line_of_length kept given) }
{
    refused(
        alloc,
        b"JournalLength",
        &[Field::Number(kept), Field::Number(given)],
    )
}
