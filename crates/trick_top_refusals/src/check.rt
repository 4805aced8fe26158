//! The lines of what the names of an S_define are refused for.

ghost use Rattle.std.specs.Prelude.{◌≡◌, IfOk};
ghost use Rattle.trick_check.specs.declared.fault.CheckFault.TheVariants.{TooManySteps};
ghost use Rattle.trick_top_refusals.specs.Check.{check_line as line_of};
ghost use Rattle.trick_top_refusals.specs.Line.{refused_name as refused_name_line};

use crate::field::Field;
use crate::line::{out_of_memory, refused, refused_at};
use crate::name::S_DEFINE;
use std::alloc::{AllocError, Global};
use trick_base::Word;
use trick_check::CheckFault;

// The line of an S_define that is refused for a name.
fn refused_name(alloc: Global, code: &[u8], name: &Word) -> Result<Vec<u8>, AllocError>
    ensures { IfOk result (λ line. line.items ≡ refused_name_line code.now S_DEFINE.now name.now) }
{
    let fields = [Field::Name(S_DEFINE), Field::Name(name.as_slice())];
    refused(alloc, code, &fields)
}

// The line of a job that has too many steps.
fn too_many_steps(alloc: Global, job: &Word, instance: u32) -> Result<Vec<u8>, AllocError>
    ensures { IfOk result (λ line. line.items ≡ line_of (TooManySteps job.now instance)) }
{
    let fields = [
        Field::Name(S_DEFINE),
        Field::Name(job.as_slice()),
        Field::Number(u64::from(instance)),
    ];
    refused(alloc, b"TooManySteps", &fields)
}

/// The line of an S_define that names no program, with its line feed: `refused`, the code, `S_define`, and
/// the line of the fault, the name that is refused, the count that there would be, or the job with its
/// instance. Refuses for want of memory alone.
pub fn check_line(alloc: Global, fault: &CheckFault) -> Result<Vec<u8>, AllocError>
    ensures { IfOk result (λ line. line.items ≡ line_of fault.now) }
{
    match fault {
        CheckFault::Twice { name } => refused_name(alloc, b"Twice", name),
        CheckFault::Unknown { line } => {
            refused_at(alloc, b"Unknown", S_DEFINE, u64::from(*line))
        }
        CheckFault::NotScalar { line } => {
            refused_at(alloc, b"NotScalar", S_DEFINE, u64::from(*line))
        }
        CheckFault::Recursive { method } => refused_name(alloc, b"Recursive", method),
        CheckFault::TooManyCells { count } => refused_at(alloc, b"TooManyCells", S_DEFINE, *count),
        CheckFault::TooManyJobs { count } => refused_at(alloc, b"TooManyJobs", S_DEFINE, *count),
        CheckFault::TooManySteps { job, instance } => too_many_steps(alloc, job, *instance),
        CheckFault::OutOfMemory => out_of_memory(alloc),
    }
}
