//! What all jobs of a program may read and write, job by job.

ghost use Rattle.std.specs.List.{slice_index_or};
ghost use Rattle.std.specs.Prelude.{◌≡◌, ◌<◌, [], IfOk, length, ℕ};
ghost use Rattle.trick_access.specs.Accesses.{AreAccessesOf, reads_of, writes_of};
ghost use Rattle.trick_access.specs.Ranges.{AreCellsOf};
ghost use Rattle.trick_lang.specs.Effect.{reads};
ghost use Rattle.trick_lang.specs.declared.job.JobId.{JobId};

use crate::cells::Access;
use crate::job_access::access;
use crate::reach::cells_of;
use crate::reach::way::Way;
use std::alloc::{AllocError, Global};
use trick_base::Items;
use trick_lang::{CellRange, JobId, Program};

/// What each job of a program may read and write, by its number, as [`access`] has it and at the cost
/// of that for each job.
pub fn accesses(alloc: Global, program: &Program) -> Result<Items<Access>, AllocError>
    ensures { IfOk result (AreAccessesOf program.now) }
{
    let mut all = Items::new(alloc);
    for number in 0..program.jobs.len() {
        all.push(access(alloc, program, JobId(number as u32))?)?;
    }
    Ok(all)
}

/// What each job of a program may read, by its number, as [`access`] has it, for whoever needs no more
/// than that. It costs half of what [`accesses`] costs.
pub fn reads_of_jobs(
    alloc: Global,
    program: &Program,
) -> Result<Items<Items<CellRange>>, AllocError>
    ensures many { IfOk result (λ all. length all ≡ length program.now.jobs) }
    ensures each { IfOk result (λ all. (job : JobId) → job.0 < length program.now.jobs →
        AreCellsOf (length program.now.cells) (reads program.now job) (slice_index_or all job.0 [])) }
{
    let mut all = Items::new(alloc);
    for number in 0..program.jobs.len() {
        all.push(cells_of(alloc, program, JobId(number as u32), Way::Reads)?)?;
    }
    Ok(all)
}

/// What each job may read, out of what each may read and write. It costs the ranges alone.
pub fn reads_in(alloc: Global, accesses: &[Access]) -> Result<Items<Items<CellRange>>, AllocError>
    ensures many { IfOk result (λ all. length all ≡ length accesses.now) }
    ensures each { IfOk result (λ all. (k : ℕ) → slice_index_or all k [] ≡ reads_of accesses.now k) }
{
    let mut all = Items::new(alloc);
    for access in accesses {
        let reads = access.reads.as_slice().to_vec(alloc)?;
        all.push(Items::from_vec(reads))?;
    }
    Ok(all)
}

/// What each job may write, out of what each may read and write. It costs the ranges alone.
pub fn writes_in(alloc: Global, accesses: &[Access]) -> Result<Items<Items<CellRange>>, AllocError>
    ensures many { IfOk result (λ all. length all ≡ length accesses.now) }
    ensures each { IfOk result (λ all. (k : ℕ) → slice_index_or all k [] ≡ writes_of accesses.now k) }
{
    let mut all = Items::new(alloc);
    for access in accesses {
        let writes = access.writes.as_slice().to_vec(alloc)?;
        all.push(Items::from_vec(writes))?;
    }
    Ok(all)
}

/// The ranges of a job, of those of each job by its number.
pub fn ranges_of(all: &[Items<CellRange>], job: JobId) -> &[CellRange]
    requires { job.0 < length all.now }
    ensures { result.now ≡ slice_index_or all.now job.0 [] }
{
    all[job.0 as usize].as_slice()
}
