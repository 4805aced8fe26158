ghost use Rattle.std.specs.Prelude.{◌<◌, IfOk, length};
ghost use Rattle.trick_access.specs.Ranges.{AreCellsOf};
ghost use Rattle.trick_lang.specs.Effect.{reads, writes};

use crate::cells::Access;
use crate::reach::cells_of;
use crate::reach::way::Way;
use std::alloc::{AllocError, Global};
use trick_lang::{JobId, Program};

/// What a job may read and write, as ranges in order, as long as can be. It costs the statements of
/// the blocks that the job reaches, each once, and the cells of the program.
pub fn access(alloc: Global, program: &Program, job: JobId) -> Result<Access, AllocError>
    requires { job.0 < length program.now.jobs }
    ensures reads { IfOk result (λ access. AreCellsOf (length program.now.cells) (reads program.now job) access.reads) }
    ensures writes { IfOk result (λ access. AreCellsOf (length program.now.cells)
        (writes program.now job) access.writes) }
{
    Ok(Access {
        reads: cells_of(alloc, program, job, Way::Reads)?,
        writes: cells_of(alloc, program, job, Way::Writes)?,
    })
}
