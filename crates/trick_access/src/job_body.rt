ghost use Rattle.std.specs.Prelude.{◌≡◌};
ghost use Rattle.trick_lang.specs.Effect.{base_of, body_of};

use trick_lang::{JobId, Program};

/// The first cell of a job's object.
pub fn base(program: &Program, job: JobId) -> u32
    ensures { result ≡ base_of program.now job }
{
    let Some(job) = program.jobs.as_slice().get(job.0 as usize) else {
        return 0;
    };
    match program.objects.as_slice().get(job.object as usize) {
        Some(object) => object.first,
        None => 0,
    }
}

/// The block that a job runs, by number: that of its method. A job that is not there runs the
/// number past the last block, which does nothing.
pub fn body(program: &Program, job: JobId) -> usize
    ensures { result ≡ body_of program.now job }
{
    let Some(job) = program.jobs.as_slice().get(job.0 as usize) else {
        return program.blocks.len();
    };
    match program.methods.as_slice().get(job.method as usize) {
        Some(method) => method.block as usize,
        None => program.blocks.len(),
    }
}
