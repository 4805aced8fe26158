//! The jobs of a thread, and the threads beside the tics.

ghost use Rattle.std.specs.Prelude.{◌≡◌, ◌<◌, IfOk, All, length, map};
ghost use Rattle.trick_lang.specs.declared.job.JobId.{JobId};
ghost use Rattle.trick_model.specs.Plan.{jobs_of as jobs_of_thread, threads_beside as threads_beside_of};
ghost use Rattle.trick_model.specs.PlanOf.{plan_of};

use std::alloc::{AllocError, Global};
use trick_lang::{JobId, Program};
use trick_model::{Plan, Thread};

/// The jobs of a thread, in program order.
pub fn jobs_of(alloc: Global, program: &Program, thread: Thread) -> Result<Vec<JobId>, AllocError>
    ensures jobs { IfOk result (λ found.
        map (λ (job : JobId). job.0) found.items ≡ jobs_of_thread program.now.jobs thread) }
    ensures there { IfOk result (λ found. All (λ (job : JobId). job.0 < length program.now.jobs) found.items) }
{
    let mut found = Vec::new(alloc);
    for (k, job) in program.jobs.as_slice().iter().enumerate() {
        if job.thread == thread.number {
            found.push(JobId(k as u32))?;
        }
    }
    Ok(found)
}

/// The must-finish and asynchronous threads of a plan, by rising number.
pub fn threads_beside(alloc: Global, plan: &Plan) -> Result<Vec<Thread>, AllocError>
    ensures { IfOk result (λ found. found.items ≡ threads_beside_of (plan_of plan.now)) }
{
    let mut found = Vec::new(alloc);
    for thread in plan.threads.as_slice() {
        if thread.process.is_beside() {
            found.push(*thread)?;
        }
    }
    Ok(found)
}
