//! The jobs of a thread in key order, and the cells that each job may write.

ghost use Rattle.std.specs.Prelude.{◌≡◌, ◌==◌, ◌∷◌, ◌++◌, [], IfOk, cond};
ghost use Rattle.trick_model.specs.PlanOf.{plan_of};
ghost use Rattle.trick_model.specs.Valid.{ids};
ghost use Rattle.trick_post_trays.specs.Calendars.{scheduled_of};
ghost use Rattle.trick_post_trays.specs.Trays.{AreWrites};

use std::alloc::{AllocError, Global};
use trick_access::writes_in;
use trick_base::Items;
use trick_lang::{CellRange, Class, JobId};
use trick_model::{Accepted, Plan};

// Adds a job where it is wanted.
fn add(jobs: &mut Items<JobId>, job: JobId, wanted: bool) -> Result<(), AllocError>
    ensures { IfOk result (λ _. jobs.new ≡ jobs.old ++ cond wanted (job ∷ []) []) }
{
    if wanted {
        jobs.push(job)?;
    }
    Ok(())
}

/// The jobs of class scheduled on a thread, in key order.
pub fn line(alloc: Global, plan: &Plan, thread: u8) -> Result<Items<JobId>, AllocError>
    ensures { IfOk result (λ jobs. ids jobs ≡ scheduled_of (plan_of plan.now) thread) }
{
    let mut jobs = Items::new(alloc);
    let all = plan.jobs_of_class(Class::Scheduled);
    for job in all {
        add(&mut jobs, *job, plan.job(*job).thread == thread)?;
    }
    Ok(jobs)
}

/// The cells that each job of an accepted plan may write.
pub fn all_writes(alloc: Global, accepted: &Accepted) -> Result<Items<Items<CellRange>>, AllocError>
    ensures { IfOk result (AreWrites accepted.now.plan) }
{
    writes_in(alloc, accepted.accesses())
}
