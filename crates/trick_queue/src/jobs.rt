//! The jobs of class scheduled on scheduled threads, and when they are due.

ghost use Rattle.std.specs.Prelude.{◌≡◌, ◌∷◌, ◌++◌, [], IfOk, IsTrue, cond};
ghost use Rattle.trick_cycle.specs.Due.{IsInRange};
ghost use Rattle.trick_lang.specs.declared.class.Class.TheVariants as class;
ghost use Rattle.trick_model.specs.Order.{is_of_class};
ghost use Rattle.trick_model.specs.PlanOf.{plan_of};
ghost use Rattle.trick_model.specs.Valid.{ids};
ghost use Rattle.trick_queue.specs.Calendar.{IsNext};
ghost use Rattle.trick_queue.specs.Line.{queue_of, times_at};

use crate::tree::NEVER;
use std::alloc::{AllocError, Global};
use trick_cycle::{Due, next_due};
use trick_lang::{Class, JobId};
use trick_model::Plan;

// Adds a job where it is wanted.
fn add(jobs: &mut Vec<JobId>, job: JobId, wanted: bool) -> Result<(), AllocError>
    ensures { IfOk result (λ _. jobs.new.items ≡ jobs.old.items ++ cond wanted (job ∷ []) []) }
{
    if wanted {
        jobs.push(job)?;
    }
    Ok(())
}

/// The jobs of class scheduled on scheduled threads, in key order.
pub fn queue(alloc: Global, plan: &Plan) -> Result<Vec<JobId>, AllocError>
    ensures { IfOk result (λ jobs. ids jobs.items ≡ queue_of (plan_of plan.now)) }
{
    let mut jobs = Vec::new(alloc);
    let all = plan.jobs_of_class(Class::Scheduled);
    for job in all {
        add(&mut jobs, *job, plan.is_on_scheduled(*job))?;
    }
    Ok(jobs)
}

/// When a job of class scheduled is due.
pub fn times(plan: &Plan, job: JobId) -> Due
    requires { IsTrue (is_of_class plan.now.program.jobs class.Scheduled job.0) }
    ensures times { result ≡ times_at plan.now.program.jobs job.0 }
    ensures range { IsInRange result }
{
    let found = plan.job(job);
    Due {
        start: found.start,
        cycle: found.cycle,
        stop: found.stop,
    }
}

/// The least due tic not below `from`, or [`NEVER`].
pub fn next_of(times: Due, from: u64) -> u64
    requires { IsInRange times }
    ensures { IsNext times from result }
{
    match next_due(times, from) {
        Some(tic) => tic,
        None => NEVER,
    }
}
