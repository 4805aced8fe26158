// The threads that the input names, the jobs of child threads, and the order of pairs.

ghost use Rattle.std.specs.Prelude.{◌≡◌, ◌<◌, ◌↔◌, ℕ, IsTrue, MatchOption, length};
ghost use Rattle.trick_model.specs.Acceptance.{IsForward, IsNamedRight, IsOnMain};
ghost use Rattle.trick_model.specs.Plan.{has_job as has_job_of};
ghost use Rattle.trick_model.specs.PlanOf.{plan_of};
ghost use Rattle.trick_race.specs.Refusals.{AreForward, AreNamedRight, AreOnMain, IsFirstItemWithout};

use trick_lang::{Class, Job, JobId};
use trick_model::{Depends, Plan, Thread, is_of_class, precedes};

// Whether some job is on the thread.
fn has_job(jobs: &[Job], thread: Thread) -> bool
    ensures { result ≡ has_job_of jobs.now thread }
{
    jobs.iter().any(|job| job.thread == thread.number)
}

fn is_named_right(plan: &Plan, thread: Thread) -> bool
    ensures { IsTrue result ↔ IsNamedRight (plan_of plan.now) thread }
{
    !thread.named || (thread.number != 0 && has_job(plan.program.jobs.as_slice(), thread))
}

// The first thread that the input names and must not.
pub(crate) fn no_thread(plan: &Plan) -> Option<Thread>
    ensures { MatchOption result (AreNamedRight (plan_of plan.now))
        (IsFirstItemWithout (IsNamedRight (plan_of plan.now)) plan.now.threads) }
{
    for thread in plan.threads.as_slice() {
        if !is_named_right(plan, *thread) {
            return Some(*thread);
        }
    }
    None
}

// The first job of another class than scheduled on a child thread.
pub(crate) fn class_on_child(plan: &Plan) -> Option<JobId>
    ensures { MatchOption result (AreOnMain (plan_of plan.now))
        (λ job. (job.0 < length plan.now.program.jobs) × (IsOnMain (plan_of plan.now) job.0 → ⊥)
        × ((k : ℕ) → k < job.0 → IsOnMain (plan_of plan.now) k)) }
{
    let jobs = plan.program.jobs.as_slice();
    for number in 0..jobs.len() {
        let job = &jobs[number];
        if !is_of_class(job, Class::Scheduled) && job.thread != 0 {
            return Some(JobId(number as u32));
        }
    }
    None
}

fn is_forward(plan: &Plan, pair: Depends) -> bool
    requires target { pair.target.0 < length plan.now.program.jobs }
    requires depended { pair.depended.0 < length plan.now.program.jobs }
    ensures { IsTrue result ↔ IsForward (plan_of plan.now) pair }
{
    precedes(plan.job(pair.depended), plan.job(pair.target))
}

// The first pair whose depended job has not the smaller key.
pub(crate) fn backwards(plan: &Plan) -> Option<Depends>
    ensures { MatchOption result (AreForward (plan_of plan.now))
        (IsFirstItemWithout (IsForward (plan_of plan.now)) plan.now.depends) }
{
    for pair in plan.depends.as_slice() {
        if !is_forward(plan, *pair) {
            return Some(*pair);
        }
    }
    None
}
