//! Who does the jobs of a served run.

ghost use Rattle.std.specs.Arc.{arc_value};
ghost use Rattle.std.specs.Prelude.{◌≡◌, ◌≤◌, ℕ, IfOk, None, Some};
ghost use Rattle.trick_crew.specs.InHand.{in_hand, plan_for};

use std::alloc::{AllocError, Global};
use std::sync::{Arc, Wait};
use std::thread::Threads;
use trick_crew::{Clerks, WholeCrew};
use trick_crew_team::Team;
use trick_exec_tic::Workers;
use trick_memory::Memory;
use trick_model::{Accepted, Plan, Planned};
use trick_outside::{Gate, Spawner};

/// Whether some child thread of a plan has a job. Where none has, the caller does all jobs, as fast as on one thread.
pub(crate) fn has_children(plan: &Plan) -> bool {
    for job in plan.program.jobs.as_slice() {
        if job.thread != 0 {
            return true;
        }
    }
    false
}

/// The whole crew of a plan: a worker for each scheduled child thread that has a job, and a clerk for each must-finish
/// and asynchronous thread, as far as the spawner admits them. No thread is left where there was no memory.
pub(crate) fn crew_of<P: Planned + Send + 'static, S: Spawner, G, R>(
    rt: R,
    alloc: Global,
    accepted: &Arc<Accepted, Global>,
    spawner: &mut S,
    gate: Arc<G, Global>,
) -> Result<Workers<Team<Memory, P, G, R>, Clerks<P, G, R>>, AllocError>
where
    G: Gate + Send + Sync + Drop + 'static,
    R: Threads + Wait + Copy + Send + Drop + 'static,
    requires plan { P.plan ≡ Some (arc_value accepted.now).plan }
    ensures phases { IfOk result (λ workers. arc_value workers.phases.held.accepted ≡ arc_value accepted.now) }
    ensures posts { IfOk result (λ workers. plan_for workers.posts ≡ (arc_value accepted.now).plan) }
    ensures free { IfOk result (λ workers. (n : ℕ) → in_hand workers.posts n ≡ None) }
    ensures later { S.failures spawner.old ≤ S.failures spawner.new }
{
    let WholeCrew { phases, posts } = WholeCrew::new(rt, alloc, accepted, spawner, gate)?;
    Ok(Workers { phases, posts })
}
