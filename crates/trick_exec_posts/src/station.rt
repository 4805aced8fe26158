//! The threads beside the tics, with what each of them is given.

ghost use Rattle.std.specs.Prelude.{◌≡◌, IfOk};
ghost use Rattle.trick_exec_posts.specs.Stations.{AreStations, IsStation};
ghost use Rattle.trick_model.specs.PlanOf.{plan_of};
ghost use Rattle.trick_model.specs.Valid.{IsCycle};

use std::alloc::{AllocError, Global};
use trick_base::Items;
use trick_chkpt_printer::{jobs_of, scope, threads_beside};
use trick_lang::{Cell, JobId};
use trick_model::{Plan, Thread};

/// A thread beside the tics, with the cells that its jobs may read or write, in order, and its jobs, in
/// program order: these cells and the flags of these jobs it is given.
#[derive(Debug, Drop)]
pub struct Station {
    pub thread: Thread,
    pub scope: Items<Cell>,
    pub jobs: Items<JobId>,
}

// The station of a thread.
fn station_of(alloc: Global, plan: &Plan, thread: Thread) -> Result<Station, AllocError>
    requires { IsCycle thread.cycle }
    ensures right { IfOk result (IsStation (plan_of plan.now)) }
    ensures thread { IfOk result (λ station. station.thread ≡ thread) }
{
    let scope = scope(alloc, plan, thread)?;
    let jobs = jobs_of(alloc, &plan.program, thread)?;
    Ok(Station {
        thread,
        scope: Items::from_vec(scope),
        jobs: Items::from_vec(jobs),
    })
}

/// A station for each must-finish and asynchronous thread of a plan, by rising number. A run makes them
/// once: it costs the cells of the program and the statements that a job reaches, for each job of these
/// threads.
pub fn stations(alloc: Global, plan: &Plan) -> Result<Vec<Station>, AllocError>
    ensures { IfOk result (λ stations. AreStations (plan_of plan.now) stations.items) }
{
    let threads = threads_beside(alloc, plan)?;
    let mut stations = Vec::new(alloc);
    for thread in &threads {
        stations.push(station_of(alloc, plan, *thread)?)?;
    }
    Ok(stations)
}
