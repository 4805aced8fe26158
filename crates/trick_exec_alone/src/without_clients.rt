//! The run of a plan, and that of a state.

ghost use Rattle.std.specs.Arc.{arc_value};
ghost use Rattle.std.specs.Prelude.{◌≡◌, ℕ, None};
ghost use Rattle.trick_phase_jobs.specs.Belongs.{IsMemoryOf};
ghost use Rattle.trick_model.specs.PlanOf.{plan_of};
ghost use Rattle.trick_model.specs.Run.{start as start_of};
ghost use Rattle.trick_model.specs.State.{seen};
ghost use Rattle.trick_model.specs.ValidState.{IsStateOf};
ghost use Rattle.trick_post_trays.specs.Posting.{started_at};
ghost use Rattle.trick_exec_alone.specs.Serial.{RunsSerially};

use crate::Summary;
use crate::first::first_state;
use crate::summary::summary_of;
use crate::workers::one_thread;
use std::alloc::Global;
use std::sync::Arc;
use trick_exec::laws::{runs_are_alone, serial_forms_are_alone};
use trick_exec::{Start, run};
use trick_exec_sources::NoTurns;
use trick_exec_tic::Workers;
use trick_lang::Cells;
use trick_model::{Accepted, State, laws};
use trick_outside::{Shelf, Stop};
use trick_phase_jobs::Phases;
use trick_post_trays::OnePost;

/// Runs an accepted plan from a state by these workers, who have nothing in flight, without clients, until the run
/// is over; whoever does the jobs, it comes to what one thread makes of it. It writes the files of the run, and where
/// it stops a part of them: at `Stop::Shelf` the shelf failed, and at `Stop::Memory` there was no memory.
pub fn serial_by<M: Cells + Drop, F: Shelf, H: Phases<M>>(
    alloc: Global,
    accepted: &Accepted,
    state: State<M>,
    shelf: &mut F,
    workers: &mut Workers<H, OnePost>,
) -> Result<Summary, Stop>
    requires own { H.is_for workers.old.phases accepted.now.plan }
    requires posts { (arc_value workers.old.posts.accepted).plan ≡ accepted.now.plan }
    requires free { (n : ℕ) → started_at workers.old.posts.trays.items n ≡ None }
    requires valid { IsStateOf (plan_of accepted.now.plan) (seen M.numbers state) }
    requires memory { IsMemoryOf accepted.now.plan.program (M.numbers state.memory) (M.scalars state.memory) }
    ensures run { RunsSerially F.Shelf (plan_of accepted.now.plan) (seen M.numbers state) shelf.old shelf.new result }
{
    runs_are_alone::<M, F, OnePost, NoTurns>();
    serial_forms_are_alone::<M, F>();
    let mut turns = NoTurns;
    let start = Start { alloc, state };
    match run(accepted, start, shelf, workers, &mut turns)? {
        trick_exec::Ended::Done(world) => Ok(summary_of(&world.state)),
        trick_exec::Ended::Length { .. } => unreachable!(),
    }
}

/// Runs an accepted plan, which it shares with its workers, from a state, on the caller's thread and without
/// clients, until the run is over: so a run goes on from a checkpoint. It writes the files of the run, and
/// where it stops a part of them: at `Stop::Shelf` the shelf failed, and at `Stop::Memory` there was no memory.
pub fn serial_from<M: Cells + Drop, F: Shelf>(
    alloc: Global,
    accepted: &Arc<Accepted, Global>,
    state: State<M>,
    shelf: &mut F,
) -> Result<Summary, Stop>
    requires valid { IsStateOf (plan_of (arc_value accepted.now).plan) (seen M.numbers state) }
    requires memory { IsMemoryOf (arc_value accepted.now).plan.program (M.numbers state.memory)
        (M.scalars state.memory) }
    ensures run { RunsSerially F.Shelf (plan_of (arc_value accepted.now).plan) (seen M.numbers state)
        shelf.old shelf.new result }
{
    let Ok(mut workers) = one_thread::<M>(alloc, accepted) else {
        return Err(Stop::Memory);
    };
    serial_by(alloc, accepted, state, shelf, &mut workers)
}

/// Runs an accepted plan, which it shares with its workers, from its start, on the caller's thread and without
/// clients, until the run is over. It writes the files of the run, and where it stops a part of them: at
/// `Stop::Shelf` the shelf failed, and at `Stop::Memory` there was no memory.
pub fn serial<F: Shelf>(
    alloc: Global,
    accepted: &Arc<Accepted, Global>,
    shelf: &mut F,
) -> Result<Summary, Stop>
    ensures run { RunsSerially F.Shelf (plan_of (arc_value accepted.now).plan)
        (start_of (plan_of (arc_value accepted.now).plan)) shelf.old shelf.new result }
{
    laws::plans_are_sound();
    laws::runs_start_valid();
    match first_state(alloc, accepted) {
        Ok(state) => serial_from(alloc, accepted, state, shelf),
        Err(_) => Err(Stop::Memory),
    }
}
