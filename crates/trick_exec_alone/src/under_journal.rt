//! The run under a journal.

ghost use Rattle.std.specs.Arc.{arc_value};
ghost use Rattle.std.specs.Prelude.{◌≡◌, ℕ, None};
ghost use Rattle.trick_phase_jobs.specs.Belongs.{IsMemoryOf};
ghost use Rattle.trick_model.specs.PlanOf.{plan_of};
ghost use Rattle.trick_model.specs.Run.{start as start_of};
ghost use Rattle.trick_model.specs.State.{seen};
ghost use Rattle.trick_model.specs.ValidState.{IsStateOf};
ghost use Rattle.trick_exec_alone.specs.Replay.{RunsReplay};

use crate::{Replayed, first_state, one_thread, summary_of};
use std::alloc::Global;
use std::sync::Arc;
use trick_exec::{Ended, Start, run};
use trick_exec_meaning::laws::journals_show;
use trick_exec_sources::JournalTurns;
use trick_exec_tic::Workers;
use trick_lang::Cells;
use trick_model::{Accepted, Journal, State, laws};
use trick_outside::{Shelf, Stop};
use trick_phase_jobs::Phases;
use trick_post_work::Posts;

// Replays a journal from a state by these workers.
fn replay_by<M: Cells + Drop, F: Shelf, H: Phases<M> + Drop, P: Posts + Drop>(
    accepted: &Accepted,
    journal: Journal,
    start: Start<M>,
    shelf: &mut F,
    workers: Workers<H, P>,
) -> Result<Replayed, Stop>
    requires own { H.is_for workers.phases accepted.now.plan }
    requires posts { P.plan workers.posts ≡ accepted.now.plan }
    requires free { (n : ℕ) → P.in_flight workers.posts n ≡ None }
    requires valid { IsStateOf (plan_of accepted.now.plan) (seen M.numbers start.state) }
    requires memory { IsMemoryOf accepted.now.plan.program (M.numbers start.state.memory)
        (M.scalars start.state.memory) }
    ensures run { RunsReplay F.Shelf (plan_of accepted.now.plan) (seen M.numbers start.state) journal
        shelf.old shelf.new result }
{
    journals_show();
    let Start { alloc, state } = start;
    let mut workers = workers;
    let Ok(mut turns) = JournalTurns::new(alloc, journal, state.turn, state.mode) else {
        return Err(Stop::Memory);
    };
    let joins = turns.joins();
    let start = Start { alloc, state };
    match run(accepted, start, shelf, &mut workers, &mut turns)? {
        Ended::Done(world) => Ok(Replayed::Ended {
            ended: summary_of(&world.state),
            joins,
        }),
        Ended::Length { kept, given } => Ok(Replayed::Length { kept, given }),
    }
}

/// Runs an accepted plan, which it shares with its workers, from a state under a journal, on the caller's
/// thread, until the run is over: so a replay goes on from a checkpoint. Entries of turns before the state's
/// are skipped, and the sessions that are there then join first at its turn, if the run is not over there by
/// the journal alone. It writes the files of the run,
/// and where it stops a part of them: at `Stop::Shelf` the shelf failed, and at `Stop::Memory` there was no
/// memory. Where the run is over at another turn than the journal's end, or would go on there, the journal
/// does not fit: what was written so far stays, and nothing is written after it.
pub fn replay_from<M: Cells + Drop, F: Shelf>(
    alloc: Global,
    accepted: &Arc<Accepted, Global>,
    journal: Journal,
    state: State<M>,
    shelf: &mut F,
) -> Result<Replayed, Stop>
    requires valid { IsStateOf (plan_of (arc_value accepted.now).plan) (seen M.numbers state) }
    requires memory { IsMemoryOf (arc_value accepted.now).plan.program (M.numbers state.memory)
        (M.scalars state.memory) }
    ensures run { RunsReplay F.Shelf (plan_of (arc_value accepted.now).plan) (seen M.numbers state) journal
        shelf.old shelf.new result }
{
    let Ok(workers) = one_thread::<M>(alloc, accepted) else {
        return Err(Stop::Memory);
    };
    let start = Start { alloc, state };
    replay_by(accepted, journal, start, shelf, workers)
}

/// Runs an accepted plan, which it shares with its workers, from its start under a journal, on the caller's
/// thread, until the run is over. It writes the files of the run, and where it stops a part of them: at
/// `Stop::Shelf` the shelf failed, and at `Stop::Memory` there was no memory. Where the journal does not fit,
/// what was written so far stays, and nothing is written after it.
pub fn replay<F: Shelf>(
    alloc: Global,
    accepted: &Arc<Accepted, Global>,
    journal: Journal,
    shelf: &mut F,
) -> Result<Replayed, Stop>
    ensures run { RunsReplay F.Shelf (plan_of (arc_value accepted.now).plan)
        (start_of (plan_of (arc_value accepted.now).plan)) journal shelf.old shelf.new result }
{
    laws::plans_are_sound();
    laws::runs_start_valid();
    match first_state(alloc, accepted) {
        Ok(state) => replay_from(alloc, accepted, journal, state, shelf),
        Err(_) => Err(Stop::Memory),
    }
}
