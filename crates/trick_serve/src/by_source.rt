//! The run of a plan by a source of entries that tells no journal.

ghost use Rattle.std.specs.Prelude.{◌≡◌, None, false};
ghost use Rattle.trick_exec_posts.specs.Flight.{IsFree};
ghost use Rattle.trick_phase_jobs.specs.Belongs.{IsMemoryOf};
ghost use Rattle.trick_model.specs.PlanOf.{plan_of};
ghost use Rattle.trick_model.specs.State.{seen};
ghost use Rattle.trick_model.specs.ValidState.{IsStateOf};
ghost use Rattle.trick_exec_meaning.specs.Hosts.{at, hosts};
ghost use Rattle.trick_serve.specs.Ran.{HasRun};
ghost use Rattle.trick_exec_sources.specs.Turns.{no_sessions};

use trick_exec::{Start, run};
use trick_exec_alone::{Summary, summary_of};
use trick_exec_sources::Turns;
use trick_exec_tic::Workers;
use trick_lang::Cells;
use trick_model::Accepted;
use trick_outside::{Shelf, Stop};
use trick_phase_jobs::Phases;
use trick_post_work::Posts;

/// Runs an accepted plan from a state by these workers, who have nothing in flight, over a source of entries that has
/// given nothing yet and tells no journal, until the run is over. It writes the files of the run, and where it stops a
/// part of them: at `Stop::Shelf` the shelf failed, and at `Stop::Memory` there was no memory.
pub(crate) fn run_by<M: Cells + Drop, F: Shelf, H: Phases<M>, P: Posts, T: Turns<M>>(
    accepted: &Accepted,
    start: Start<M>,
    shelf: &mut F,
    workers: &mut Workers<H, P>,
    turns: &mut T,
) -> Result<Summary, Stop>
    requires own { H.is_for workers.old.phases accepted.now.plan }
    requires posts { P.plan workers.old.posts ≡ accepted.now.plan }
    requires free { IsFree (plan_of accepted.now.plan) (P.in_flight workers.old.posts) }
    requires valid { IsStateOf (plan_of accepted.now.plan) (seen M.numbers start.state) }
    requires memory { IsMemoryOf accepted.now.plan.program (M.numbers start.state.memory)
        (M.scalars start.state.memory) }
    requires unknown { T.sessions turns.old ≡ no_sessions }
    requires paid { T.owes turns.old ≡ false }
    requires untold { T.journal turns.old ≡ None }
    ensures ran { HasRun M (hosts F.Shelf T.Turns P.Posts) (plan_of accepted.now.plan) (seen M.numbers start.state)
        (at shelf.old turns.old workers.old.posts) (at shelf.new turns.new workers.new.posts) result }
{
    match run(accepted, start, shelf, workers, turns) {
        Ok(trick_exec::Ended::Done(world)) => Ok(summary_of(&world.state)),
        Ok(trick_exec::Ended::Length { .. }) => unreachable!(),
        Err(stop) => Err(stop),
    }
}
