//! The jobs of checkpoints, and of shutdown.

ghost use Rattle.std.specs.Prelude.{◌≡◌};
ghost use Rattle.trick_eval.specs.Bench.{IsFor};
ghost use Rattle.trick_phase_jobs.specs.Belongs.{IsMemoryOf};
ghost use Rattle.trick_model.specs.PlanOf.{plan_of};
ghost use Rattle.trick_model.specs.Run.{shut as shut_of};
ghost use Rattle.trick_model.specs.State.{seen};
ghost use Rattle.trick_model.specs.Turn.{checkpoint_jobs};

use crate::class_jobs::run_class;
use trick_eval::Bench;
use trick_lang::{Cells, Class};
use trick_model::{Mode, Plan, State};

/// Runs the checkpoint jobs, where a checkpoint was asked for in this turn.
pub fn checkpoint_jobs<M: Cells>(plan: &Plan, asked: bool, state: &mut State<M>, bench: &mut Bench)
    requires bench { IsFor plan.now.program bench.old.parts }
    requires memory { IsMemoryOf plan.now.program (M.numbers state.old.memory) (M.scalars state.old.memory) }
    ensures ran { seen M.numbers state.new ≡ checkpoint_jobs (plan_of plan.now) asked (seen M.numbers state.old) }
    ensures memory { IsMemoryOf plan.now.program (M.numbers state.new.memory) (M.scalars state.new.memory) }
    ensures bench { bench.new.parts ≡ bench.old.parts }
{
    if asked {
        run_class(plan, Class::Checkpoint, state, bench);
    }
}

/// Ends a run that is over: where the mode is not yet Shutdown, it becomes that, and the shutdown jobs
/// run.
pub fn shut<M: Cells>(plan: &Plan, state: &mut State<M>, bench: &mut Bench)
    requires bench { IsFor plan.now.program bench.old.parts }
    requires memory { IsMemoryOf plan.now.program (M.numbers state.old.memory) (M.scalars state.old.memory) }
    ensures shut { seen M.numbers state.new ≡ shut_of (plan_of plan.now) (seen M.numbers state.old) }
    ensures memory { IsMemoryOf plan.now.program (M.numbers state.new.memory) (M.scalars state.new.memory) }
    ensures bench { bench.new.parts ≡ bench.old.parts }
{
    match state.mode {
        Mode::Run | Mode::Freeze => {
            state.mode = Mode::Shutdown;
            run_class(plan, Class::Shutdown, state, bench);
        }
        Mode::Shutdown => {}
    }
}
