//! Entering and leaving Freeze.

ghost use Rattle.std.specs.Prelude.{◌≡◌};
ghost use Rattle.trick_eval.specs.Bench.{IsFor};
ghost use Rattle.trick_phase_jobs.specs.Belongs.{IsMemoryOf};
ghost use Rattle.trick_model.specs.Events.{enter_freeze, leave_freeze};
ghost use Rattle.trick_model.specs.PlanOf.{plan_of};
ghost use Rattle.trick_model.specs.State.{seen};
ghost use Rattle.trick_model.specs.Turn.{frozen};

use crate::class_jobs::run_class;
use trick_eval::Bench;
use trick_lang::{Cells, Class};
use trick_model::{Mode, Plan, State};

/// Enters Freeze from Run: sets the mode, and then runs the freeze jobs. In another mode it does
/// nothing.
pub fn enter_freeze<M: Cells>(plan: &Plan, state: &mut State<M>, bench: &mut Bench)
    requires bench { IsFor plan.now.program bench.old.parts }
    requires memory { IsMemoryOf plan.now.program (M.numbers state.old.memory) (M.scalars state.old.memory) }
    ensures entered { seen M.numbers state.new ≡ enter_freeze (plan_of plan.now) (seen M.numbers state.old) }
    ensures memory { IsMemoryOf plan.now.program (M.numbers state.new.memory) (M.scalars state.new.memory) }
    ensures bench { bench.new.parts ≡ bench.old.parts }
{
    match state.mode {
        Mode::Run => {
            state.mode = Mode::Freeze;
            run_class(plan, Class::Freeze, state, bench);
        }
        Mode::Freeze | Mode::Shutdown => {}
    }
}

/// Leaves Freeze: sets the mode to Run, and then runs the unfreeze jobs. In another mode it does nothing.
pub fn leave_freeze<M: Cells>(plan: &Plan, state: &mut State<M>, bench: &mut Bench)
    requires bench { IsFor plan.now.program bench.old.parts }
    requires memory { IsMemoryOf plan.now.program (M.numbers state.old.memory) (M.scalars state.old.memory) }
    ensures left { seen M.numbers state.new ≡ leave_freeze (plan_of plan.now) (seen M.numbers state.old) }
    ensures memory { IsMemoryOf plan.now.program (M.numbers state.new.memory) (M.scalars state.new.memory) }
    ensures bench { bench.new.parts ≡ bench.old.parts }
{
    match state.mode {
        Mode::Freeze => {
            state.mode = Mode::Run;
            run_class(plan, Class::Unfreeze, state, bench);
        }
        Mode::Run | Mode::Shutdown => {}
    }
}

/// Enters Freeze at the end of a frame, where a read or an event asked for it.
pub fn freeze_if_asked<M: Cells>(plan: &Plan, asked: bool, state: &mut State<M>, bench: &mut Bench)
    requires bench { IsFor plan.now.program bench.old.parts }
    requires memory { IsMemoryOf plan.now.program (M.numbers state.old.memory) (M.scalars state.old.memory) }
    ensures frozen { seen M.numbers state.new ≡ frozen (plan_of plan.now) asked (seen M.numbers state.old) }
    ensures memory { IsMemoryOf plan.now.program (M.numbers state.new.memory) (M.scalars state.new.memory) }
    ensures bench { bench.new.parts ≡ bench.old.parts }
{
    if asked {
        enter_freeze(plan, state, bench);
    }
}
