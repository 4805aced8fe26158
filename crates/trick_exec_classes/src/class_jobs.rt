//! The jobs of a class.

ghost use Rattle.std.specs.Prelude.{◌≡◌, [], false};
ghost use Rattle.trick_eval.specs.Bench.{IsFor};
ghost use Rattle.trick_phase_jobs.specs.Belongs.{IsMemoryOf};
ghost use Rattle.trick_model.specs.Order.{jobs_in};
ghost use Rattle.trick_model.specs.PlanOf.{plan_of};
ghost use Rattle.trick_model.specs.Running.{run_class as class_ran};
ghost use Rattle.trick_model.specs.State.{seen};

use trick_eval::Bench;
use trick_lang::{Cells, Class};
use trick_model::{Plan, State};
use trick_phase_jobs::{Setting, run_jobs};

/// Whether a plan has a job of a class.
pub fn has_jobs(plan: &Plan, class: Class) -> bool
    ensures { result ≡ false → jobs_in plan.now.program.jobs class ≡ [] }
{
    !plan.jobs_of_class(class).is_empty()
}

// Runs the jobs of a class, of which there are some.
fn run_some<M: Cells>(plan: &Plan, class: Class, state: &mut State<M>, bench: &mut Bench)
    requires bench { IsFor plan.now.program bench.old.parts }
    requires memory { IsMemoryOf plan.now.program (M.numbers state.old.memory) (M.scalars state.old.memory) }
    ensures ran { seen M.numbers state.new ≡ class_ran (plan_of plan.now) class (seen M.numbers state.old) }
    ensures memory { IsMemoryOf plan.now.program (M.numbers state.new.memory) (M.scalars state.new.memory) }
    ensures bench { bench.new.parts ≡ bench.old.parts }
{
    let setting = Setting {
        plan,
        on: &state.jobs,
        tic: state.tic,
    };
    let jobs = plan.jobs_of_class(class);
    run_jobs(setting, jobs, bench, &mut state.memory, &mut state.faults);
}

/// Runs the jobs of a class that are on, one after another in key order. Their faults have the state's
/// next tic. Takes no memory, and next to no time where there are none.
pub fn run_class<M: Cells>(plan: &Plan, class: Class, state: &mut State<M>, bench: &mut Bench)
    requires bench { IsFor plan.now.program bench.old.parts }
    requires memory { IsMemoryOf plan.now.program (M.numbers state.old.memory) (M.scalars state.old.memory) }
    ensures ran { seen M.numbers state.new ≡ class_ran (plan_of plan.now) class (seen M.numbers state.old) }
    ensures memory { IsMemoryOf plan.now.program (M.numbers state.new.memory) (M.scalars state.new.memory) }
    ensures bench { bench.new.parts ≡ bench.old.parts }
{
    if has_jobs(plan, class) {
        run_some(plan, class, state, bench);
    }
}
