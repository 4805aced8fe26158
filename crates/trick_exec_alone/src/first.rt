//! Where a run starts.

ghost use Rattle.std.specs.Prelude.{◌≡◌, IfOk};
ghost use Rattle.trick_phase_jobs.specs.Belongs.{IsMemoryOf};
ghost use Rattle.trick_model.specs.PlanOf.{plan_of};
ghost use Rattle.trick_model.specs.Run.{start as start_of};
ghost use Rattle.trick_model.specs.State.{seen};

use std::alloc::{AllocError, Global};
use trick_exec_classes::start;
use trick_memory::Memory;
use trick_model::{Accepted, State};

/// The state in which a run of the plan starts.
pub fn first_state(alloc: Global, accepted: &Accepted) -> Result<State<Memory>, AllocError>
    ensures started { IfOk result (λ state. seen (λ memory. memory.numbers) state
        ≡ start_of (plan_of accepted.now.plan)) }
    ensures memory { IfOk result (λ state. IsMemoryOf accepted.now.plan.program state.memory.numbers
        state.memory.scalars) }
{
    let memory = Memory::new(alloc, accepted.plan())?;
    start(alloc, accepted, memory)
}
