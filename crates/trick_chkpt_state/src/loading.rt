//! The state of a checkpoint.

ghost use Rattle.std.specs.Prelude.{IfOk};
ghost use Rattle.trick_chkpt_lines.specs.CheckpointLines.{checkpoint};
ghost use Rattle.trick_codes.specs.Loads.{Loads};
ghost use Rattle.trick_phase_jobs.specs.Belongs.{IsMemoryOf};
ghost use Rattle.trick_model.specs.State.{State as StateOf, seen};
ghost use Rattle.trick_chkpt_state.specs.Loaded.{IsCheckpointOf, IsLoadedAs};

use crate::laws;
use std::alloc::Global;
use trick_chkpt::laws::{lines_are_the_text, no_checkpoint_is_a_proper_prefix};
use trick_chkpt::load;
use trick_codes::LoadFault;
use trick_memory::Memory;
use trick_model::{Plan, State};

/// The state of a plan of which the text is the checkpoint, or why it is none: `docs/FORMATS.md` has the form
/// and the refusals. It is a valid state, from which a run of the plan can go on, and of the checkpoint of a
/// valid state it is that state. The cost is linear in the text and the plan.
pub fn resume(alloc: Global, plan: &Plan, text: &[u8]) -> Result<State<Memory>, LoadFault>
    ensures loaded { Loads (seen (λ memory. memory.numbers)) (checkpoint plan.now) text.now result }
    ensures checkpoint { IfOk result (λ state. IsCheckpointOf plan.now text.now
        (seen (λ memory. memory.numbers) state)) }
    ensures same { (s : StateOf) → IsCheckpointOf plan.now text.now s
        → IsLoadedAs (seen (λ memory. memory.numbers)) s result }
    ensures memory { IfOk result (λ state. IsMemoryOf plan.now.program state.memory.numbers state.memory.scalars) }
{
    laws::checkpoints_are_of_states();
    laws::checkpoints_have_numbers();
    laws::states_have_checkpoints();
    no_checkpoint_is_a_proper_prefix();
    lines_are_the_text();
    let Ok(memory) = Memory::new(alloc, plan) else {
        return Err(LoadFault::OutOfMemory);
    };
    load(alloc, plan, text, memory)
}
