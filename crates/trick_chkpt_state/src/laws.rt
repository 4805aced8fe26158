//! Laws of checkpoints and states, for every plan. A function that calls one of them may rest on what it
//! says; the call itself does nothing.

ghost use Rattle.trick_chkpt_state.specs.States.{CheckpointsAreOfStates, CheckpointsHaveNumbers, StatesHaveCheckpoints};

/// What has a checkpoint is a valid state of the plan.
pub fn checkpoints_are_of_states()
    ensures { CheckpointsAreOfStates }
{}

/// The numbers of what has a checkpoint are those that a value of the code can keep.
pub fn checkpoints_have_numbers()
    ensures { CheckpointsHaveNumbers }
{}

/// Each valid state of a plan has a checkpoint.
pub fn states_have_checkpoints()
    ensures { StatesHaveCheckpoints }
{}
