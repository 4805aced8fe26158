//! Laws of checkpoints, for every plan and all states. A function that calls one of them may rest on what it
//! says; the call itself does nothing.

ghost use Rattle.trick_chkpt.specs.Laws.{NoPrefix, OneText};

/// No checkpoint of a plan is a proper prefix of another of the same plan, and each is of one state.
pub fn no_checkpoint_is_a_proper_prefix()
    ensures { NoPrefix }
{}

/// The lines of a checkpoint are the text of its state.
pub fn lines_are_the_text()
    ensures { OneText }
{}
