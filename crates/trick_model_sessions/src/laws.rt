//! The laws. A function that calls one of these may rest on what it says; the call itself does nothing.

ghost use Rattle.trick_model_sessions.specs.Lines.{SameLinesDoTheSame, SameLinesWriteTheSame};
ghost use Rattle.trick_model_sessions.specs.Silence.{AbsentAreSilent, LeavingIsSilent, LeftAreGone, StrangersAreSilent};

/// Turns with the same lines and publications go on from one state to one state, and write the same rows and
/// checkpoints: who said a line, who joined and who left makes no difference.
pub fn same_lines_do_the_same()
    ensures { SameLinesDoTheSame }
{}

/// Whole runs with the same lines and publications end with one state, and their files are the same, but for the
/// journal.
pub fn same_lines_write_the_same()
    ensures { SameLinesWriteTheSame }
{}

/// A session that is not there, and has no entry in a turn, is sent nothing in it and is not there after it.
pub fn absent_sessions_are_silent()
    ensures { AbsentAreSilent }
{}

/// A session without an entry in a run has an empty text.
pub fn strangers_are_silent()
    ensures { StrangersAreSilent }
{}

/// A session whose only entry of a turn is its leave is sent nothing in it, and is not there after it.
pub fn leaving_is_silent()
    ensures { LeavingIsSilent }
{}

/// A session whose last entry of a turn is its leave is not there after it.
pub fn left_are_gone()
    ensures { LeftAreGone }
{}
