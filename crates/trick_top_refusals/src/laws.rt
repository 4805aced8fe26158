//! Worked lines. Each function is a promise, and does nothing.

ghost use Rattle.trick_model.specs.Plan.{Plan};
ghost use Rattle.trick_top_refusals.specs.Worked.{HaveCheckLines, HaveCheckpointLines, HaveInputLines, HaveJoinLines, HaveJournalLines, HavePlanLines, HaveSDefineLines};

/// The lines of what an S_define is refused for.
pub fn s_define_lines()
    ensures { HaveSDefineLines }
{}

/// The lines of what the names of an S_define are refused for.
pub fn check_lines()
    ensures { HaveCheckLines }
{}

/// The lines of what an input is refused for.
pub fn input_lines()
    ensures { HaveInputLines }
{}

/// The lines of what the join of a program and an input is refused for.
pub fn join_lines()
    ensures { HaveJoinLines }
{}

/// The lines of what a plan is refused for.
pub fn plan_lines()
    ensures { (p : Plan) → HavePlanLines p }
{}

/// The lines of what a checkpoint is refused for.
pub fn checkpoint_lines()
    ensures { HaveCheckpointLines }
{}

/// The lines of what a journal is refused for.
pub fn journal_lines()
    ensures { HaveJournalLines }
{}
