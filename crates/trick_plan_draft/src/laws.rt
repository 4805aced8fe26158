//! Laws of drafts. A function that calls one of them may rest on what it says; the call itself does
//! nothing.

ghost use Rattle.trick_plan_draft.specs.Laws.{AllLinesKeep, BeginsRight, CellsAreMirrored, DeclarationsKeep, DeclarationsKeepDeeds};
ghost use Rattle.trick_plan_draft.specs.Worked.{AreWorked, AreWorkedEvents, AreWorkedGroups};

/// The draft before the first line is right.
pub fn begins_right()
    ensures { BeginsRight }
{}

/// A line that is taken keeps a draft right, and the cells that it knows; and what an action asked for
/// before the line it asks for after it.
pub fn lines_keep()
    ensures { AllLinesKeep }
{
    trick_plan_conditions::laws::plain_conditions_hold();
}

/// A declaration that is taken keeps a draft right.
pub fn declarations_keep()
    ensures { DeclarationsKeep }
{}

/// What an action asked for before a declaration it asks for after it.
pub fn declarations_keep_deeds()
    ensures { DeclarationsKeepDeeds }
{}

/// What a draft knows of the cells of a program.
pub fn cells_are_mirrored()
    ensures { CellsAreMirrored }
{}

/// The lines of cells, jobs and reads add or are refused as FORMATS says, at worked lines.
pub fn worked_lines_are_answered()
    ensures { AreWorked }
{}

/// The lines of groups do so, too.
pub fn worked_lines_of_groups_are_answered()
    ensures { AreWorkedGroups }
{}

/// The lines of events do so, too.
pub fn worked_lines_of_events_are_answered()
    ensures { AreWorkedEvents }
{}
