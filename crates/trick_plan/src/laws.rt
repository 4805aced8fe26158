//! Laws of plans. A function that calls one of them may rest on what it says; the call itself does
//! nothing.

ghost use Rattle.trick_plan.specs.Laws.{AnswersAreOne, PlansAreSaid};

/// A program and the lines of an input have one answer, but for a want of memory: where they make a plan
/// they are not refused, and they are refused in one way.
pub fn answers_are_one()
    ensures { AnswersAreOne }
{
    trick_plan_lines::laws::lines_answer_one();
}

/// A plan that a program and the lines of an input make means what the lines have said: it is the one of the
/// draft after the last line.
pub fn plans_are_said()
    ensures { PlansAreSaid }
{
    trick_plan_lines::laws::lines_answer_one();
    trick_plan_draft::laws::cells_are_mirrored();
}
