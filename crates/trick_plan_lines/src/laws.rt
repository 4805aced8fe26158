//! Laws of drafts. A function that calls one of them may rest on what it says; the call itself does
//! nothing.

ghost use Rattle.trick_plan_lines.specs.Laws.{AnswersOne};
ghost use Rattle.trick_plan_lines.specs.Worked.{AreWorked, AreWorkedInTurn};

/// Lines answer one thing.
pub fn lines_answer_one()
    ensures { AnswersOne }
{
    trick_plan_variables::laws::declares_one();
    trick_text::laws::one_list();
}

/// Lines are answered as FORMATS says, at worked lines: each range and each time at its ends.
pub fn worked_lines_are_answered()
    ensures { AreWorked }
{}

/// Worked lines in turn: the first refusal decides.
pub fn worked_lines_in_turn_are_answered()
    ensures { AreWorkedInTurn }
{}
