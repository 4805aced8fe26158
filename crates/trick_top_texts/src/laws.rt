//! Laws of what texts say. A function that calls one of them may rest on what it says; the call itself does
//! nothing.

ghost use Rattle.std.specs.Prelude.{List, ℕ};
ghost use Rattle.trick_top_texts.specs.Meaning.{HaveOneMeaning};
ghost use Rattle.trick_top_texts.specs.Readings.{HasOneReading, HasOneTree};

/// An S_define has one tree or one refusal of its reader, but for a want of memory.
pub fn s_defines_have_one_tree()
    ensures { (s_define : List ℕ) → HasOneTree s_define }
{}

/// An input has one list of lines or one refusal of its reader, but for a want of memory.
pub fn inputs_have_one_reading()
    ensures { (input : List ℕ) → HasOneReading input }
{}

/// Two texts say one thing: a plan that is accepted, a plan that is refused, or the refusal of a text.
pub fn texts_have_one_meaning()
    ensures { (s_define input : List ℕ) → HaveOneMeaning s_define input }
{
    trick_check::laws::a_file_has_one_program();
    trick_check::laws::a_file_has_one_refusal();
    trick_check::laws::no_file_is_named_and_refused();
    trick_plan_lines::laws::lines_answer_one();
    trick_plan::laws::plans_are_said();
}
