//! What is proved of the forms of lines. Each function is a promise, and does nothing.

ghost use Rattle.std.specs.Prelude.{List};
ghost use Rattle.trick_input.specs.Exact.{IsExact};
ghost use Rattle.trick_input.specs.Forms.{outcome_of, rows};
ghost use Rattle.trick_input.specs.Worked.{AreRefused, HaveForms};
ghost use Rattle.trick_input.specs.declared.class.Class.{Class};

/// The row of a line is the first whose form it has. Where it has none, the place is the first token
/// with which no form goes on, or the line's end, and a literal is due there exactly where a whole
/// number goes on.
pub fn rows_are_exact()
    ensures { (ws : List Class) → IsExact rows ws (outcome_of ws) }
{}

/// Each form is read, at worked lines.
pub fn worked_lines_are_read()
    ensures { HaveForms }
{}

/// Worked lines of no form are refused, each for its reason.
pub fn worked_lines_are_refused()
    ensures { AreRefused }
{}
