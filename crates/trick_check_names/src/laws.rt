//! What is proved of the rules: each function is a promise, and does nothing.

ghost use Rattle.trick_check_names.specs.Worked.{AreAnswered};

/// The rules say of the worked files what FORMATS says of them.
pub fn worked_files_are_answered()
    ensures { AreAnswered }
{}
