//! Laws of what runs do. A function that calls one of them may rest on what it says; the call itself
//! does nothing.

ghost use Rattle.trick_exec_meaning.specs.Laws.{JournalsShow};

/// A run that follows a journal shows whether the journal fits, and which turn is told where it does not.
pub fn journals_show()
    ensures { JournalsShow }
{}
