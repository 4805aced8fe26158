//! Laws of journals, for all plans, starts and texts. A function that calls one of them may rest on what it
//! says; the call itself does nothing.

ghost use Rattle.trick_journal.specs.Laws.{NoPrefix};
ghost use Rattle.trick_journal.specs.Facts.{RefusedIsNone};

/// No journal of a plan and a start is a proper prefix of another, and each text is of one journal.
pub fn no_journal_is_a_proper_prefix()
    ensures { NoPrefix }
{}

/// A text that is refused as a journal of a plan and a start is that of none: where it is refused for a line or
/// for its missing end, no journal has it.
pub fn refused_texts_are_no_journals()
    ensures { RefusedIsNone }
{}
