//! What is proved of the meaning: each function is a promise, and does nothing.

ghost use Rattle.trick_check_meaning.specs.Worked.{AreMeant};

/// The worked bodies do what docs/RULES.md says of them.
pub fn worked_bodies_are_meant()
    ensures { AreMeant }
{}
