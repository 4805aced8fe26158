//! A law of replays. A function that calls it may rest on what it says; the call itself does nothing.

ghost use Rattle.trick_exec_alone.specs.Laws.{JoinsAreWritten};

/// As many sessions join in the journal that turns write as in the lists that they were given.
pub fn joins_are_written()
    ensures { JoinsAreWritten }
{}
