use crate::Action;
use trick_base::Word;

/// What a client's line says.
#[derive(Debug, Drop)]
pub enum Command {
    Act(Action),
    /// An empty line, or one that is accepted and changes nothing.
    Nothing,
    /// Freeze is left.
    Resume,
    /// A variable is added to the session's list.
    Add { name: Word },
    /// All entries of that name leave the list.
    Remove { name: Word },
    Clear,
    /// The cycle of samples, from 1 to 10^15 tics.
    Cycle { tics: u64 },
    Pause { on: bool },
    /// A sample is sent at the end of this turn.
    Send,
    /// Whether there is a cell of this name.
    Exists { name: Word },
    /// The copy mode, 1 or 2.
    Copy { mode: u8 },
    /// The session ends.
    Exit,
    /// A line of no form.
    Bad,
}
