//! Who gives each turn of a run its entries, and takes the messages to sessions: a trait; the source of a run without
//! clients; and the source of a replay, which is a journal, turn by turn. `docs/RULES.md` says which entries may come and
//! what a replay is.
#![tactic(auto)]

mod due;
mod journal_turns;
mod no_turns;
mod sessions;
mod turns;

pub use journal_turns::JournalTurns;
pub use no_turns::NoTurns;
pub use turns::{Next, Turns};
