//! What lies behind the turn of a hall: a board, and whether the hall was shut. Each call is what one turn does there, and
//! keeps the board in the state that the hall's history leaves.
#![tactic(auto)]

mod answers;
mod entry;
mod kept;

pub use answers::{HandCommit, HandTook, TryClose, TryOpen, is_memory};
pub use entry::Entry;
pub use kept::Kept;
