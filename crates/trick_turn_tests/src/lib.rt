//! A small board behind a turn lock, generic in its memory, to try what the layers over `trick_turn` need: a chief
//! opens the board with a memory and closes it again, hands store numbers into it, and a close gives the memory of
//! the open with what was stored since then.
#![tactic(auto)]

mod board;
mod cells;
mod chief;
mod hall;
mod hand;

pub use board::{Board, Entry};
pub use cells::{Cells, Row};
pub use chief::Chief;
pub use hall::{gather, make_hall};
pub use hand::{Hand, Stored};

#[cfg(test)]
mod count;
#[cfg(test)]
mod tests;
