//! A board that threads share: it lies behind a turn, a chief opens and closes its tics, and hands take and commit
//! their jobs. Whatever the threads do, a close gives what one thread makes of what the chief put in.
#![tactic(auto)]

mod chief;
mod hall;
mod hand;

pub use chief::Chief;
pub use hall::Hall;
pub use hand::Hand;
pub use trick_hall_kept::{HandCommit, HandTook, TryClose, TryOpen};
