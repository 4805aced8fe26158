//! One client of a served run, as its seat: what its queues hold, what is heard of it and given to the run, how it leaves,
//! and what is handed to it.
#![tactic(auto)]

mod hear;
mod seat;
mod send;

pub use hear::{leave, listen_all};
pub use seat::Seat;
pub use send::hand;
