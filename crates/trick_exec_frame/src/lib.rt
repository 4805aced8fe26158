//! A turn after its entries were heard: its frame with the rounds that it publishes, its checkpoint and its count.
//! `docs/RULES.md` has the rules of a turn, and says which rounds of asynchronous threads a frame publishes and which
//! publications that a turn is given count.
#![tactic(auto)]

mod choice;
mod counted;
mod equipment;
mod idle;
mod rest;
mod round;
mod waiting;

pub use choice::choose;
pub use counted::counting;
pub use equipment::Equipment;
pub use idle::pass_idle;
pub use rest::{Rest, pass};
pub use waiting::wait;
