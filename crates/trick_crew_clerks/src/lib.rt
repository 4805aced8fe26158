//! The clerks of must-finish and asynchronous threads: a clerk's shift, which is run in a thread of its own, and a desk
//! with the shifts that stayed, whose work the caller does. Whoever does the work, what is published is what one thread
//! makes of what was handed in.
#![tactic(auto)]

mod ending;
mod roster;
mod shift;
mod staff;
mod tending;
mod yard;

pub use roster::Roster;
pub use shift::Shift;
pub use staff::Staff;
pub use yard::Yard;
