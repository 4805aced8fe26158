//! The end of a plan: once all lines of an input were taken, their draft and what they say of the run and of its threads
//! give the plan of the program.
#![tactic(auto)]

mod ending;
mod events;
mod groups;
mod parts;
mod places;

pub use ending::end;
pub use parts::Parts;
