//! Deeds, and the reads and events that do them to a state; and the next tic at which a read or an event
//! may do something, so that a run can leave out the tics before it.
#![tactic(auto)]

mod action;
mod agenda;
mod asked;
mod condition;
mod due;
mod moment;

pub use action::act;
pub use agenda::Agenda;
pub use asked::Asked;
pub use due::fire;
pub use moment::Moment;
