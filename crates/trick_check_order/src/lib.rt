//! Which methods call which: the one order in which each stands after those that it calls, and else
//! the first one that reaches itself.
#![tactic(auto)]

mod callees;
pub mod laws;
mod lower;
mod ranks;
mod reach;
mod rounds;
mod search;

pub use callees::are_callees;
pub use search::{OrderFault, order};
