//! Acceptance: whether every schedule of a plan's threads gives the result of one thread.
//!
//! [`accept`] asks seven conditions in a fixed order and names the first case in which one fails, as a
//! [`PlanFault`]. `docs/RULES.md` has the conditions. [`laws`] says what whoever holds an accepted plan
//! may rest on.
#![tactic(auto)]

mod accesses;
mod cell_set;
mod fault;
pub mod laws;
mod race;
mod ranges;
mod reach;
mod reads;
mod recorded;
mod threads;
mod verdict;
mod writers;

pub use fault::PlanFault;
pub use verdict::{accept, judge};
