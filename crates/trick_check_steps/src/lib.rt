//! The static steps of resolved bodies: a bound on the work of one run, by the tree alone.
#![tactic(auto)]

mod block;
mod expression;
pub mod laws;

pub use block::steps;
