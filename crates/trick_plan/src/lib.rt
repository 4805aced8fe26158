//! The plan of a simulation: a program and the lines of an input, joined.
#![tactic(auto)]

mod joined;
pub mod laws;

pub use joined::plan;
pub use trick_plan_lines::JoinFault;
