//! The memory of a simulation: a number for each cell, which is found by its full name; the listing
//! of the cells; and the variables that an input declares.
#![tactic(auto)]

pub mod laws;
mod list;
mod memory;
mod names;
mod packing;

pub use list::listing;
pub use memory::Memory;
pub use trick_plan_variables::{DeclareFault, declare};
