//! The cells of a simulation: what a file's objects take in the memory, with the full name of each
//! cell, and the tables of where every variable lies.
#![tactic(auto)]

mod cell;
mod field;
pub mod laws;
mod name;
mod object;
mod size;

pub use cell::cells;
pub use field::lay_out;
pub use object::{items, objects};
pub use size::{cell_count, sizes};
