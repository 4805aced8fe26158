//! Readers of the parts of a simulation definition: `read_file` reads its includes, enums, structs, classes and
//! objects, each production by a function on its grammar. And what is known of the tree of each text that is read.
#![tactic(auto)]

mod classes;
mod definitions;
mod enums;
mod members;
mod names;

pub use definitions::read_file;
