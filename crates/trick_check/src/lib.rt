//! From the tree of a simulation definition to the program that it names: names, calls, counts and
//! steps are checked, each kind over the whole file before the next, and then all parts are joined.
#![tactic(auto)]

mod class;
mod count;
mod draft;
mod fault;
pub mod laws;
mod name;
mod order;
mod program;
mod step;
mod title;
mod walk;

pub use fault::CheckFault;
pub use program::resolve;
