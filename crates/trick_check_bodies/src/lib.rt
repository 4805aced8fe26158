//! The methods and the jobs of a simulation: which lines of which constructors run what on which object, the blocks of
//! each class' methods, and the methods with their numbers. Its laws say of places that a path with its indexes written
//! out as numbers is the full name of the one cell that its resolved place leads to.
#![tactic(auto)]

mod class;
mod job;
pub mod laws;
mod line;
mod method;

pub use class::{Bodies, add_class};
pub use job::jobs;
pub use line::job_count;
pub use method::{add_methods, numbers};
