//! Work beside the tics: a trait of whoever does the work of must-finish and asynchronous threads, with
//! the promise that what is published is what one thread makes of what was handed in.
#![tactic(auto)]

pub mod laws;
mod posts;

pub use posts::{Job1, Posted, Posts};
