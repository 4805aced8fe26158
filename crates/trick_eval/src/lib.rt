//! Evaluates jobs of a program: a bench has all buffers of one worker, is filled with what a job reads,
//! and holds what the job does, until that is stored.
#![tactic(auto)]

mod bench;
mod expression;
mod machine;
mod sparse;
mod stack;
mod store;
mod working;

pub use bench::{Bench, eval};
pub use expression::{apply, compare, prefix};
