//! Reader of the jobs of a constructor: their classes, threads and phases, and when they run.
#![tactic(auto)]

mod jobs;

pub use jobs::read_jobs;
