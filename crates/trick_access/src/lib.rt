//! The cells that a job may read and those that it may write, as ranges in order, with no two that
//! touch, and where in a program a job's object and body are.
#![tactic(auto)]

mod cells;
mod job_access;
mod job_body;
pub mod laws;
mod program_access;
mod reach;

pub use cells::Access;
pub use job_access::access;
pub use job_body::{base, body};
pub use program_access::{accesses, ranges_of, reads_in, reads_of_jobs, writes_in};
