//! The lines of a checkpoint: what they are, and the readers of those of cells, flags and groups.
#![tactic(auto)]

mod cells;
mod groups;
mod ranges;

pub use cells::{read_cells, read_events, read_job_flags, read_jobs, read_memory};
pub use groups::read_groups;
