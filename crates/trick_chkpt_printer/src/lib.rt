//! Checkpoints as they are printed: the text of a state of a plan, with the jobs and the cells of the
//! threads of which it has records. `trick_chkpt` loads it.
#![tactic(auto)]

mod cells;
mod faults;
mod line;
mod plan_jobs;
mod printer;
mod records;
mod thread_scope;

pub use faults::push_fault;
pub use plan_jobs::{jobs_of, threads_beside};
pub use printer::print;
pub use thread_scope::scope;
