//! The jobs of classes at their moments: the start of a run, the top and the end of a frame, entering
//! and leaving Freeze, checkpoints, and shutdown. `docs/RULES.md` says when each class runs.
#![tactic(auto)]

mod begin;
mod class_jobs;
mod ends;
mod freeze;

pub use begin::start;
pub use class_jobs::{has_jobs, run_class};
pub use ends::{checkpoint_jobs, shut};
pub use freeze::{enter_freeze, freeze_if_asked, leave_freeze};
