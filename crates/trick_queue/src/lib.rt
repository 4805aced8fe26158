//! The due jobs of a tic in key order, and the next tic at which a job is due, found without a look
//! at the jobs that are not; and the tree of tics by which they are found.
#![tactic(auto)]

mod calendar;
mod group;
mod jobs;
pub mod laws;
mod line;
mod merge;
mod one_tic;
mod queues;
mod steps;
mod tree;

pub use calendar::Calendar;
pub use group::Group;
pub use jobs::{next_of, times};
pub use line::{fill, pass};
pub use merge::Merge;
pub use queues::Queues;
pub use steps::Steps;
pub use tree::{NEVER, Tics};
