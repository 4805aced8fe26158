//! What an input says of a run and of its threads, whatever the order of its lines: the software frame, the first tic
//! that is not run, and whether the run starts in Freeze; the threads of the plan, and its queues: the jobs of each class
//! in the order of their keys.
#![tactic(auto)]

pub mod laws;
mod queue;
mod said;
mod setting;
mod settings;
mod thread_list;

pub use queue::queues;
pub use said::is_frame;
pub use setting::Setting;
pub use settings::{Settings, settings_in};
pub use thread_list::threads;
