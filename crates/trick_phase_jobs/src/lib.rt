//! Jobs of a plan one after another, on one bench: whoever has jobs to run, in a tic, of a class or beside the tics,
//! runs them here. And a trait of whoever runs the due jobs of a tic, with the promise that they come to what one thread
//! makes of them, and its form on the caller's thread.
#![tactic(auto)]

mod one_phase;
mod phases;
mod run;
mod setting;

pub use one_phase::OnePhase;
pub use phases::Phases;
pub use run::{run_job, run_jobs};
pub use setting::Setting;
