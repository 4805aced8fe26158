//! The jobs of a tic in threads: a worker for each scheduled child thread that has a job, and the caller, who does
//! thread 0 and each thread whose worker could not be started. Whatever the threads do, a tic comes to what one thread
//! makes of it.
#![tactic(auto)]

mod children;
mod crew;
mod held;
pub mod laws;
mod members;
mod share;
mod step;
mod team;
mod worker;

pub use crew::Crew;
pub use held::Held;
pub use share::Share;
pub use step::Stepped;
pub use team::Team;
pub use worker::Worker;
