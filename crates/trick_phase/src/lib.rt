//! One tic through a board on the caller's thread: its due jobs one by one in key order, or a list of
//! takes and commits, which is played as far as it is a schedule.
#![tactic(auto)]

mod player;
mod single;
mod steps;

pub use player::{Played, play};
pub use single::Single;
pub use trick_phase_board::Board;
pub use trick_phase_jobs::{OnePhase, Phases};
